#![tactic(auto)]

ghost use Rattle.std.specs.Prelude.{◌≡◌, ◌+◌, ◌*◌, ◌≤◌, length};
ghost use Rattle.format.specs.Number.{order_by};
ghost use Rattle.format.specs.Edition.{code_width};
ghost use Rattle.questions.specs.Ask.{answer_of, ask_column};
ghost use Rattle.reading.specs.Reads.{read_by};
ghost use Rattle.checking.specs.Checks.{layout_by};
ghost use Rattle.columns.specs.Columns.{column_by, widths_in};

use checking::Layout;
use codes::Field;
use refusal::Refusal;

// Where a variable's cells stand: kind and width of the cells, their offset in a row, and the width of a row.
#[derive(Clone, Copy)]
pub struct Column {
    pub field: Field,
    pub offset: u64,
    pub row: u64,
}

// The widths of the cells of the `n` types at `p`, added up, where all are known; the greatest number where the sum is greater.
fn width_sum(f: &[u8], p: usize, n: usize, tagged: bool, msf: bool) -> Option<u64>
    requires { p + n * code_width tagged ≤ length f.now }
    ensures { result ≡ read_by (widths_in tagged (order_by msf) f.now n p) }
{
    let mut sum: u64 = 0;
    for j in 0..n {
        let x = data::field_at(f, p, j, tagged, msf);
        if x.width == 0 {
            return None;
        }
        sum = sum.saturating_add(x.width as u64);
    }
    Some(sum)
}

// Where the cells of variable `i` stand.
pub fn column_of(f: &[u8], l: Layout, i: u64) -> Result<Column, Refusal>
    ensures { result ≡ column_by (answer_of f.now (layout_by l) (ask_column i)) }
{
    let o = answers::opened(reading::is_among(i, l.k), l.edition, l.order)?;
    let tagged = o.e.tagged;
    let a = reading::tag_size(tagged, 16);
    let w = codes::code_width(tagged) as u64;
    reading::place_in(f, l.places[2], a, l.k, w).ok_or(Refusal::NotReadable)?;
    let p = (l.places[2] + a) as usize;
    let row = width_sum(f, p, l.k as usize, tagged, o.msf).ok_or(Refusal::NotReadable)?;
    let k = (i - 1) as usize;
    let offset = width_sum(f, p, k, tagged, o.msf).ok_or(Refusal::NotReadable)?;
    Ok(Column {
        field: data::field_at(f, p, k, tagged, o.msf),
        offset,
        row,
    })
}
