// Where the cells of many variables stand: the offsets of all are found in one pass over the type codes.

#![tactic(auto)]

ghost use Rattle.std.specs.Prelude.{◌≡◌, ◌++◌, ◌≤◌, length, drop, replicate};
ghost use Rattle.questions.specs.Ask.{answer_of, ask_column};
ghost use Rattle.checking.specs.Checks.{layout_by};
ghost use Rattle.columns.specs.Columns.{column_by};
ghost use Rattle.column_list.specs.Offsets.{Offsets, Kept, Cleared};
ghost use Rattle.coded.specs.Coded.{least};

use checking::Layout;
use columns::Column;
use refusal::Refusal;

// Puts `n` zeros at the start of `t`.
fn put_zeros(t: &mut [u64], n: usize)
    requires { n ≤ length t.old }
    ensures { t.new ≡ replicate n 0 ++ drop n t.old }
{
    t[..n].fill(0);
}

// Lists the offsets of the cells of variables 1, 2, .. in a row, of the first 32,768, or zeros where they are refused; gives where the cells
// of variable 1 stand.
pub fn list_offsets(t: &mut [u64; 32768], f: &[u8], l: Layout) -> Result<Column, Refusal>
    requires { length t.old ≡ 32768 }
    ensures { (Offsets f.now (layout_by l) t.new result) × (Kept (least 32768 l.k) t.old t.new) × (Cleared (least 32768 l.k) t.new result) }
{
    let n = cell_runs::least(32768, l.k);
    let first = match columns::column_of(f, l, 1) {
        Ok(c) => c,
        Err(e) => {
            put_zeros(&mut t[..], n);
            return Err(e);
        }
    };
    let o = answers::opened(true, l.edition, l.order)?;
    let types = cell_runs::types_of(l, o.e.tagged);
    t[0] = first.offset;
    let mut c = first;
    for v in 1..n {
        c = cell_runs::column_after(f, types, c, v as u64, o.e.tagged, o.msf);
        t[v] = c.offset;
    }
    Ok(first)
}

// Where the cells of variable `i` stand, by the list.
pub fn column_at(
    f: &[u8],
    l: Layout,
    t: &[u64; 32768],
    first: Result<Column, Refusal>,
    i: u64,
) -> Result<Column, Refusal>
    requires { Offsets f.now (layout_by l) t.now first }
    ensures { result ≡ column_by (answer_of f.now (layout_by l) (ask_column i)) }
{
    if !reading::is_among(i, l.k.min(32768)) {
        return columns::column_of(f, l, i);
    }
    let first = first?;
    let o = answers::opened(true, l.edition, l.order)?;
    let types = cell_runs::types_of(l, o.e.tagged);
    let k = (i - 1) as usize;
    let field = data::field_at(f, types as usize, k, o.e.tagged, o.msf);
    Ok(Column {
        field,
        offset: t[k],
        row: first.row,
    })
}
