#![tactic(auto)]

ghost use Rattle.std.specs.Prelude.{◌≡◌, ◌&&◌, ◌≤◌, eqb};
ghost use Rattle.format.specs.Number.{order_by};
ghost use Rattle.questions.specs.Ask.{answer_of, ask_long};
ghost use Rattle.checking.specs.Checks.{layout_by};
ghost use Rattle.long_strings.specs.Longs.{long_said};
ghost use Rattle.format.specs.Cells.{reference};
ghost use Rattle.cell.specs.Cells.{says};
ghost use Rattle.walks.specs.Answers.{long_by};
ghost use Rattle.editions.specs.Editions.{numbers_of};

use cell::Cell;
use checking::Layout;
use editions::Edition;
use refusal::Refusal;
use walks::Long;

// Whether (`v`, `x`) is the reference of the empty text.
fn is_empty(v: u64, x: u64) -> bool
    ensures { result ≡ (eqb v 0 && eqb x 0) }
{
    v == 0 && x == 0
}

// The long string that the reference (`v`, `x`) means.
fn reference_long(
    f: &[u8],
    l: Layout,
    e: Edition,
    msf: bool,
    v: u64,
    x: u64,
) -> Result<Long, Refusal>
    requires { e.record_width ≤ 8 }
    ensures { result ≡ long_by (long_said (numbers_of e) (order_by msf) f.now (layout_by l) (reference v x)) }
{
    if is_empty(v, x) {
        return Ok(Long::NONE);
    }
    let end = reading::less(l.places[11], reading::tag_size(e.tagged, 8));
    if end <= l.places[10] {
        return Err(Refusal::NotReadable);
    }
    let p = (l.places[10] + reading::tag_size(e.tagged, 7)) as usize;
    if f.len() < p {
        return Err(Refusal::NotReadable);
    }
    walks::records(f, p, end, v, x, e.record_width, msf)
}

// The long string that a cell means: kind 0 and empty where it means none.
fn long_by(f: &[u8], l: Layout, e: Edition, msf: bool, c: Cell) -> Result<Long, Refusal>
    requires { e.record_width ≤ 8 }
    ensures { result ≡ long_by (long_said (numbers_of e) (order_by msf) f.now (layout_by l) (says c)) }
{
    match c {
        Cell::Reference(v, x) => reference_long(f, l, e, msf, v, x),
        _ => Ok(Long::NONE),
    }
}

// The long string of cell `i`, `j`.
pub fn long_string(f: &[u8], l: Layout, i: u64, j: u64) -> Result<Long, Refusal>
    ensures { result ≡ long_by (answer_of f.now (layout_by l) (ask_long i j)) }
{
    let cell = cells::cell_of(f, l, i, j)?;
    let o = reading::edition_in(l.edition, l.order).ok_or(Refusal::NotReadable)?;
    long_by(f, l, o.e, o.msf, cell)
}
