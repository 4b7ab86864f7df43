#![tactic(auto)]

ghost use Rattle.std.specs.Prelude.{◌≡◌, ◌≤◌, [], IfOk};
ghost use Rattle.format.specs.Number.{order_by};
ghost use Rattle.questions.specs.Ask.{answer_of, ask_table, ask_words, shown};
ghost use Rattle.checking.specs.Checks.{layout_by};
ghost use Rattle.cell.specs.Cells.{says, Lettered};
ghost use Rattle.label_words.specs.Words.{set_said, said_told, cell_words};
ghost use Rattle.walks.specs.Answers.{words_by, set_by};
ghost use Rattle.walks.specs.Walks.{placed_told};
ghost use Rattle.editions.specs.Editions.{numbers_of};

use answers::Part;
use cell::Cell;
use checking::Layout;
use editions::Edition;
use refusal::{Refusal, Told};
use walks::LabelSet;

// The label set of variable `i`; none where the variable has no labels.
fn set_in(f: &[u8], l: Layout, e: Edition, i: u64, msf: bool) -> Result<Option<LabelSet>, Refusal>
    requires { e.name_width ≤ 65535 }
    ensures { result ≡ set_by (set_said (numbers_of e) (order_by msf) f.now (layout_by l) i) }
{
    let w = e.name_width;
    let gap = reading::tag_size(e.tagged, 19);
    let p = reading::place_in(f, l.places[6], gap, reading::less(i, 1), w as u64).ok_or(
        Refusal::NotReadable,
    )?;
    let n = reading::text_in(f, p, w).ok_or(Refusal::NotReadable)?;
    if n == 0 {
        return Ok(None);
    }
    let end = reading::less(l.places[12], reading::tag_size(e.tagged, 15));
    if end <= l.places[11] {
        return Ok(None);
    }
    let start = l.places[11] + reading::tag_size(e.tagged, 14);
    walks::find_block(f, start, end, e.tagged, w, p as usize, n as usize, msf)
}

// The label set of variable `i`, for as many cells as the caller asks of it.
pub fn set_of(f: &[u8], l: Layout, i: u64) -> Result<Option<LabelSet>, Refusal>
    ensures { result ≡ set_by (answer_of f.now (layout_by l) (ask_table i)) }
{
    let o = answers::opened(reading::is_among(i, l.k), l.edition, l.order)?;
    set_in(f, l, o.e, i, o.msf)
}

// Where the label words of a cell that says `c`, of a variable with the label set `s`, stand, and how many text bytes are left from there on; none
// where the plain text is shown. A refused cell has its refusal.
pub fn cell_place<E: Told>(
    f: &[u8],
    s: Result<Option<LabelSet>, E>,
    c: Result<Cell, E>,
    msf: bool,
) -> Result<Option<Part>, E>
    requires { IfOk c (λ x. Lettered (says x)) }
    ensures { result ≡ cell_words (placed_told E.told (order_by msf) f.now s) c }
{
    match cell::key_of(c?) {
        Some(q) => walks::place_in_set(f, s, q, msf),
        None => Ok(None),
    }
}

// The label words of a cell that says `c`, of a variable with the label set `s`, in a byte order; none where the plain text is shown.
pub fn cell_words<E: Told>(
    f: &[u8],
    s: Result<Option<LabelSet>, E>,
    c: Result<Cell, E>,
    msf: bool,
) -> Result<Option<Part>, E>
    requires { IfOk c (λ x. Lettered (says x)) }
    ensures { result ≡ cell_words (said_told E.told (order_by msf) f.now s) c }
{
    walks::ended(f, cell_place(f, s, c, msf))
}

// The label words of cell `i`, `j`: where they stand; none where the plain text is shown.
pub fn label_words(f: &[u8], l: Layout, i: u64, j: u64) -> Result<Option<Part>, Refusal>
    ensures { result ≡ words_by (answer_of f.now (layout_by l) (ask_words i j [])) }
{
    let c = cells::cell_of(f, l, i, j)?;
    let o = reading::edition_in(l.edition, l.order).ok_or(Refusal::NotReadable)?;
    cell_words(f, set_of(f, l, i), Ok(c), o.msf)
}

// The label words of cell `i`, `j`: the label's own bytes in the file, without the terminator, or the plain text; empty with a refusal.
pub fn words<'a>(file: &'a [u8], plain: &'a [u8], l: Layout, i: u64, j: u64) -> &'a [u8]
    ensures { result.now ≡ shown file.now (answer_of file.now (layout_by l) (ask_words i j plain.now)) }
{
    match label_words(file, l, i, j) {
        Ok(Some(part)) => answers::part_at(file, part),
        Ok(None) => plain,
        Err(_) => &file[0..0],
    }
}
