// The bytes of a file that answers name, handed back for any file and any layout.

#![tactic(auto)]

ghost use Rattle.std.specs.Prelude.{◌≡◌, List, ℕ};
ghost use Rattle.questions.specs.Ask.{shown_by, shown};
ghost use Rattle.checking.specs.Checks.{layout_by};
ghost use Rattle.cell.specs.Cells.{says};
ghost use Rattle.asking.specs.Asking.{answer_by};
ghost use Rattle.parts.specs.Parts.{Names, text_of, long_of};

use answers::Part;
use asking::{Answer, Question};
use cell::Cell;
use checking::Layout;

// Where the bytes stand that a cell's content names, if it names any.
fn cell_part(c: Cell) -> Option<Part>
    ensures { Names (λ (f : List ℕ). shown_by f (says c)) result }
{
    match c {
        Cell::Text(p, n) => Some(Part {
            at: p as u64,
            len: n as u64,
        }),
        Cell::Whole(_) | Cell::Single(_) | Cell::Double(_) | Cell::Letter(_) => None,
        Cell::Between | Cell::Outside | Cell::Reference(_, _) => None,
    }
}

// Where the bytes stand that an answer names, if it names any, without the lent plain text.
fn answer_part(a: Answer) -> Option<Part>
    ensures { Names (λ (f : List ℕ). shown f (answer_by a)) result }
{
    match a {
        Answer::Part(at, len) | Answer::LongString(_, at, len) => Some(Part { at, len }),
        Answer::Content(c) => cell_part(c),
        Answer::Refused(_) | Answer::Plain => None,
        Answer::Count(_) | Answer::YesNo(_) | Answer::Type(_, _) => None,
    }
}

// The bytes that the answer to a question names: a label, a stamp, a name, a format, a text cell, a long string; none with a refusal or
// with an answer that names none.
pub fn text_of<'a>(file: &'a [u8], layout: Layout, q: Question) -> &'a [u8]
    ensures { result.now ≡ text_of file.now (layout_by layout) q }
{
    match answer_part(asking::ask(file, layout, q)) {
        Some(part) => answers::part_at(file, part),
        None => &file[0..0],
    }
}

// The contents of the long string of cell `i`, `j`.
pub fn long_of<'a>(file: &'a [u8], layout: Layout, i: u64, j: u64) -> &'a [u8]
    ensures { result.now ≡ long_of file.now (layout_by layout) i j }
{
    text_of(file, layout, Question::LongString(i, j))
}
