// Functions with plain parameters that make a view and ask it: callers need no walk through code that holds a reference in a struct.

#![tactic(auto)]

ghost use Rattle.std.specs.Prelude.{◌≡◌, []};
ghost use Rattle.format.specs.Dta.{verdict, layout_of};
ghost use Rattle.checking.specs.Checks.{layout_by};
ghost use Rattle.asking.specs.Asking.{Asked};
ghost use Rattle.parts.specs.Parts.{text_of, long_of};
ghost use Rattle.view.specs.Words.{words_of};

use asking::{Answer, Question};
use checking::Layout;
use view::View;

// The answer to a question.
pub fn asked(file: &[u8], layout: Layout, q: Question) -> Answer
    ensures { Asked file.now (layout_by layout) q result }
{
    View::make(file, layout).ask(q)
}

// The bytes that the answer to a question names.
pub fn text_asked<'a>(file: &'a [u8], layout: Layout, q: Question) -> &'a [u8]
    ensures { result.now ≡ text_of file.now (layout_by layout) q }
{
    View::make(file, layout).text(q)
}

// The contents of the long string of cell `i`, `j`.
pub fn long_asked<'a>(file: &'a [u8], layout: Layout, i: u64, j: u64) -> &'a [u8]
    ensures { result.now ≡ long_of file.now (layout_by layout) i j }
{
    View::make(file, layout).long(i, j)
}

// The label words of cell `i`, `j`, or the lent plain text.
pub fn words_asked<'a>(file: &'a [u8], plain: &'a [u8], layout: Layout, i: u64, j: u64) -> &'a [u8]
    ensures { result.now ≡ words_of file.now plain.now (layout_by layout) i j }
{
    View::make(file, layout).words(plain, i, j)
}

// The answer to a question by the view of a file alone: the verdict's number is stored, and with a refusal a layout of zeros is asked.
pub fn checked_asked(file: &[u8], code: &mut u8, q: Question) -> Answer
    ensures { (code.new ≡ verdict file.now) × Asked file.now (layout_of file.now) q result }
{
    View::checked(file, code).ask(q)
}
