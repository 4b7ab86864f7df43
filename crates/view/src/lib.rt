// A view holds a file's slice with its layout in one struct, and answers the questions alike. Its methods are thin: each takes it apart and
// calls a function with plain parameters.

#![tactic(auto)]

ghost use Rattle.std.specs.Prelude.{◌≡◌, [], IfOk, IfErr};
ghost use Rattle.format.specs.Dta.{verdict, layout_of, no_layout};
ghost use Rattle.refusal.specs.Refusals.{code_of};
ghost use Rattle.checking.specs.Checks.{layout_by};
ghost use Rattle.asking.specs.Asking.{Asked};
ghost use Rattle.parts.specs.Parts.{text_of, long_of};
ghost use Rattle.view.specs.Words.{words_of};

use asking::{Answer, Question};
use checking::Layout;
use refusal::Refusal;

// A file's slice with its layout.
#[derive(Clone, Copy)]
pub struct View<'a> {
    pub file: &'a [u8],
    pub layout: Layout,
}

// No layout.
const NO_LAYOUT: Layout = Layout {
    edition: 0,
    order: 0,
    k: 0,
    n: 0,
    places: [0; 14],
};

// The layout of a file, all zeros with a refusal; the verdict's number is stored.
pub fn checked_layout(file: &[u8], code: &mut u8) -> Layout
    ensures { (code.new ≡ verdict file.now) × (layout_by result ≡ layout_of file.now) }
{
    match View::accepted(file) {
        Ok(view) => {
            *code = 0;
            view.layout
        }
        Err(refusal) => {
            *code = refusal.number();
            NO_LAYOUT
        }
    }
}

impl<'a> View<'a> {
    // The view of a file and a layout, right or wrong.
    pub fn make(file: &'a [u8], layout: Layout) -> View<'a>
        ensures { (result.file ≡ file.entry) × (result.layout ≡ layout) }
    {
        View { file, layout }
    }

    // The view of a file alone, which is checked first: the verdict's number is stored, and with a refusal the layout is all zeros.
    pub fn checked<'c>(file: &'a [u8], code: &'c mut u8) -> View<'a>
        ensures { (result.file ≡ file.entry) × ((code.new ≡ verdict file.now) × (layout_by result.layout ≡ layout_of file.now)) }
    {
        View::make(file, checked_layout(file, code))
    }

    // The view of a file alone that is accepted.
    pub fn accepted(file: &'a [u8]) -> Result<View<'a>, Refusal>
        ensures code { code_of result ≡ verdict file.now }
        ensures view { IfOk result (λ v. (v.file ≡ file.entry) × (layout_by v.layout ≡ layout_of file.now)) }
        ensures bare { IfErr result (λ e. no_layout ≡ layout_of file.now) }
    {
        let layout = checking::check(file)?;
        Ok(View { file, layout })
    }

    // The answer to a question.
    pub fn ask(self, q: Question) -> Answer
        ensures { Asked self.entry.file.now (layout_by self.entry.layout) q result }
    {
        asking::ask(self.file, self.layout, q)
    }

    // The bytes that the answer to a question names.
    pub fn text(self, q: Question) -> &'a [u8]
        ensures { result.now ≡ text_of self.entry.file.now (layout_by self.entry.layout) q }
    {
        parts::text_of(self.file, self.layout, q)
    }

    // The contents of the long string of cell `i`, `j`.
    pub fn long(self, i: u64, j: u64) -> &'a [u8]
        ensures { result.now ≡ long_of self.entry.file.now (layout_by self.entry.layout) i j }
    {
        parts::long_of(self.file, self.layout, i, j)
    }

    // The label words of cell `i`, `j`, or the lent plain text.
    pub fn words(self, plain: &'a [u8], i: u64, j: u64) -> &'a [u8]
        ensures { result.now ≡ words_of self.entry.file.now plain.now (layout_by self.entry.layout) i j }
    {
        label_words::words(self.file, plain, self.layout, i, j)
    }
}
