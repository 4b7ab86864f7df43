#![tactic(auto)]

ghost use Rattle.std.specs.Prelude.{◌≡◌, ◌≤◌, length, true};
ghost use Rattle.format.specs.Edition.{opening};
ghost use Rattle.editions.specs.Editions.{numbers_of};
ghost use Rattle.questions.specs.Ask.{answer_of, is_date, ask_name, ask_format, ask_set, ask_var_label, ask_date};
ghost use Rattle.checking.specs.Checks.{layout_by};
ghost use Rattle.answers.specs.Answers.{part_by};
ghost use Rattle.text_facts.specs.Marks.{mark_by};
ghost use Rattle.text_facts.specs.Lists.{part_of, name_of, width_of, asked};

use answers::Part;
use checking::Layout;
use editions::Edition;
use refusal::Refusal;

// A list with a text of each variable.
#[derive(Clone, Copy)]
enum TextList {
    Names,
    Formats,
    SetNames,
    VarLabels,
}

impl TextList {
    // Which part of a layout it is.
    fn part(self) -> usize
        ensures { (result ≡ part_of self) × (result ≤ 7) }
    {
        match self {
            TextList::Names => 3,
            TextList::Formats => 5,
            TextList::SetNames => 6,
            TextList::VarLabels => 7,
        }
    }

    // How many bytes its first tag has.
    fn tag(self) -> u64
        ensures { result ≡ length (opening true (name_of self)) }
    {
        match self {
            TextList::Names => 10,
            TextList::Formats => 9,
            TextList::SetNames => 19,
            TextList::VarLabels => 17,
        }
    }

    // How many bytes a field has.
    fn width(self, e: Edition) -> usize
        ensures { result ≡ width_of self (numbers_of e) }
    {
        match self {
            TextList::Names | TextList::SetNames => e.name_width,
            TextList::Formats => e.format_width,
            TextList::VarLabels => e.var_label_width,
        }
    }
}

// The text of variable `i` in a list. It is inlined, so that a list that is a constant costs nothing.
#[inline(always)]
fn text(f: &[u8], l: Layout, i: u64, list: TextList) -> Result<Part, Refusal>
    ensures { result ≡ part_by (answer_of f.now (layout_by l) (asked list i)) }
{
    let o = answers::opened(reading::is_among(i, l.k), l.edition, l.order)?;
    let gap = reading::tag_size(o.e.tagged, list.tag());
    answers::text_field(
        f,
        l.places[list.part()],
        gap,
        reading::less(i, 1),
        list.width(o.e),
    )
}

// The name of variable `i`.
pub fn name(f: &[u8], l: Layout, i: u64) -> Result<Part, Refusal>
    ensures { result ≡ part_by (answer_of f.now (layout_by l) (ask_name i)) }
{
    text(f, l, i, TextList::Names)
}

// The display format of variable `i`.
pub fn format(f: &[u8], l: Layout, i: u64) -> Result<Part, Refusal>
    ensures { result ≡ part_by (answer_of f.now (layout_by l) (ask_format i)) }
{
    text(f, l, i, TextList::Formats)
}

// The label-set name of variable `i`.
pub fn set_name(f: &[u8], l: Layout, i: u64) -> Result<Part, Refusal>
    ensures { result ≡ part_by (answer_of f.now (layout_by l) (ask_set i)) }
{
    text(f, l, i, TextList::SetNames)
}

// The variable label of variable `i`.
pub fn var_label(f: &[u8], l: Layout, i: u64) -> Result<Part, Refusal>
    ensures { result ≡ part_by (answer_of f.now (layout_by l) (ask_var_label i)) }
{
    text(f, l, i, TextList::VarLabels)
}

// Whether a variable with this display format is a date variable: the format begins with %t.
fn is_date(t: &[u8]) -> bool
    ensures { result ≡ is_date t.now }
{
    t.starts_with(b"%t")
}

// Whether variable `i` is a date variable.
pub fn date_mark(f: &[u8], l: Layout, i: u64) -> Result<bool, Refusal>
    ensures { result ≡ mark_by (answer_of f.now (layout_by l) (ask_date i)) }
{
    let format = format(f, l, i)?;
    Ok(is_date(answers::part_of::<Refusal>(f, Ok(format))))
}
