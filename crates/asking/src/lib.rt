// Every question of document 01 over any file and any layout, in one function.

#![tactic(auto)]

ghost use Rattle.std.specs.Prelude.{◌≡◌};
ghost use Rattle.checking.specs.Checks.{layout_by};
ghost use Rattle.asking.specs.Asking.{Asked, by_number, by_part, by_mark, by_type, by_cell, by_long, by_words};

use answers::Part;
use cell::Cell;
use checking::Layout;
use codes::{Field, Kind};
use refusal::Refusal;
use walks::Long;

// A question: of the header; of a variable, counted from 1; of a cell, by variable and observation.
#[derive(Clone, Copy)]
pub enum Question {
    Edition,
    Order,
    Variables,
    Rows,
    Label,
    Stamp,
    Type(u64),
    Name(u64),
    Format(u64),
    Set(u64),
    VarLabel(u64),
    Date(u64),
    Sort(u64),
    Content(u64, u64),
    LongString(u64, u64),
    LabelWords(u64, u64),
}

// An answer: a refusal; a number; yes or no; a type by kind and width; a part of the file by place and length; what a cell
// says; the lent plain text; a long string by kind, place and length.
#[derive(Clone, Copy)]
pub enum Answer {
    Refused(Refusal),
    Count(u64),
    YesNo(bool),
    Type(Kind, usize),
    Part(u64, u64),
    Content(Cell),
    Plain,
    LongString(u8, u64, u64),
}

fn by_number(r: Result<u64, Refusal>) -> Answer
    ensures { result ≡ by_number r }
{
    match r {
        Ok(n) => Answer::Count(n),
        Err(refusal) => Answer::Refused(refusal),
    }
}

fn by_part(r: Result<Part, Refusal>) -> Answer
    ensures { result ≡ by_part r }
{
    match r {
        Ok(part) => Answer::Part(part.at, part.len),
        Err(refusal) => Answer::Refused(refusal),
    }
}

fn by_mark(r: Result<bool, Refusal>) -> Answer
    ensures { result ≡ by_mark r }
{
    match r {
        Ok(yes) => Answer::YesNo(yes),
        Err(refusal) => Answer::Refused(refusal),
    }
}

fn by_type(r: Result<Field, Refusal>) -> Answer
    ensures { result ≡ by_type r }
{
    match r {
        Ok(field) => Answer::Type(field.kind, field.width),
        Err(refusal) => Answer::Refused(refusal),
    }
}

pub fn by_cell(said: Result<Cell, Refusal>) -> Answer
    ensures { result ≡ by_cell said }
{
    match said {
        Ok(cell) => Answer::Content(cell),
        Err(refusal) => Answer::Refused(refusal),
    }
}

fn by_long(r: Result<Long, Refusal>) -> Answer
    ensures { result ≡ by_long r }
{
    match r {
        Ok(long) => Answer::LongString(long.kind, long.at, long.len),
        Err(refusal) => Answer::Refused(refusal),
    }
}

pub fn by_words(r: Result<Option<Part>, Refusal>) -> Answer
    ensures { result ≡ by_words r }
{
    match r {
        Ok(Some(part)) => Answer::Part(part.at, part.len),
        Ok(None) => Answer::Plain,
        Err(refusal) => Answer::Refused(refusal),
    }
}

// The answer to a question over a file and a layout, right or wrong.
pub fn ask(f: &[u8], l: Layout, q: Question) -> Answer
    ensures { Asked f.now (layout_by l) q result }
{
    match q {
        Question::Edition => by_number(header_facts::edition(l)),
        Question::Order => by_number(header_facts::order(l)),
        Question::Variables => by_number(header_facts::variables(l)),
        Question::Rows => by_number(header_facts::rows(l)),
        Question::Label => by_part(header_facts::label(f, l)),
        Question::Stamp => by_part(header_facts::stamp(f, l)),
        Question::Type(i) => by_type(variable_facts::var_type(f, l, i)),
        Question::Name(i) => by_part(text_facts::name(f, l, i)),
        Question::Format(i) => by_part(text_facts::format(f, l, i)),
        Question::Set(i) => by_part(text_facts::set_name(f, l, i)),
        Question::VarLabel(i) => by_part(text_facts::var_label(f, l, i)),
        Question::Date(i) => by_mark(text_facts::date_mark(f, l, i)),
        Question::Sort(i) => by_number(variable_facts::sort_place(f, l, i)),
        Question::Content(i, j) => by_cell(cells::cell_of(f, l, i, j)),
        Question::LongString(i, j) => by_long(long_strings::long_string(f, l, i, j)),
        Question::LabelWords(i, j) => by_words(label_words::label_words(f, l, i, j)),
    }
}
