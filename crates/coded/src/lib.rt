// Answers as numbers.

#![tactic(auto)]

ghost use Rattle.std.specs.Prelude.{◌≡◌, ◌++◌, true, ◌≤◌, length, drop, Ok};
ghost use Rattle.std.specs.Float.{binary32, binary64};
ghost use Rattle.format.specs.Variables.{code_of};
ghost use Rattle.codes.specs.Fields.{type_of};
ghost use Rattle.cell.specs.Cells.{says};
ghost use Rattle.questions.specs.Ask.{refused};
ghost use Rattle.coded.specs.Coded as Coded;
ghost use Rattle.coded.specs.Coded.{bits_in, cell_numbers, NumbersOf};

use asking::Answer;
use cell::Cell;
use codes::Kind;

// The bits of a float, 0 of a NaN. It and its twin stay two functions: no trait of the library says what `to_bits` of any float is.
fn single_bits(x: f32) -> u64
    ensures { result ≡ bits_in binary32 x }
{
    if x.is_nan() { 0 } else { x.to_bits() as u64 }
}

// The bits of a double, 0 of a NaN.
fn double_bits(x: f64) -> u64
    ensures { result ≡ bits_in binary64 x }
{
    if x.is_nan() { 0 } else { x.to_bits() }
}

// What a cell says: four numbers, of which the first tells what the others are. A whole number is its size, and 1 where it is negative.
fn cell_numbers(c: Cell) -> [u64; 4]
    ensures { result ≡ cell_numbers (says c) }
{
    match c {
        Cell::Whole(n) => [6, n.unsigned_abs() as u64, (n < 0) as u64, 0],
        Cell::Single(x) => [7, single_bits(x), 0, 0],
        Cell::Double(x) => [8, double_bits(x), 0, 0],
        Cell::Letter(k) => [9, k as u64, 0, 0],
        Cell::Between => [10, 0, 0, 0],
        Cell::Outside => [11, 0, 0, 0],
        Cell::Text(p, n) => [12, p as u64, n as u64, 0],
        Cell::Reference(v, o) => [13, v, o, 0],
    }
}

// The code of a type in a tagged edition.
fn type_code(kind: Kind, width: usize) -> u64
    ensures { result ≡ code_of true (type_of kind width) }
{
    match kind {
        Kind::Text => width as u64,
        Kind::StrL => 32768,
        Kind::Byte => 65530,
        Kind::Int => 65529,
        Kind::Long => 65528,
        Kind::Float => 65527,
        Kind::Double => 65526,
        Kind::Unknown => 0,
    }
}

// The numbers of a refusal with any number.
fn refused_numbers(number: u8) -> [u64; 4]
    ensures { result ≡ Coded.numbers_of (refused number) }
{
    [0, number as u64, 0, 0]
}

// The numbers of an answer.
pub fn answer_numbers(x: Answer) -> [u64; 4]
    ensures { NumbersOf (Ok x) result }
{
    match x {
        Answer::Refused(refusal) => refused_numbers(refusal.number()),
        Answer::Count(n) => [1, n, 0, 0],
        Answer::YesNo(b) => [2, b as u64, 0, 0],
        Answer::Type(k, w) => [3, type_code(k, w), 0, 0],
        Answer::Part(p, n) => [4, p, n, 0],
        Answer::Content(c) => cell_numbers(c),
        Answer::Plain => [5, 0, 0, 0],
        Answer::LongString(k, p, n) => [14, k as u64, p, n],
    }
}

// The numbers of an answer, or of a refusal with any number.
pub fn numbers_of(x: Result<Answer, u8>) -> [u64; 4]
    ensures { NumbersOf x result }
{
    match x {
        Ok(x) => answer_numbers(x),
        Err(number) => refused_numbers(number),
    }
}

// Stores four numbers at the start of `out`.
pub fn put_four(out: &mut [u64], x: [u64; 4])
    requires { 4 ≤ length out.old }
    ensures { out.new ≡ x ++ drop 4 out.old }
{
    out[..4].copy_from_slice(&x);
}
