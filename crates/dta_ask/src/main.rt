// Asks questions about files and writes a line for each answer. On standard input are records: twenty-one numbers of eight bytes, least significant
// byte first, and a file of at most 262,144 bytes. The numbers are the file's length, the eighteen of a layout, a variable and an observation. Each record is answered with a line for each question, in the order of `ask_all`.

#![tactic(auto)]

ghost use Rattle.std.specs.Prelude.{◌≤◌};

use answers::Part;
use cell::Cell;
use checking::Layout;
use codes::{Field, Kind};
use columns::Column;
use refusal::Refusal;
use std::io;
use std::io::{Read, Write};
use walks::Long;

// Writes a number and a space.
fn say_number<W: Write>(out: &mut W, n: u64) -> io::Result<()> {
    printing::say_decimal(out, n)?;
    printing::say(out, b" ")
}

// The line of a refusal.
fn refused<W: Write>(out: &mut W, refusal: Refusal) -> io::Result<()> {
    printing::say(out, b"refused ")?;
    printing::say_decimal(out, refusal.number() as u64)?;
    printing::say(out, b"\n")
}

// The line of a number.
fn number_line<W: Write>(out: &mut W, r: Result<u64, Refusal>) -> io::Result<()> {
    match r {
        Ok(n) => {
            printing::say_decimal(out, n)?;
            printing::say(out, b"\n")
        }
        Err(refusal) => refused(out, refusal),
    }
}

// The line of a yes or no.
fn mark_line<W: Write>(out: &mut W, r: Result<bool, Refusal>) -> io::Result<()> {
    match r {
        Ok(true) => printing::say(out, b"yes\n"),
        Ok(false) => printing::say(out, b"no\n"),
        Err(refusal) => refused(out, refusal),
    }
}

// Writes a type.
fn say_type<W: Write>(out: &mut W, field: Field) -> io::Result<()> {
    match field.kind {
        Kind::Text => {
            printing::say(out, b"text ")?;
            printing::say_decimal(out, field.width as u64)?;
        }
        Kind::StrL => printing::say(out, b"strL")?,
        Kind::Byte => printing::say(out, b"byte")?,
        Kind::Int => printing::say(out, b"int")?,
        Kind::Long => printing::say(out, b"long")?,
        Kind::Float => printing::say(out, b"float")?,
        Kind::Double => printing::say(out, b"double")?,
        Kind::Unknown => printing::say(out, b"unknown")?,
    }
    Ok(())
}

// The line of a type.
fn type_line<W: Write>(out: &mut W, r: Result<Field, Refusal>) -> io::Result<()> {
    match r {
        Ok(field) => {
            say_type(out, field)?;
            printing::say(out, b"\n")
        }
        Err(refusal) => refused(out, refusal),
    }
}

// Writes a part of the file: place, length and bytes.
fn say_part<W: Write>(out: &mut W, f: &[u8], part: Part) -> io::Result<()> {
    say_number(out, part.at)?;
    say_number(out, part.len)?;
    printing::say(out, answers::part_of::<Refusal>(f, Ok(part)))
}

// The line of a part of the file.
fn part_line<W: Write>(out: &mut W, f: &[u8], r: Result<Part, Refusal>) -> io::Result<()> {
    match r {
        Ok(part) => {
            printing::say(out, b"text ")?;
            say_part(out, f, part)?;
            printing::say(out, b"\n")
        }
        Err(refusal) => refused(out, refusal),
    }
}

// The line of a column.
fn column_line<W: Write>(out: &mut W, r: Result<Column, Refusal>) -> io::Result<()> {
    match r {
        Ok(column) => {
            printing::say(out, b"column ")?;
            say_number(out, column.offset)?;
            say_number(out, column.row)?;
            say_type(out, column.field)?;
            printing::say(out, b"\n")
        }
        Err(refusal) => refused(out, refusal),
    }
}

// Writes what a cell says.
fn say_cell<W: Write>(out: &mut W, f: &[u8], c: Cell) -> io::Result<()> {
    match c {
        Cell::Whole(x) => {
            printing::say(out, b"whole ")?;
            printing::say_signed(out, x)?;
        }
        Cell::Single(x) => {
            printing::say(out, b"float ")?;
            printing::say_bits(out, std::num::f32_to_f64_with_nan(x))?;
        }
        Cell::Double(x) => {
            printing::say(out, b"double ")?;
            printing::say_bits(out, x)?;
        }
        Cell::Letter(k) => {
            printing::say(out, b"letter ")?;
            printing::say_decimal(out, k as u64)?;
        }
        Cell::Between => printing::say(out, b"between")?,
        Cell::Outside => printing::say(out, b"outside")?,
        Cell::Text(p, n) => {
            let part = Part {
                at: p as u64,
                len: n as u64,
            };
            printing::say(out, b"text ")?;
            say_part(out, f, part)?;
        }
        Cell::Reference(v, o) => {
            printing::say(out, b"link ")?;
            say_number(out, v)?;
            printing::say_decimal(out, o)?;
        }
    }
    Ok(())
}

// The line of a cell.
fn cell_line<W: Write>(out: &mut W, f: &[u8], r: Result<Cell, Refusal>) -> io::Result<()> {
    match r {
        Ok(cell) => {
            say_cell(out, f, cell)?;
            printing::say(out, b"\n")
        }
        Err(refusal) => refused(out, refusal),
    }
}

// The line of a long string.
fn long_line<W: Write>(out: &mut W, f: &[u8], r: Result<Long, Refusal>) -> io::Result<()> {
    match r {
        Ok(long) => {
            let part = Part {
                at: long.at,
                len: long.len,
            };
            printing::say(out, b"long ")?;
            say_number(out, long.kind as u64)?;
            say_part(out, f, part)?;
            printing::say(out, b"\n")
        }
        Err(refusal) => refused(out, refusal),
    }
}

// Writes where label words stand, or that the plain text is shown.
fn say_place<W: Write>(out: &mut W, words: Option<Part>) -> io::Result<()> {
    match words {
        Some(part) => {
            printing::say(out, b"file ")?;
            say_number(out, part.at)?;
            say_number(out, part.len)
        }
        None => printing::say(out, b"plain "),
    }
}

// The line of label words; the plain text is `plain`.
fn words_line<W: Write>(out: &mut W, f: &[u8], l: Layout, i: u64, j: u64) -> io::Result<()> {
    match label_words::label_words(f, l, i, j) {
        Ok(words) => {
            say_place(out, words)?;
            printing::say(out, label_words::words(f, b"plain", l, i, j))?;
            printing::say(out, b"\n")
        }
        Err(refusal) => refused(out, refusal),
    }
}

// The lines of the header facts.
fn ask_header<W: Write>(out: &mut W, f: &[u8], l: Layout) -> io::Result<()> {
    number_line(out, header_facts::edition(l))?;
    number_line(out, header_facts::order(l))?;
    number_line(out, header_facts::variables(l))?;
    number_line(out, header_facts::rows(l))?;
    part_line(out, f, header_facts::label(f, l))?;
    part_line(out, f, header_facts::stamp(f, l))
}

// The lines of a variable's facts.
fn ask_variable<W: Write>(out: &mut W, f: &[u8], l: Layout, i: u64) -> io::Result<()> {
    type_line(out, variable_facts::var_type(f, l, i))?;
    part_line(out, f, text_facts::name(f, l, i))?;
    part_line(out, f, text_facts::format(f, l, i))?;
    part_line(out, f, text_facts::set_name(f, l, i))?;
    part_line(out, f, text_facts::var_label(f, l, i))?;
    mark_line(out, text_facts::date_mark(f, l, i))?;
    number_line(out, variable_facts::sort_place(f, l, i))?;
    column_line(out, columns::column_of(f, l, i))
}

// The lines of a cell's facts.
fn ask_cell<W: Write>(out: &mut W, f: &[u8], l: Layout, i: u64, j: u64) -> io::Result<()> {
    cell_line(out, f, cells::cell_of(f, l, i, j))?;
    long_line(out, f, long_strings::long_string(f, l, i, j))?;
    words_line(out, f, l, i, j)
}

// The lines of all questions.
fn ask_all<W: Write>(out: &mut W, f: &[u8], l: Layout, i: u64, j: u64) -> io::Result<()> {
    ask_header(out, f, l)?;
    ask_variable(out, f, l, i)?;
    ask_cell(out, f, l, i, j)
}

// Number `k` of a record.
fn number_of(head: &[u8], k: usize) -> u64 {
    if k < 21 && 168 <= head.len() {
        number::number(head, 8 * k, 8, false)
    } else {
        0
    }
}

// The layout of a record.
fn layout_of(head: &[u8]) -> Layout {
    let mut places = [0u64; 14];
    for k in 0..14 {
        places[k] = number_of(head, 5 + k);
    }
    Layout {
        edition: number_of(head, 1),
        order: number_of(head, 2),
        k: number_of(head, 3),
        n: number_of(head, 4),
        places,
    }
}

// How many bytes a file of `n` bytes has room for.
fn room_for(n: u64, room: usize) -> usize
    ensures { result ≤ room }
{
    if n <= room as u64 { n as usize } else { room }
}

// Reads the file of a record and answers it.
fn answer<R: Read, W: Write>(
    input: &mut R,
    out: &mut W,
    file: &mut [u8],
    head: &[u8],
) -> io::Result<()> {
    let n = room_for(number_of(head, 0), file.len());
    printing::read_full(input, &mut file[0..n])?;
    ask_all(
        out,
        &file[0..n],
        layout_of(head),
        number_of(head, 19),
        number_of(head, 20),
    )
}

// Answers the records, at most a billion.
fn main(rt: HostRuntime) -> io::Result<()> {
    let mut input = rt.stdin();
    let mut out = rt.stdout();
    let mut file = [0u8; 262144];
    let mut head = [0u8; 168];
    for _ in 0..1_000_000_000u64 {
        if printing::read_full(&mut input, &mut head)? < 168 {
            return Ok(());
        }
        answer(&mut input, &mut out, &mut file, &head)?;
    }
    Ok(())
}
