// Runs vectors through the functions that read cells, type codes and label tables, and writes a line for each. The vectors are on standard
// input (tools/vectors.py writes them): rows of 34 bytes, of which the first tells what the row has.

#![tactic(auto)]

ghost use Rattle.std.specs.Prelude.{◌<◌};
ghost use Rattle.cell.specs.Cells.{Lettered, says};

use cell::Cell;
use codes::{Field, Kind};
use search::Slot;
use std::io;
use std::io::Write;

// Writes the byte order.
fn say_order<W: Write>(out: &mut W, msf: bool) -> io::Result<()> {
    printing::say(out, if msf { b" MSF " } else { b" LSF " })
}

// Writes bytes in hexadecimal.
fn say_bytes<W: Write>(out: &mut W, t: &[u8]) -> io::Result<()> {
    for &x in t {
        printing::say_hex(out, x)?;
    }
    Ok(())
}

// Writes a float or double by the bits of a double with its value.
fn say_double<W: Write>(out: &mut W, x: f64) -> io::Result<()> {
    printing::say(out, b"number ")?;
    printing::say_bits(out, x)
}

// Writes the letter of a missing value: `.`, or `.a` to `.z`.
fn say_letter<W: Write>(out: &mut W, k: u8) -> io::Result<()> {
    printing::say(out, b"letter .")?;
    if 0 < k && k <= 26 {
        printing::say(out, &[96 + k])?;
    }
    Ok(())
}

// Writes what a cell says.
fn say_cell<W: Write>(out: &mut W, c: Cell) -> io::Result<()> {
    match c {
        Cell::Whole(x) => {
            printing::say(out, b"number ")?;
            printing::say_signed(out, x)
        }
        Cell::Single(x) => say_double(out, std::num::f32_to_f64_with_nan(x)),
        Cell::Double(x) => say_double(out, x),
        Cell::Letter(k) => say_letter(out, k),
        Cell::Between => printing::say(out, b"between"),
        Cell::Outside => printing::say(out, b"outside"),
        Cell::Text(_, _) => printing::say(out, b"text"),
        Cell::Reference(_, _) => printing::say(out, b"reference"),
    }
}

// Writes what a cell says and what it seeks.
fn say_both<W: Write>(out: &mut W, c: Cell) -> io::Result<()>
    requires { Lettered (says c) }
{
    printing::say(out, b" ")?;
    say_cell(out, c)?;
    printing::say(out, b" seeks ")?;
    match cell::key_of(c) {
        Some(q) => printing::say_signed(out, q)?,
        None => printing::say(out, b"nothing")?,
    }
    printing::say(out, b"\n")
}

// Writes the name of a kind.
fn say_kind<W: Write>(out: &mut W, kind: Kind) -> io::Result<()> {
    match kind {
        Kind::Text => printing::say(out, b"text"),
        Kind::StrL => printing::say(out, b"strL"),
        Kind::Byte => printing::say(out, b"byte"),
        Kind::Int => printing::say(out, b"int"),
        Kind::Long => printing::say(out, b"long"),
        Kind::Float => printing::say(out, b"float"),
        Kind::Double => printing::say(out, b"double"),
        Kind::Unknown => printing::say(out, b"unknown"),
    }
}

// Two bytes as a number.
fn two(a: u8, b: u8) -> u16 {
    a as u16 * 256 + b as u16
}

// The line of a cell: a row has 1 for MSF, 117's type code, and eight bytes.
fn cell_line<W: Write>(out: &mut W, row: &[u8]) -> io::Result<()> {
    if row.len() < 11 {
        return Ok(());
    }
    let msf = row[0] == 1;
    let field = codes::field_of(true, two(row[1], row[2]));
    let kind = field.kind;
    say_kind(out, kind)?;
    say_order(out, msf)?;
    match kind {
        Kind::Byte => {
            say_bytes(out, &row[3..4])?;
            say_both(out, cell::cell_at(row, 3, Kind::Byte, 1, 4, 4, msf))
        }
        Kind::Int => {
            say_bytes(out, &row[3..5])?;
            say_both(out, cell::cell_at(row, 3, Kind::Int, 2, 4, 4, msf))
        }
        Kind::Long => {
            say_bytes(out, &row[3..7])?;
            say_both(out, cell::cell_at(row, 3, Kind::Long, 4, 4, 4, msf))
        }
        Kind::Float => {
            say_bytes(out, &row[3..7])?;
            say_both(out, cell::cell_at(row, 3, Kind::Float, 4, 4, 4, msf))
        }
        Kind::Double => {
            say_bytes(out, &row[3..11])?;
            say_both(out, cell::cell_at(row, 3, Kind::Double, 8, 4, 4, msf))
        }
        Kind::Text | Kind::StrL | Kind::Unknown => printing::say(out, b"\n"),
    }
}

// The line of a type code: a row has 1 for a tagged edition, and the code.
fn code_line<W: Write>(out: &mut W, row: &[u8]) -> io::Result<()> {
    if row.len() < 3 {
        return Ok(());
    }
    let tagged = row[0] == 1;
    let code = two(row[1], row[2]);
    let Field { kind, width } = codes::field_of(tagged, code);
    printing::say(out, if tagged { b"117 type " } else { b"114 type " })?;
    printing::say_decimal(out, code as u64)?;
    printing::say(out, b" ")?;
    say_kind(out, kind)?;
    printing::say(out, b" ")?;
    printing::say_decimal(out, width as u64)?;
    printing::say(out, b"\n")
}

// The value sought, by the byte that is one more.
fn sought_by(x: u8) -> i32 {
    match x {
        0 => -1,
        1 => 0,
        2 => 1,
        3 => 2,
        _ => 3,
    }
}

// The line of a search: a row has 1 for MSF, one more than the value sought, and a table of two entries, whose values are at 16.
fn search_line<W: Write>(out: &mut W, row: &[u8]) -> io::Result<()> {
    if row.len() < 33 {
        return Ok(());
    }
    let msf = row[0] == 1;
    let sought = sought_by(row[1]);
    printing::say(out, b"table")?;
    say_order(out, msf)?;
    say_bytes(out, &row[2..33])?;
    printing::say(out, b" seeks ")?;
    printing::say_signed(out, sought)?;
    match search::find_value(row, 18, 33, 2, msf, sought) {
        Slot::Found(k) => {
            printing::say(out, b" slot ")?;
            printing::say_decimal(out, k as u64)?;
        }
        Slot::Missing => {
            printing::say(out, b" not found")?;
        }
        Slot::Lost => {
            printing::say(out, b" lost")?;
        }
    }
    printing::say(out, b"\n")
}

// The line of a row.
fn line<W: Write>(out: &mut W, row: &[u8]) -> io::Result<()> {
    if row.len() < 34 {
        return Ok(());
    }
    let rest = &row[1..34];
    match row[0] {
        0 => cell_line(out, rest),
        1 => code_line(out, rest),
        2 => search_line(out, rest),
        _ => Ok(()),
    }
}

// The lines of rows.
fn lines<W: Write>(out: &mut W, rows: &[u8]) -> io::Result<()> {
    for row in rows.chunks_exact(34) {
        line(out, row)?;
    }
    Ok(())
}

fn main(rt: HostRuntime) -> io::Result<()> {
    let mut rows = [0u8; 65536];
    let n = printing::read_full(&mut rt.stdin(), &mut rows)?;
    lines(&mut rt.stdout(), &rows[..n])
}
