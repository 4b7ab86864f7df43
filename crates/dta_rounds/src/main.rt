// Rewrites files over and over. On standard input are records: a number of eight bytes, least significant byte first, and a file of so many bytes, at most
// 65,536. Three times around, the file is rewritten to each edition in each byte order, each time from the last result that was done. Each step is
// answered with a line: edition, byte order, number and length; and each file, at the end, with the checksum of the last result. A file that is not well
// formed gets its refusal alone.

#![tactic(auto)]

ghost use Rattle.std.specs.Prelude.{◌≤◌};

use std::io;
use std::io::{Read, Write};

// Writes a number and a space.
fn say_number<W: Write>(lines: &mut W, n: u64) -> io::Result<()> {
    printing::say_decimal(lines, n)?;
    printing::say(lines, b" ")
}

// Writes a byte order and a space.
fn say_order<W: Write>(lines: &mut W, order: u64) -> io::Result<()> {
    if order == 1 {
        printing::say(lines, b"MSF ")?;
    } else {
        printing::say(lines, b"LSF ")?;
    }
    Ok(())
}

// Writes a number that ends a line.
fn end_line<W: Write>(lines: &mut W, n: u64) -> io::Result<()> {
    printing::say_decimal(lines, n)?;
    printing::say(lines, b"\n")
}

// How many bytes of `n` there is room for.
fn room_for(n: u64, room: usize) -> usize
    ensures { result ≤ room }
{
    if n <= room as u64 { n as usize } else { room }
}

// Copies bytes, as far as there is room.
fn copy(from: &[u8], to: &mut [u8]) {
    let n = from.len().min(to.len());
    to[..n].copy_from_slice(&from[..n]);
}

// The checksum of the bytes: 31 times what it was and the next byte, in 32 bits.
fn checksum(f: &[u8]) -> u64 {
    let mut sum: u64 = 0;
    for byte in f {
        sum = (31 * sum + *byte as u64) % 4294967296;
    }
    sum
}

// The line of a step: edition, byte order, number and length.
fn step_line<W: Write>(
    lines: &mut W,
    edition: u64,
    order: u64,
    number: u8,
    len: u64,
) -> io::Result<()> {
    say_number(lines, edition)?;
    say_order(lines, order)?;
    say_number(lines, number as u64)?;
    end_line(lines, len)
}

// Rewrites the first `n` bytes of `file`, writes the line, and leaves the result in `file`; its length, or `n` where it is refused.
fn step<W: Write>(
    lines: &mut W,
    file: &mut [u8],
    out: &mut [u8],
    n: u64,
    edition: u64,
    order: u64,
) -> io::Result<u64> {
    let m = room_for(n, file.len());
    match rewriting::rewrite(&file[0..m], edition, order, out) {
        Ok(len) => {
            step_line(lines, edition, order, 0, len as u64)?;
            copy(&out[..len.min(out.len())], file);
            Ok(len as u64)
        }
        Err(refusal) => {
            step_line(lines, edition, order, refusal.number(), 0)?;
            Ok(n)
        }
    }
}

// To an edition, in both byte orders.
fn both_orders<W: Write>(
    lines: &mut W,
    file: &mut [u8],
    out: &mut [u8],
    n: u64,
    edition: u64,
) -> io::Result<u64> {
    let a = step(lines, file, out, n, edition, 1)?;
    step(lines, file, out, a, edition, 2)
}

// Once around.
fn round<W: Write>(lines: &mut W, file: &mut [u8], out: &mut [u8], n: u64) -> io::Result<u64> {
    let a = both_orders(lines, file, out, n, 113)?;
    let b = both_orders(lines, file, out, a, 114)?;
    let c = both_orders(lines, file, out, b, 115)?;
    let d = both_orders(lines, file, out, c, 117)?;
    both_orders(lines, file, out, d, 118)
}

// Answers a record: its file, of `n` bytes.
fn answer<R: Read, W: Write>(
    input: &mut R,
    lines: &mut W,
    file: &mut [u8],
    out: &mut [u8],
    n: u64,
) -> io::Result<()> {
    let m = room_for(n, file.len());
    printing::read_full(input, &mut file[0..m])?;
    if let Err(refusal) = checking::check(&file[0..m]) {
        printing::say(lines, b"refused ")?;
        return end_line(lines, refusal.number() as u64);
    }
    let a = round(lines, file, out, m as u64)?;
    let b = round(lines, file, out, a)?;
    let c = round(lines, file, out, b)?;
    let k = room_for(c, file.len());
    end_line(lines, checksum(&file[0..k]))
}

// The number at the start of a record.
fn number_of(head: &[u8]) -> u64 {
    if 8 <= head.len() {
        number::number(head, 0, 8, false)
    } else {
        0
    }
}

// Answers the records, at most a billion.
fn main(rt: HostRuntime) -> io::Result<()> {
    let mut input = rt.stdin();
    let mut lines = rt.stdout();
    let mut file = [0u8; 65536];
    let mut out = [0u8; 65536];
    let mut head = [0u8; 8];
    for _ in 0..1_000_000_000u64 {
        if printing::read_full(&mut input, &mut head)? < 8 {
            return Ok(());
        }
        answer(
            &mut input,
            &mut lines,
            &mut file,
            &mut out,
            number_of(&head),
        )?;
    }
    Ok(())
}
