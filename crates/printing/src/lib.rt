// What programs write on standard output, and how they read standard input.

#![tactic(auto)]

ghost use Rattle.std.specs.Prelude.{◌≤◌, IfOk, OnOk, length};
ghost use Rattle.std.specs.Io.KnownBytes.{Appends};

use std::io;
use std::io::{ErrorKind, Read, Write};

// Writes a text.
pub fn say<W: Write>(out: &mut W, t: &[u8]) -> io::Result<()>
    ensures { OnOk result (Appends (W.contents out.old) (W.contents out.new) t.now) }
{
    out.write_all(t)
}

// Writes a number in decimal.
pub fn say_decimal<W: Write>(out: &mut W, n: u64) -> io::Result<()> {
    write!(out, "{n}")
}

// Writes a byte as two hexadecimal digits.
pub fn say_hex<W: Write>(out: &mut W, x: u8) -> io::Result<()> {
    write!(out, "{x:02x}")
}

// Writes a signed number in decimal.
pub fn say_signed<W: Write>(out: &mut W, x: i32) -> io::Result<()> {
    write!(out, "{x}")
}

// Writes the bits of a double in hexadecimal; nothing for a NaN.
pub fn say_bits<W: Write>(out: &mut W, x: f64) -> io::Result<()> {
    if x == x {
        let bits = x.to_bits();
        write!(out, "{bits:016x}")?;
    }
    Ok(())
}

// Reads until `buf` is full or the input ends, and returns how many bytes came.
pub fn read_full<R: Read>(input: &mut R, buf: &mut [u8]) -> io::Result<usize>
    ensures { IfOk result (λ n. n ≤ length buf.new) }
{
    let mut done = 0;
    for _ in 0..u64::MAX {
        if buf.len() <= done {
            return Ok(done);
        }
        match input.read(&mut buf[done..]) {
            Ok(0) => return Ok(done),
            Ok(n) => done += n,
            Err(e) => {
                if e.kind() != ErrorKind::Interrupted {
                    return Err(e);
                }
            }
        }
    }
    Ok(done)
}
