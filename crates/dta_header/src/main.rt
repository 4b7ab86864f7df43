// Reads a .dta file of at most 65,536 bytes from standard input and writes one line: edition, byte order, K, N and length, or its refusal.

#![tactic(auto)]

use checking::Layout;
use std::io;
use std::io::Write;

// Writes the byte order.
fn say_order<W: Write>(out: &mut W, order: u64) -> io::Result<()> {
    if order == 1 {
        printing::say(out, b" MSF ")?;
    } else {
        printing::say(out, b" LSF ")?;
    }
    Ok(())
}

// Writes the line of an accepted file of `n` bytes.
fn say_layout<W: Write>(out: &mut W, l: Layout, n: usize) -> io::Result<()> {
    printing::say_decimal(out, l.edition)?;
    say_order(out, l.order)?;
    printing::say_decimal(out, l.k)?;
    printing::say(out, b" ")?;
    printing::say_decimal(out, l.n)?;
    printing::say(out, b" ")?;
    printing::say_decimal(out, n as u64)?;
    printing::say(out, b"\n")
}

// Writes the line of a file.
fn say_file<W: Write>(out: &mut W, f: &[u8]) -> io::Result<()> {
    match checking::check(f) {
        Ok(layout) => say_layout(out, layout, f.len()),
        Err(refusal) => {
            printing::say(out, b"refused ")?;
            printing::say_decimal(out, refusal.number() as u64)?;
            printing::say(out, b"\n")
        }
    }
}

fn main(rt: HostRuntime) -> io::Result<()> {
    let mut input = rt.stdin();
    let mut out = rt.stdout();
    let mut file = [0u8; 65536];
    let n = printing::read_full(&mut input, &mut file)?;
    let mut more = [0u8; 1];
    let m = printing::read_full(&mut input, &mut more)?;
    if m == 0 {
        say_file(&mut out, &file[..n])
    } else {
        printing::say(&mut out, b"too long\n")
    }
}
