#![tactic(auto)]

ghost use Rattle.std.specs.Prelude.{◌≡◌, cond, ◌+◌, ◌-◌, ◌*◌, ◌≤◌};
ghost use Rattle.format.specs.Number.{order_by};
ghost use Rattle.questions.specs.Ask.{among, order_in};
ghost use Rattle.reading.specs.Reads.{read_by, NumberRead, length_in, place_in, msf_by, opened_by, edition_in};

use editions::{Edition, Release};

// An edition's numbers and a byte order.
#[derive(Clone, Copy)]
pub struct Opened {
    pub msf: bool,
    pub e: Edition,
}

// The number of `w` bytes at `p`, most significant byte first where `msf`, else last. Like each reading, it is none where a byte that it needs
// is not in the file.
pub fn number_in(f: &[u8], p: u64, w: usize, msf: bool) -> Option<u64>
    requires { w ≤ 8 }
    ensures { NumberRead (order_by msf) w f.now p result }
{
    let q = p as usize;
    if f.len() < q || f.len() - q < w {
        return None;
    }
    Some(number::number(f, q, w, msf))
}

// The length of the text in the field of `w` bytes at `p`: only its bytes up to and with its first zero, or its whole width, are needed.
pub fn text_in(f: &[u8], p: u64, w: usize) -> Option<u64>
    ensures { result ≡ read_by (length_in w f.now p) }
{
    let q = p as usize;
    if f.len() < q {
        return None;
    }
    let m = w.min(f.len() - q);
    let n = text::text_len(f, q, m);
    if n == m && m < w {
        return None;
    }
    Some(n as u64)
}

// The place `start + gap + index * width`, where it is not past the end of the file.
pub fn place_in(f: &[u8], start: u64, gap: u64, index: u64, width: u64) -> Option<u64>
    ensures { result ≡ read_by (place_in f.now (start + gap + index * width)) }
{
    let first = start.checked_add(gap)?;
    let p = first.checked_add(index.checked_mul(width)?)?;
    if p <= f.len() as u64 { Some(p) } else { None }
}

// Whether the byte order `order` of a layout is most significant byte first.
fn msf_in(order: u64) -> Option<bool>
    ensures { result ≡ msf_by (order_in order) }
{
    match order {
        1 => Some(true),
        2 => Some(false),
        _ => None,
    }
}

// The edition `number` and the byte order `order` of a layout, where both are read.
pub fn edition_in(number: u64, order: u64) -> Option<Opened>
    ensures { result ≡ opened_by (edition_in number order) }
{
    let release = Release::by_number(number)?;
    Some(Opened {
        msf: msf_in(order)?,
        e: release.numbers(),
    })
}

// Whether `i` is one of 1..`k`.
pub fn is_among(i: u64, k: u64) -> bool
    ensures { result ≡ among i k }
{
    0 < i && i <= k
}

// How many bytes a tag of `n` bytes has in an edition that is tagged or not.
pub fn tag_size(tagged: bool, n: u64) -> u64
    ensures { result ≡ cond tagged n 0 }
{
    if tagged { n } else { 0 }
}

// `a - b`, 0 where `b` is greater.
pub fn less(a: u64, b: u64) -> u64
    ensures { (result ≡ a - b) × (a ≤ 18446744073709551615) }
{
    a.saturating_sub(b)
}
