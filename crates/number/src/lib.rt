#![tactic(auto)]

ghost use Rattle.std.specs.Prelude.{◌≡◌, ◌+◌, ◌<◌, ◌≤◌, cond, ◌++◌, length, drop};
ghost use Rattle.format.specs.Slot.{fill};
ghost use Rattle.format.specs.Number.{lsf, order_by, seat, digit, num_slots};
ghost use Rattle.number.specs.Numbers.{IsNumber, swapped};

// Where digit `k` of a number of `w` bytes stands, digits being counted from the most significant one.
fn seat_of(msf: bool, w: usize, k: usize) -> usize
    requires { k < w }
    ensures { (result ≡ seat (order_by msf) w k) × (result < w) }
{
    if msf { k } else { w - (k + 1) }
}

// Digit `k`, counted from the most significant one, of `n` as a number of `w` bytes.
fn digit_of(n: u64, w: usize, k: usize) -> u8
    requires { (k < w) × (w ≤ 8) }
    ensures { result ≡ digit w n k }
{
    ((n >> (8 * (w - (k + 1)))) % 256) as u8
}

// The number of `w` bytes at `p`, byte by byte.
fn number_any(f: &[u8], p: usize, w: usize, msf: bool) -> u64
    requires { (p + w ≤ length f.now) × (w ≤ 8) }
    ensures { IsNumber (order_by msf) w f.now p result }
{
    let mut n: u64 = 0;
    for k in 0..w {
        n = n * 256 + f[p + seat_of(msf, w, k)] as u64;
    }
    n
}

// `n` with its `W` bytes in the other order.
fn swapped<const W: usize>(n: u64) -> u64
    requires { W ≤ 8 }
    ensures { result ≡ swapped W n }
{
    let mut other: u64 = 0;
    for k in 0..W {
        other = other * 256 + digit_of(n, W, seat_of(false, W, k)) as u64;
    }
    other
}

// `n`, or `n` with its `W` bytes in the other order where `msf`.
fn ordered<const W: usize>(n: u64, msf: bool) -> u64
    requires { W ≤ 8 }
    ensures { result ≡ cond msf (swapped W n) n }
{
    let other = swapped::<W>(n);
    if msf { other } else { n }
}

// The number of `W` bytes at `p`, least significant byte first: where the width is a constant, its bytes are loaded at once.
fn little<const W: usize>(f: &[u8], p: usize) -> u64
    requires { (p + W ≤ length f.now) × (W ≤ 8) }
    ensures { IsNumber lsf W f.now p result }
{
    number_any(f, p, W, false)
}

// The same of 6 bytes, by their two parts: two loads, where a run of six bytes takes three.
fn little_6(f: &[u8], p: usize) -> u64
    requires { p + 6 ≤ length f.now }
    ensures { IsNumber lsf 6 f.now p result }
{
    little::<4>(f, p + 2) * 65536 + little::<2>(f, p)
}

// The number of `W` bytes at `p`.
fn number_of<const W: usize>(f: &[u8], p: usize, msf: bool) -> u64
    requires { (p + W ≤ length f.now) × (W ≤ 8) }
    ensures { IsNumber (order_by msf) W f.now p result }
{
    ordered::<W>(little::<W>(f, p), msf)
}

// The number of `w` bytes at `p`, most significant byte first where `msf`, else last. It is inlined, so that a width that is a constant is one load.
#[inline(always)]
pub fn number(f: &[u8], p: usize, w: usize, msf: bool) -> u64
    requires { (p + w ≤ length f.now) × (w ≤ 8) }
    ensures { IsNumber (order_by msf) w f.now p result }
{
    match w {
        1 => number_of::<1>(f, p, msf),
        2 => number_of::<2>(f, p, msf),
        4 => number_of::<4>(f, p, msf),
        6 => ordered::<6>(little_6(f, p), msf),
        8 => number_of::<8>(f, p, msf),
        _ => number_any(f, p, w, msf),
    }
}

// The number `n` in `w` bytes at the start of `out`, byte by byte.
fn put_any(out: &mut [u8], n: u64, w: usize, msf: bool)
    requires { (w ≤ 8) × (w ≤ length out.old) }
    ensures { out.new ≡ fill (num_slots (order_by msf) w n) ++ drop w out.old }
{
    for i in 0..w {
        out[i] = digit_of(n, w, seat_of(msf, w, i));
    }
}

// The number `n` in `W` bytes at the start of `out`, least significant byte first: where the width is a constant, its bytes are stored at once.
fn put_little<const W: usize>(out: &mut [u8], n: u64)
    requires { (W ≤ 8) × (W ≤ length out.old) }
    ensures { out.new ≡ fill (num_slots lsf W n) ++ drop W out.old }
{
    put_any(out, n, W, false)
}

// The number `n` in `W` bytes at the start of `out`.
fn put_of<const W: usize>(out: &mut [u8], n: u64, msf: bool)
    requires { (W ≤ 8) × (W ≤ length out.old) }
    ensures { out.new ≡ fill (num_slots (order_by msf) W n) ++ drop W out.old }
{
    put_little::<W>(out, ordered::<W>(n, msf))
}

// The number `n` in `w` bytes at the start of `out`, most significant byte first where `msf`, else last.
pub fn put_number(out: &mut [u8], n: u64, w: usize, msf: bool)
    requires { (w ≤ 8) × (w ≤ length out.old) }
    ensures { out.new ≡ fill (num_slots (order_by msf) w n) ++ drop w out.old }
{
    match w {
        1 => put_of::<1>(out, n, msf),
        2 => put_of::<2>(out, n, msf),
        4 => put_of::<4>(out, n, msf),
        6 => put_of::<6>(out, n, msf),
        8 => put_of::<8>(out, n, msf),
        _ => put_any(out, n, w, msf),
    }
}
