#![tactic(auto)]

ghost use Rattle.std.specs.Prelude.{◌≡◌, ◌++◌, false, ℕ, suc, ◌+◌, ◌≤◌, ◌<◌, length, take, drop, replicate, eqb};
ghost use Rattle.format.specs.Slot.{fill};
ghost use Rattle.format.specs.Grammar.{text_at, text_slots, same_at, tag};
ghost use Rattle.refusal.specs.Refusals.{number_of, code_of};
ghost use Rattle.text.specs.Texts.{IsTextLength, has_zero};

use refusal::Refusal;

// Whether there is a zero among the `b` bytes at `p`. It looks at all of them: where `b` is a constant, they are compared at once.
fn has_zero(f: &[u8], p: usize, b: usize) -> bool
    requires { p + b ≤ length f.now }
    ensures { result ≡ has_zero b f.now p }
{
    let mut any = false;
    for k in 0..b {
        any |= f[p + k] == 0;
    }
    any
}

// Goes on from `s` in the field of `w` bytes at `p`, by blocks of `b` bytes, up to the first block that has a zero.
fn pass_blocks(f: &[u8], p: usize, w: usize, s: usize, b: usize) -> usize
    requires { (p + w ≤ length f.now) × (0 < b) × (s ≤ w) × (has_zero s f.now p ≡ false) }
    ensures { (result ≤ w) × (has_zero result f.now p ≡ false) }
{
    let mut m = s;
    while b <= w - m {
        if has_zero(f, p + m, b) {
            return m;
        }
        m += b;
    }
    m
}

// A part of the text at the start of the field of `w` bytes at `p`, all but fewer than eight bytes of it. A text of fewer is left whole.
fn pass_start(f: &[u8], p: usize, w: usize) -> usize
    requires { p + w ≤ length f.now }
    ensures { (result ≤ w) × (has_zero result f.now p ≡ false) }
{
    if w < 8 || has_zero(f, p, 8) {
        return 0;
    }
    let m = pass_blocks(f, p, w, 8, 32);
    pass_blocks(f, p, w, m, 8)
}

// The length of the text in the field of `w` bytes at `p`: it ends before the first zero, or at the field's end.
pub fn text_len(f: &[u8], p: usize, w: usize) -> usize
    requires { p + w ≤ length f.now }
    ensures { IsTextLength w f.now p result }
{
    for n in pass_start(f, p, w)..w {
        if f[p + n] == 0 {
            return n;
        }
    }
    w
}

// Whether there is a zero among the `n` bytes at `p`, by blocks of `b` bytes. The last block ends with them, and may overlap the one before.
fn zero_by(f: &[u8], p: usize, n: usize, b: usize) -> bool
    requires { (p + n ≤ length f.now) × (0 < b) × (b ≤ n) }
    ensures { result ≡ has_zero n f.now p }
{
    let e = n - b;
    let mut m: usize = 0;
    while m < e {
        if has_zero(f, p + m, b) {
            return true;
        }
        m += b;
    }
    has_zero(f, p + e, b)
}

// Whether there is a zero among the `n` bytes at `p`.
fn zero_in(f: &[u8], p: usize, n: usize) -> bool
    requires { p + n ≤ length f.now }
    ensures { result ≡ has_zero n f.now p }
{
    match n {
        0..=7 => has_zero(f, p, n),
        8..=31 => zero_by(f, p, n, 8),
        32..=63 => zero_by(f, p, n, 32),
        _ => zero_by(f, p, n, 64),
    }
}

// Whether the text in the field of `n` bytes at `p` is one byte shorter than the field: the last byte is a zero, and no other is.
pub fn zero_last(f: &[u8], p: usize, n: usize) -> bool
    requires { (p + n ≤ length f.now) × (0 < n) }
    ensures { result ≡ eqb (suc (length (text_at n f.now p))) n }
{
    let m = n - 1;
    let z = zero_in(f, p, m);
    (f[p + m] == 0) & !z
}

// Copies the `m` bytes of `f` at `p` to the start of `out`, by a loop, which needs nothing from outside (`copy_from_slice` is `memmove`).
pub fn put_bytes(out: &mut [u8], f: &[u8], p: usize, m: usize)
    requires { (p + m ≤ length f.now) × (m ≤ length out.old) }
    ensures { out.new ≡ take m (drop p f.now) ++ drop m out.old }
{
    for i in 0..m {
        out[i] = f[p + i];
    }
}

// Puts `m` zeros at the start of `out`.
pub fn put_zeros(out: &mut [u8], m: usize)
    requires { m ≤ length out.old }
    ensures { out.new ≡ replicate m 0 ++ drop m out.old }
{
    out[..m].fill(0);
}

// Copies the text in the field of `w` bytes at `p` into a field of `n` bytes at the start of `out`, with zeros after it.
pub fn put_text(out: &mut [u8], f: &[u8], p: usize, w: usize, n: usize)
    requires { (p + w ≤ length f.now) × (n ≤ length out.old) × (length (text_at w f.now p) ≤ n) }
    ensures { out.new ≡ fill (text_slots n (text_at w f.now p)) ++ drop n out.old }
{
    let m = text_len(f, p, w);
    put_bytes(&mut out[..], f, p, m);
    put_zeros(&mut out[m..], n - m);
}

// Whether the bytes of `t` stand at `p`: by a loop, which is inlined where `t` is a tag (`starts_with` is a call).
pub fn same_at(f: &[u8], p: usize, t: &[u8]) -> bool
    requires { p + length t.now ≤ length f.now }
    ensures { result ≡ same_at t.now f.now p }
{
    for k in 0..t.len() {
        if f[p + k] != t[k] {
            return false;
        }
    }
    true
}

// The refusal's number of the tag `t` at `p`: 3 where the file ends before the tag does, `c` where its bytes differ, else 0.
pub fn tag_at(f: &[u8], p: usize, t: &[u8], c: u8) -> u8
    requires { p ≤ length f.now }
    ensures { result ≡ (tag t.now c).judge f.now p }
{
    if f.len() - p < t.len() {
        return 3;
    }
    if same_at(f, p, t) { 0 } else { c }
}

// Whether the tag `t` stands at `p`: cut short where the file ends before the tag does, `refusal` where its bytes differ.
pub fn tag_or(f: &[u8], p: usize, t: &[u8], refusal: Refusal) -> Result<(), Refusal>
    requires { p ≤ length f.now }
    ensures { code_of result ≡ (tag t.now (number_of refusal)).judge f.now p }
{
    if f.len() - p < t.len() {
        return Err(Refusal::CutShort);
    }
    if same_at(f, p, t) {
        Ok(())
    } else {
        Err(refusal)
    }
}
