#![tactic(auto)]

ghost use Rattle.std.specs.Prelude.{◌≡◌, ◌++◌, ◌+◌, ◌≤◌, length};
ghost use Rattle.format.specs.Slot.{fill};
ghost use Rattle.format.specs.Number.{order_by};
ghost use Rattle.format.specs.Grammar.{text_slots};
ghost use Rattle.format.specs.Edition.{order_mark};
ghost use Rattle.format.specs.Header.{old_header};
ghost use Rattle.writing.specs.Writes.{Puts};
ghost use Rattle.write_old_header.specs.Parts.{num_bytes, old_marks};

use editions::Edition;

// The byte that tells the byte order.
fn order_mark(msf: bool) -> u8
    ensures { result ≡ order_mark (order_by msf) }
{
    if msf { 1 } else { 2 }
}

// The edition's number, the byte order, the file type 1 and the unused byte.
fn put_marks(out: &mut [u8], number: u8, msf: bool) -> usize
    requires { 4 ≤ length out.old }
    ensures { (result ≡ 4) × (Puts (old_marks number (order_by msf)) out.old out.new result) }
{
    out[0] = number;
    out[1] = order_mark(msf);
    out[2] = 1;
    out[3] = 1;
    4
}

// The text `t` in a field of `w` bytes, with zeros after it.
fn put_padded(out: &mut [u8], t: &[u8], w: usize) -> usize
    requires { (length t.now ≤ w) × (w ≤ length out.old) }
    ensures { (result ≡ w) × (Puts (fill (text_slots w t.now)) out.old out.new result) }
{
    let n = t.len();
    text::put_bytes(&mut out[..], t, 0, n);
    text::put_zeros(&mut out[n..], w - n);
    w
}

// Those, then K in 2 bytes and N in `w`.
fn put_old_counts(out: &mut [u8], number: u8, msf: bool, k: u64, n: u64, w: usize) -> usize
    requires { (w ≤ 8) × (6 + w ≤ length out.old) }
    ensures { (result ≡ 6 + w) × (Puts (old_marks number (order_by msf) ++ (num_bytes (order_by msf) 2 k ++ num_bytes (order_by msf) w n)) out.old out.new result) }
{
    let a = put_marks(&mut out[..], number, msf);
    number::put_number(&mut out[a..], k, 2, msf);
    let b = a + 2;
    number::put_number(&mut out[b..], n, w, msf);
    b + w
}

// The label in a field of `w` bytes, and the stamp with the zero after it.
fn put_old_texts(out: &mut [u8], label: &[u8], stamp: &[u8], w: usize) -> usize
    requires { (length label.now ≤ w) × (length stamp.now ≤ 17) × (w + 18 ≤ length out.old) }
    ensures { (result ≡ w + 18) × (Puts (fill (text_slots w label.now) ++ fill (text_slots 18 stamp.now)) out.old out.new result) }
{
    let a = put_padded(&mut out[..], label, w);
    a + put_padded(&mut out[a..], stamp, 18)
}

// The header of an untagged edition.
pub fn put_old(
    out: &mut [u8],
    e: Edition,
    msf: bool,
    k: u64,
    n: u64,
    label: &[u8],
    stamp: &[u8],
) -> usize
    requires { (length label.now ≤ e.label_max) × (length stamp.now ≤ 17) × (e.n_width ≤ 8) × (25 + (e.n_width + e.label_max) ≤ length out.old) }
    ensures { Puts (fill ((old_header e.number (order_by msf) e.n_width e.label_max).slots (k, (n, (label.now, stamp.now))))) out.old out.new result }
{
    let a = put_old_counts(&mut out[..], e.number, msf, k, n, e.n_width);
    a + put_old_texts(&mut out[a..], label, stamp, e.label_max + 1)
}
