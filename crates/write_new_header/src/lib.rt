#![tactic(auto)]

ghost use Rattle.std.specs.Prelude.{◌≡◌, ◌+◌, ◌≤◌, length};
ghost use Rattle.format.specs.Slot.{fill};
ghost use Rattle.format.specs.Number.{order_by};
ghost use Rattle.format.specs.Edition.{digits};
ghost use Rattle.format.specs.Header.{new_header};
ghost use Rattle.writing.specs.Writes.{Puts};
ghost use Rattle.write_new_header.specs.Parts.{num_bytes, counted_bytes, tagged, order_bytes, start_bytes, count_bytes, text_bytes};

use editions::Edition;

// The three digits of an edition's number.
fn put_digits(out: &mut [u8], number: u8) -> usize
    requires { 3 ≤ length out.old }
    ensures { (result ≡ 3) × (Puts (digits number) out.old out.new result) }
{
    out[0] = 48 + number / 100;
    out[1] = 48 + number / 10 % 10;
    out[2] = 48 + number % 10;
    3
}

// The end of the edition's number, and the byte order between its tags.
fn put_order(out: &mut [u8], msf: bool) -> usize
    requires { 36 ≤ length out.old }
    ensures { (result ≡ 36) × (Puts (order_bytes (order_by msf)) out.old out.new result) }
{
    if msf {
        return writing::put_tag(&mut out[..], b"</release><byteorder>MSF</byteorder>", true);
    }
    writing::put_tag(&mut out[..], b"</release><byteorder>LSF</byteorder>", true)
}

// The tags of the start, with the edition's number, and the byte order between its tags.
fn put_start(out: &mut [u8], number: u8, msf: bool) -> usize
    requires { 67 ≤ length out.old }
    ensures { (result ≡ 67) × (Puts (start_bytes number (order_by msf)) out.old out.new result) }
{
    let a = writing::put_tag(&mut out[..], b"<stata_dta><header><release>", true);
    let b = a + put_digits(&mut out[a..], number);
    b + put_order(&mut out[b..], msf)
}

// The number `n` in `w` bytes between the tags `first` and `last`.
fn put_number_part(out: &mut [u8], first: &[u8], last: &[u8], n: u64, w: usize, msf: bool) -> usize
    requires { (w ≤ 8) × (length first.now + (w + length last.now) ≤ length out.old) }
    ensures { (result ≡ length first.now + (w + length last.now)) × (Puts (tagged first.now last.now (num_bytes (order_by msf) w n)) out.old out.new result) }
{
    let a = writing::put_tag(&mut out[..], first, true);
    number::put_number(&mut out[a..], n, w, msf);
    let b = a + w;
    b + writing::put_tag(&mut out[b..], last, true)
}

// K and N between their tags.
fn put_counts(out: &mut [u8], k: u64, n: u64, w: usize, msf: bool) -> usize
    requires { (w ≤ 8) × (16 + w ≤ length out.old) }
    ensures { (result ≡ 16 + w) × (Puts (count_bytes (order_by msf) w k n) out.old out.new result) }
{
    let a = put_number_part(&mut out[..], b"<K>", b"</K>", k, 2, msf);
    a + put_number_part(&mut out[a..], b"<N>", b"</N>", n, w, msf)
}

// The text `t`, with its length in `w` bytes before it.
fn put_counted(out: &mut [u8], t: &[u8], w: usize, msf: bool) -> usize
    requires { (w ≤ 8) × (w + length t.now ≤ length out.old) }
    ensures { (result ≡ w + length t.now) × (Puts (counted_bytes (order_by msf) w t.now) out.old out.new result) }
{
    let n = t.len();
    number::put_number(&mut out[..], n as u64, w, msf);
    text::put_bytes(&mut out[w..], t, 0, n);
    w + n
}

// The same between the tags `first` and `last`.
fn put_counted_part(
    out: &mut [u8],
    first: &[u8],
    last: &[u8],
    t: &[u8],
    w: usize,
    msf: bool,
) -> usize
    requires { (w ≤ 8) × (length first.now + (w + length t.now + length last.now) ≤ length out.old) }
    ensures { (result ≡ length first.now + (w + length t.now + length last.now)) × (Puts (tagged first.now last.now (counted_bytes (order_by msf) w t.now)) out.old out.new result) }
{
    let a = writing::put_tag(&mut out[..], first, true);
    let b = a + put_counted(&mut out[a..], t, w, msf);
    b + writing::put_tag(&mut out[b..], last, true)
}

// The label, whose length has `w` bytes, and the stamp between their tags, and </header>.
fn put_texts(out: &mut [u8], label: &[u8], stamp: &[u8], w: usize, msf: bool) -> usize
    requires { (w ≤ 8) × (48 + (w + (length label.now + length stamp.now)) ≤ length out.old) }
    ensures { (result ≡ 48 + (w + (length label.now + length stamp.now))) × (Puts (text_bytes (order_by msf) w label.now stamp.now) out.old out.new result) }
{
    let a = put_counted_part(&mut out[..], b"<label>", b"</label>", label, w, msf);
    a + put_counted_part(
        &mut out[a..],
        b"<timestamp>",
        b"</timestamp></header>",
        stamp,
        1,
        msf,
    )
}

// The header of a tagged edition.
pub fn put_new(
    out: &mut [u8],
    e: Edition,
    msf: bool,
    k: u64,
    n: u64,
    label: &[u8],
    stamp: &[u8],
) -> usize
    requires { (e.n_width ≤ 8) × (e.label_length ≤ 8) × (131 + (e.n_width + (e.label_length + (length label.now + length stamp.now))) ≤ length out.old) }
    ensures { Puts (fill ((new_header e.number (order_by msf) e.n_width e.label_length e.label_max).slots (k, (n, (label.now, stamp.now))))) out.old out.new result }
{
    let a = put_start(&mut out[..], e.number, msf);
    let b = a + put_counts(&mut out[a..], k, n, e.n_width, msf);
    b + put_texts(&mut out[b..], label, stamp, e.label_length, msf)
}
