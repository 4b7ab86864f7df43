#![tactic(auto)]

ghost use Rattle.std.specs.Prelude.{◌≡◌, true, ◌+◌, ◌*◌, ◌≤◌, length};
ghost use Rattle.format.specs.Slot.{fill};
ghost use Rattle.format.specs.Number.{order_by};
ghost use Rattle.format.specs.Grammar.{text, read_times, all_slots, ended_at, ended_slots};
ghost use Rattle.format.specs.Dta.{all_shorter};
ghost use Rattle.writing.specs.Writes.{Puts};

// Whether the `k` text fields of `w` bytes at `p` hold texts shorter than `to`.
pub fn texts_held(f: &[u8], p: usize, k: usize, w: usize, to: usize) -> bool
    requires { p + k * w ≤ length f.now }
    ensures { result ≡ all_shorter to (read_times (text w 7) k f.now p) }
{
    for i in 0..k {
        if to <= text::text_len(f, p + i * w, w) {
            return false;
        }
    }
    true
}

// Puts the texts of the `k` fields of `w` bytes at `p` into fields of `to` bytes; gives how many bytes.
pub fn put_texts(out: &mut [u8], f: &[u8], p: usize, k: usize, w: usize, to: usize) -> usize
    requires { (p + k * w ≤ length f.now) × (k * to ≤ length out.old) × (all_shorter to (read_times (text w 7) k f.now p) ≡ true) }
    ensures { Puts (fill (all_slots (text to 7) (read_times (text w 7) k f.now p))) out.old out.new result }
{
    for i in 0..k {
        text::put_text(&mut out[i * to..], f, p + i * w, w, to);
    }
    k * to
}

// Puts the `n` numbers of 2 bytes at `p`, up to the first zero, in another byte order, with zeros after them; gives how many bytes.
pub fn put_sort(out: &mut [u8], f: &[u8], p: usize, n: usize, msf: bool, to: bool) -> usize
    requires { (p + n * 2 ≤ length f.now) × (n * 2 ≤ length out.old) }
    ensures { Puts (fill (ended_slots (order_by to) 2 n (ended_at (order_by msf) 2 n f.now p))) out.old out.new result }
{
    for i in 0..n {
        let x = number::number(f, p + i * 2, 2, msf);
        if x == 0 {
            text::put_zeros(&mut out[i * 2..], (n - i) * 2);
            return n * 2;
        }
        number::put_number(&mut out[i * 2..], x, 2, to);
    }
    n * 2
}
