#![tactic(auto)]

ghost use Rattle.std.specs.Prelude.{◌≤◌, length};
ghost use Rattle.format.specs.Slot.{fill};
ghost use Rattle.format.specs.Number.{order_by};
ghost use Rattle.format.specs.Header.{header};
ghost use Rattle.editions.specs.Editions.{numbers_of};
ghost use Rattle.writing.specs.Writes.{Puts};
ghost use Rattle.write_header.specs.Parts.{HeaderSize};

use editions::Edition;

// How many bytes the header of the edition `e` has, with a label of `llen` bytes and a stamp of `slen`.
pub fn header_size(e: Edition, llen: usize, slen: usize) -> usize
    requires { (e.n_width ≤ 8) × (e.label_length ≤ 8) × (e.label_max ≤ 65535) × (llen ≤ 65535) × (slen ≤ 17) }
    ensures { HeaderSize e llen slen result }
{
    if e.tagged {
        return 131 + (e.n_width + (e.label_length + (llen + slen)));
    }
    25 + (e.n_width + e.label_max)
}

// The header of the edition `e` with K = `k` and N = `n`, the label and the stamp.
pub fn put_header(
    out: &mut [u8],
    e: Edition,
    msf: bool,
    k: u64,
    n: u64,
    label: &[u8],
    stamp: &[u8],
) -> usize
    requires { (length label.now ≤ e.label_max) × (length stamp.now ≤ 17) × (e.n_width ≤ 8) × (e.label_length ≤ 8) × (e.label_max ≤ 65535) × ((header (numbers_of e) (order_by msf)).size (k, (n, (label.now, stamp.now))) ≤ length out.old) }
    ensures { Puts (fill ((header (numbers_of e) (order_by msf)).slots (k, (n, (label.now, stamp.now))))) out.old out.new result }
{
    if e.tagged {
        return write_new_header::put_new(out, e, msf, k, n, label, stamp);
    }
    write_old_header::put_old(out, e, msf, k, n, label, stamp)
}
