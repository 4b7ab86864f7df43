// The sort order of a file, whole: a caller who wants it asks once, without a walk over the sort list for each variable.

#![tactic(auto)]

ghost use Rattle.std.specs.Prelude.{◌≡◌, ◌+◌, ◌*◌, ◌≤◌, length};
ghost use Rattle.format.specs.Number.{order_by};
ghost use Rattle.format.specs.Grammar.{number, read_times, ended_at};
ghost use Rattle.writing.specs.Writes.{Puts};
ghost use Rattle.long_list.specs.Lists.{Lists};
ghost use Rattle.sort_order.specs.Sorted.{sorted_of};

use long_list::Untold;

// How many of the `n` numbers of 2 bytes at `p` stand before the first zero.
fn sort_count(f: &[u8], p: usize, n: usize, msf: bool) -> usize
    requires { p + n * 2 ≤ length f.now }
    ensures { result ≡ length (ended_at (order_by msf) 2 n f.now p) }
{
    for i in 0..n {
        if number::number(f, p + i * 2, 2, msf) == 0 {
            return i;
        }
    }
    n
}

// Puts the `n` numbers of 2 bytes at `p`, at the start of `out`.
fn put_numbers(out: &mut [u64], f: &[u8], p: usize, n: usize, msf: bool)
    requires { (p + n * 2 ≤ length f.now) × (n ≤ length out.old) }
    ensures { Puts (read_times (number (order_by msf) 2) n f.now p) out.old out.new n }
{
    for i in 0..n {
        out[i] = number::number(f, p + i * 2, 2, msf);
    }
}

// The numbers of the variables by which a file is sorted, in that order. Gives how many; an `out` with no room for all of them is left as it
// came.
pub fn sort_order(f: &[u8], out: &mut [u64]) -> Result<usize, Untold>
    ensures { Lists f.now (sorted_of f.now) out.old out.new result }
{
    let s = sources::opened(f)?;
    let n = sort_count(f, s.sort, s.k + 1, s.msf);
    if out.len() < n {
        return Err(Untold::NoRoom(n));
    }
    put_numbers(&mut out[..], f, s.sort, n, s.msf);
    Ok(n)
}
