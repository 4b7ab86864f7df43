// The long strings of a file, as numbers: a caller who reads many finds each by v and o, without a walk for each.

#![tactic(auto)]

ghost use Rattle.std.specs.Prelude.{◌≡◌, ◌+◌, ◌≤◌, length};
ghost use Rattle.format.specs.Number.{order_by};
ghost use Rattle.format.specs.Data.{long_record};
ghost use Rattle.writing.specs.Writes.{Puts};
ghost use Rattle.long_list.specs.declared.Untold.TheVariants.{Refused};
ghost use Rattle.long_list.specs.Lists.{Lists};
ghost use Rattle.long_list.specs.Told.{ToldRoom, ToldCount, ToldPut};
ghost use Rattle.long_list.specs.Longs.{longs_from, longs_of, long_read};

use refusal::Refusal;

// Why a list is not told: the file is refused; or there is no room for it, and then how many numbers it has.
#[derive(Clone, Copy)]
pub enum Untold {
    Refused(Refusal),
    NoRoom(usize),
}

impl From<Refusal> for Untold {
    ghost from_gives = { λ r u. u ≡ Refused r };

    fn from(refusal: Refusal) -> Untold {
        Untold::Refused(refusal)
    }
}

// How many numbers the records from `p` to `q` are, five for each.
fn longs_count(f: &[u8], p: usize, q: usize, tagged: bool, msf: bool, ow: usize) -> usize
    requires { (ToldRoom (long_record tagged (order_by msf) ow) (longs_from ow) f.now p q (length f.now)) × (ow ≤ 8) }
    ensures { ToldCount (long_record tagged (order_by msf) ow) (longs_from ow) f.now p q result }
{
    let mut at = p;
    let mut n: usize = 0;
    while at < q {
        at += 12 + ow + number::number(f, at + (8 + ow), 4, msf) as usize;
        n += 5;
    }
    n
}

// Puts the numbers of the record at `p`, with `n` bytes of contents.
fn put_long(out: &mut [u64], f: &[u8], p: usize, n: usize, msf: bool, ow: usize)
    requires { (p + (12 + ow) ≤ length f.now) × (5 ≤ length out.old) × (ow ≤ 8) }
    ensures { Puts (long_read (order_by msf) ow f.now p n) out.old out.new 5 }
{
    let v = number::number(f, p + 3, 4, msf);
    let o = number::number(f, p + 7, ow, msf);
    let kind = number::number(f, p + (7 + ow), 1, msf);
    let at = p + (12 + ow);
    out[0] = v;
    out[1] = o;
    out[2] = kind;
    out[3] = at as u64;
    out[4] = n as u64;
}

// Puts the numbers of the records from `p` to `q`, at the start of `out`; gives how many.
fn put_longs(
    out: &mut [u64],
    f: &[u8],
    p: usize,
    q: usize,
    tagged: bool,
    msf: bool,
    ow: usize,
) -> usize
    requires { (ToldRoom (long_record tagged (order_by msf) ow) (longs_from ow) f.now p q (length out.old)) × (ow ≤ 8) }
    ensures { ToldPut (long_record tagged (order_by msf) ow) (longs_from ow) f.now p q out.old out.new result }
{
    let mut from = p;
    let mut to: usize = 0;
    while from < q {
        let n = number::number(f, from + (8 + ow), 4, msf) as usize;
        put_long(&mut out[to..], f, from, n, msf, ow);
        from += 12 + ow + n;
        to += 5;
    }
    to
}

// The long strings of a file in file order, five numbers each: v, o, kind, place and length of the contents. Gives how many numbers; an `out` with
// no room for all of them is left as it came.
pub fn long_list(f: &[u8], out: &mut [u64]) -> Result<usize, Untold>
    ensures { Lists f.now (longs_of f.now) out.old out.new result }
{
    let s = sources::opened(f)?;
    let e = s.edition;
    let n = longs_count(f, s.longs, s.longsend, e.tagged, s.msf, e.record_width);
    if out.len() < n {
        return Err(Untold::NoRoom(n));
    }
    put_longs(
        &mut out[..],
        f,
        s.longs,
        s.longsend,
        e.tagged,
        s.msf,
        e.record_width,
    );
    Ok(n)
}
