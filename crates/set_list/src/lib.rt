// The label sets of a file, as numbers.

#![tactic(auto)]

ghost use Rattle.std.specs.Prelude.{[], ◌∷◌, ◌≡◌, ◌+◌, ◌*◌, ◌≤◌, length};
ghost use Rattle.format.specs.Number.{order_by, num};
ghost use Rattle.format.specs.Grammar.{text_at};
ghost use Rattle.format.specs.Labels.{Table, block};
ghost use Rattle.writing.specs.Writes.{Puts};
ghost use Rattle.write_tables.specs.Tables.{TableRoom};
ghost use Rattle.long_list.specs.Lists.{Lists};
ghost use Rattle.long_list.specs.Told.{ToldRoom, ToldCount, ToldPut};
ghost use Rattle.set_list.specs.Sets.{entries_to, set_numbers, sets_from, sets_of};
ghost use Rattle.set_list.specs.Reads.{entry_read, PutsOf, BlockHere, ReadsBlock};
ghost use Rattle.text_ends.specs.Ends.{Ends};

use long_list::Untold;

// Where a label block's name and table stand, how many entries and text bytes the table has, and where the next block stands.
#[derive(Clone, Copy)]
struct Block {
    name: usize,
    table: usize,
    entries: usize,
    chars: usize,
    next: usize,
}

// ---- entries

// Puts three numbers.
fn put_three(out: &mut [u64], a: u64, b: u64, c: u64)
    requires { 3 ≤ length out.old }
    ensures { Puts (a ∷ b ∷ c ∷ []) out.old out.new 3 }
{
    out[0] = a;
    out[1] = b;
    out[2] = c;
}

// Puts the numbers of an entry: its value stands at `v`, its offset at `p`, and the text area of `x` bytes at `a`, of which `t` says where texts end.
fn put_entry(
    out: &mut [u64],
    f: &[u8],
    t: &[u32; 20737],
    v: usize,
    p: usize,
    a: usize,
    x: usize,
    msf: bool,
)
    requires { (v + 4 ≤ length f.now) × (p + 4 ≤ length f.now) × (a + x ≤ length f.now) × (num (order_by msf) 4 f.now p ≤ x) × (3 ≤ length out.old) × (x ≤ 5308416) × (Ends f.now a x 0 t.now) }
    ensures { Puts (entry_read (order_by msf) f.now v p a x) out.old out.new 3 }
{
    let value = number::number(f, v, 4, msf);
    let y = number::number(f, p, 4, msf) as usize;
    let k = text_ends::length_from(f, t, a, x, y);
    put_three(out, value, (a + y) as u64, k as u64);
}

// Puts those of each entry of the table of `n` entries and `x` text bytes at `p`; `t` is filled on the way.
fn put_entries(
    out: &mut [u64],
    f: &[u8],
    t: &mut [u32; 20737],
    p: usize,
    n: usize,
    x: usize,
    msf: bool,
)
    requires { (TableRoom (order_by msf) f.now p n x (length f.now)) × (n * 3 ≤ length out.old) × (length t.old ≡ 20737) }
    ensures { (PutsOf (order_by msf) f.now p n x (λ (u : Table). entries_to u (p + 8 + n * 4 + n * 4) n) out.old out.new (n * 3)) × (length t.new ≡ 20737) }
{
    let o = p + 8;
    let v = o + n * 4;
    let a = v + n * 4;
    text_ends::fill_ends(t, f, a, x);
    for m in 0..n {
        put_entry(&mut out[m * 3..], f, t, v + m * 4, o + m * 4, a, x, msf);
    }
}

// Puts the numbers of a label set: its name stands in the `w` bytes at `a`, its table at `p`.
fn put_set(
    out: &mut [u64],
    f: &[u8],
    t: &mut [u32; 20737],
    a: usize,
    w: usize,
    p: usize,
    n: usize,
    x: usize,
    msf: bool,
)
    requires { (TableRoom (order_by msf) f.now p n x (length f.now)) × (a + w ≤ length f.now) × (3 + n * 3 ≤ length out.old) × (length t.old ≡ 20737) }
    ensures { (PutsOf (order_by msf) f.now p n x (λ (u : Table). set_numbers a (length (text_at w f.now a)) p n u) out.old out.new (3 + n * 3)) × (length t.new ≡ 20737) }
{
    let k = text::text_len(f, a, w);
    put_three(&mut out[..], a as u64, k as u64, n as u64);
    put_entries(&mut out[3..], f, t, p, n, x, msf);
}

// The label block at `p`.
fn block_at(f: &[u8], p: usize, tagged: bool, w: usize, msf: bool) -> Block
    requires { BlockHere tagged (order_by msf) w f.now p }
    ensures { ReadsBlock tagged (order_by msf) w f.now p result }
{
    let a = p + reading::tag_size(tagged, 5) as usize;
    let table = a + (4 + (w + 3));
    let entries = number::number(f, table, 4, msf) as usize;
    let chars = number::number(f, table + 4, 4, msf) as usize;
    let end = table + (8 + (8 * entries + chars));
    Block {
        name: a + 4,
        table,
        entries,
        chars,
        next: end + reading::tag_size(tagged, 6) as usize,
    }
}

// How many numbers the label sets of the blocks from `p` to `q` are.
fn sets_count(f: &[u8], p: usize, q: usize, tagged: bool, w: usize, msf: bool) -> usize
    requires { ToldRoom (block tagged (order_by msf) w) (sets_from tagged (order_by msf) w) f.now p q (length f.now) }
    ensures { ToldCount (block tagged (order_by msf) w) (sets_from tagged (order_by msf) w) f.now p q result }
{
    let mut at = p;
    let mut n: usize = 0;
    while at < q {
        let b = block_at(f, at, tagged, w, msf);
        n += 3 + b.entries * 3;
        at = b.next;
    }
    n
}

// Puts them; gives how many. The list of ends is made once, for all tables.
fn put_sets(
    out: &mut [u64],
    f: &[u8],
    p: usize,
    q: usize,
    tagged: bool,
    w: usize,
    msf: bool,
) -> usize
    requires { ToldRoom (block tagged (order_by msf) w) (sets_from tagged (order_by msf) w) f.now p q (length out.old) }
    ensures { ToldPut (block tagged (order_by msf) w) (sets_from tagged (order_by msf) w) f.now p q out.old out.new result }
{
    let mut t = [0u32; 20737];
    let mut at = p;
    let mut n: usize = 0;
    while at < q {
        let b = block_at(f, at, tagged, w, msf);
        put_set(
            &mut out[n..],
            f,
            &mut t,
            b.name,
            w,
            b.table,
            b.entries,
            b.chars,
            msf,
        );
        n += 3 + b.entries * 3;
        at = b.next;
    }
    n
}

// The label sets of a file in file order: for each, place and length of its name and how many entries it has, and then for each entry its value,
// as 32 bits, and place and length of its text. Gives how many numbers; an `out` with no room for all of them is left as it came.
pub fn set_list(f: &[u8], out: &mut [u64]) -> Result<usize, Untold>
    ensures { Lists f.now (sets_of f.now) out.old out.new result }
{
    let s = sources::opened(f)?;
    let e = s.edition;
    let n = sets_count(f, s.blocks, s.blocksend, e.tagged, e.name_width, s.msf);
    if out.len() < n {
        return Err(Untold::NoRoom(n));
    }
    put_sets(
        &mut out[..],
        f,
        s.blocks,
        s.blocksend,
        e.tagged,
        e.name_width,
        s.msf,
    );
    Ok(n)
}
