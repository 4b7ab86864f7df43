#![tactic(auto)]

ghost use Rattle.std.specs.Prelude.{◌≡◌, ℕ, ◌+◌, ◌*◌, ◌<◌, ◌≤◌, length};
ghost use Rattle.format.specs.Number.{order_by};
ghost use Rattle.questions.specs.Ask.{or_refused, slice};
ghost use Rattle.walks.specs.Answers.{long_by, words_by, set_by};
ghost use Rattle.walks.specs.Walks.{IsSize, is_of, long_at, records_from, entry_place, slot_place, table_place, placed_told, all_told, open_size, close_size, is_sized, IsBlock, same_name, block_labels};

use answers::Part;
use refusal::{Refusal, Told};
use search::Slot;

// A long string: kind, place and length of the contents.
#[derive(Clone, Copy)]
pub struct Long {
    pub kind: u8,
    pub at: u64,
    pub len: u64,
}

impl Long {
    // No record is meant.
    pub const NONE: Long = Long {
        kind: 0,
        at: 0,
        len: 0,
    };
}

// The table of a label set, by place and length.
#[derive(Clone, Copy)]
pub struct LabelSet {
    pub at: u64,
    pub len: u64,
}

// A label block that lies whole in its part, with a table as long as it says: the lengths of its table and its name.
#[derive(Clone, Copy)]
pub struct Block {
    pub table: u64,
    pub name: u64,
}

// The size of the record at `p`, where it ends at or before `end` and the file's end.
fn record_size(f: &[u8], p: usize, end: u64, w: usize, msf: bool) -> Option<usize>
    requires { (p ≤ length f.now) × (w ≤ 8) }
    ensures { IsSize w (order_by msf) f.now end p result }
{
    let h = 12 + w;
    if f.len() - p < h {
        return None;
    }
    let q = p + h;
    if end < q as u64 {
        return None;
    }
    let n = number::number(f, p + (8 + w), 4, msf);
    if end - (q as u64) < n || ((f.len() - q) as u64) < n {
        return None;
    }
    Some(h + n as usize)
}

// Whether the record at `p` is of the cell (`v`, `o`).
fn is_of(f: &[u8], p: usize, v: u64, o: u64, w: usize, msf: bool) -> bool
    requires { (p + (12 + w) ≤ length f.now) × (w ≤ 8) }
    ensures { result ≡ is_of w (order_by msf) f.now v o p }
{
    number::number(f, p + 3, 4, msf) == v && number::number(f, p + 7, w, msf) == o
}

// The answer for the record of `n` bytes at `p`.
fn long_at(f: &[u8], p: usize, n: usize, w: usize, msf: bool) -> Long
    requires { (p + n ≤ length f.now) × (12 + w ≤ n) × (w ≤ 8) }
    ensures { result ≡ long_at w (order_by msf) f.now p n }
{
    let h = 12 + w;
    Long {
        kind: number::number(f, p + (7 + w), 1, msf) as u8,
        at: (p + h) as u64,
        len: (n - h) as u64,
    }
}

// The first record from `start` on, in a part that ends at `end`, that is of the cell (`v`, `o`).
pub fn records(
    f: &[u8],
    start: usize,
    end: u64,
    v: u64,
    o: u64,
    w: usize,
    msf: bool,
) -> Result<Long, Refusal>
    requires { (start ≤ length f.now) × (w ≤ 8) }
    ensures { result ≡ long_by (or_refused (records_from w (order_by msf) f.now v o end start)) }
{
    let mut p = start;
    while let Some(n) = record_size(f, p, end, w, msf) {
        if is_of(f, p, v, o, w, msf) {
            return Ok(long_at(f, p, n, w, msf));
        }
        p += n;
    }
    Err(Refusal::NotReadable)
}

// Where the words at slot `m` of the table at `p` with `n` entries and `x` text bytes stand, and how many text bytes are left from there on.
fn entry_place(f: &[u8], p: u64, n: u64, x: u64, m: u64, msf: bool) -> Result<Option<Part>, Refusal>
    requires { (p + 8 + n * 4 ≤ length f.now) × (m < n) }
    ensures { result ≡ words_by (entry_place (order_by msf) f.now p n x m) }
{
    let y = number::number(f, (p + 8 + m * 4) as usize, 4, msf);
    if x <= y {
        return Err(Refusal::NotReadable);
    }
    let at = reading::place_in(f, p + 8 + n * 4, y, n, 4).ok_or(Refusal::NotReadable)?;
    Ok(Some(Part { at, len: x - y }))
}

// The same for the value `q` in the table at `p` with `n` entries and `x` text bytes, whose values stand at `v`; none where the value has no label.
fn slot_place(
    f: &[u8],
    p: u64,
    v: u64,
    n: u64,
    x: u64,
    q: i32,
    msf: bool,
) -> Result<Option<Part>, Refusal>
    requires { (v ≡ p + 8 + n * 4) × (v ≤ length f.now) × (n < 4294967296) }
    ensures { result ≡ words_by (slot_place (order_by msf) f.now p n x q) }
{
    let a = v as usize;
    let s = search::find_value(&f[a..], 0, f.len() - a, n as usize, msf, q);
    match s {
        Slot::Found(m) => entry_place(f, p, n, x, m as u64, msf),
        Slot::Missing => Ok(None),
        Slot::Lost => Err(Refusal::NotReadable),
    }
}

// The same for the value `q` in the table at `p`.
fn table_place(f: &[u8], p: u64, q: i32, msf: bool) -> Result<Option<Part>, Refusal>
    ensures { result ≡ words_by (table_place (order_by msf) f.now p q) }
{
    let n = reading::number_in(f, p, 4, msf).ok_or(Refusal::NotReadable)?;
    let x = reading::number_in(f, p + 4, 4, msf).ok_or(Refusal::NotReadable)?;
    let v = reading::place_in(f, p, 8, n, 4).ok_or(Refusal::NotReadable)?;
    slot_place(f, p, v, n, x, q, msf)
}

// Where the words for the value `q` in a label set stand, and how many text bytes are left from there on; none in a set without labels. A refused set has
// its refusal, which may be told by any number.
pub fn place_in_set<E: Told>(
    f: &[u8],
    s: Result<Option<LabelSet>, E>,
    q: i32,
    msf: bool,
) -> Result<Option<Part>, E>
    ensures { result ≡ placed_told E.told (order_by msf) f.now s q }
{
    let Some(set) = s? else {
        return Ok(None);
    };
    refusal::retell(table_place(f, set.at, q, msf))
}

// Words up to their end, by where they stand and how many text bytes are left from there on; none where there are none. A refusal stays, told by any number.
pub fn ended<E: Told>(f: &[u8], w: Result<Option<Part>, E>) -> Result<Option<Part>, E>
    ensures { result ≡ all_told E.told f.now w }
{
    let Some(Part { at, len: left }) = w? else {
        return Ok(None);
    };
    let Some(len) = reading::text_in(f, at, left as usize) else {
        return Err(E::tell(Refusal::NotReadable));
    };
    if left <= len {
        return Err(E::tell(Refusal::NotReadable));
    }
    Ok(Some(Part { at, len }))
}

// How many bytes the marks of a block have.
pub fn open_size(tagged: bool) -> u64
    ensures { (result ≡ open_size tagged) × (result ≤ 6) }
{
    if tagged { 5 } else { 0 }
}

pub fn close_size(tagged: bool) -> u64
    ensures { (result ≡ close_size tagged) × (result ≤ 6) }
{
    if tagged { 6 } else { 0 }
}

// Whether the table of `w` bytes at `p` is as long as its count and text length say.
fn is_sized(f: &[u8], p: u64, w: u64, msf: bool) -> bool
    ensures { result ≡ is_sized (order_by msf) f.now w p }
{
    let Some(n) = reading::number_in(f, p, 4, msf) else {
        return false;
    };
    let Some(x) = reading::number_in(f, p + 4, 4, msf) else {
        return false;
    };
    w == 8 + (8 * n + x)
}

// The block at `p`, with its name in `w` bytes, in a part that ends at `end`.
pub fn block_at(f: &[u8], p: u64, end: u64, tagged: bool, w: usize, msf: bool) -> Option<Block>
    requires { (p < end) × (w ≤ 65535) }
    ensures { IsBlock tagged w (order_by msf) f.now end p result }
{
    let a = open_size(tagged);
    let h = a + (7 + w as u64);
    if end - p < h {
        return None;
    }
    let table = reading::number_in(f, p + a, 4, msf)?;
    if end - p - h < table + close_size(tagged) || !is_sized(f, p + h, table, msf) {
        return None;
    }
    let name = reading::text_in(f, p + a + 4, w)?;
    Some(Block { table, name })
}

// Whether the text of `n` bytes at `p` is that of `m` bytes at `a`.
pub fn same_name(f: &[u8], p: u64, n: u64, a: usize, m: usize) -> bool
    requires { (p + n ≤ length f.now) × (a + m ≤ length f.now) }
    ensures { result ≡ same_name f.now p n a m }
{
    n == m as u64 && text::same_at(f, p as usize, &f[a..a + m])
}

// The table of the first block from `start` on, in a part that ends at `end`, whose name is the text of `m` bytes at `a`; none where there is no such block.
pub fn find_block(
    f: &[u8],
    start: u64,
    end: u64,
    tagged: bool,
    w: usize,
    a: usize,
    m: usize,
    msf: bool,
) -> Result<Option<LabelSet>, Refusal>
    requires { (a + m ≤ length f.now) × (w ≤ 65535) }
    ensures { result ≡ set_by (block_labels tagged w (order_by msf) f.now (slice f.now a m) end start) }
{
    let mut p = start;
    while p < end {
        let b = block_at(f, p, end, tagged, w, msf).ok_or(Refusal::NotReadable)?;
        let s = p + open_size(tagged);
        let at = s + (7 + w as u64);
        if same_name(f, s + 4, b.name, a, m) {
            return Ok(Some(LabelSet { at, len: b.table }));
        }
        p = at + b.table + close_size(tagged);
    }
    Ok(None)
}
