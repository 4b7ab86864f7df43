#![tactic(auto)]

ghost use Rattle.std.specs.Prelude.{◌≡◌, ℕ, ◌+◌, ◌*◌, ◌<◌, ◌≤◌, length, get_or};
ghost use Rattle.format.specs.Number.{order_by};
ghost use Rattle.format.specs.Grammar.{Sect, number, done, read_times, all_below, past_zero};
ghost use Rattle.format.specs.Labels.{signed, ascending, table_sizes, table_body, table, block_head, block, block_next, blocks};
ghost use Rattle.refusal.specs.Refusals.{code_of};
ghost use Rattle.section.specs.Judged.{Judged};
ghost use Rattle.labels.specs.Parts.{file_end, block_walk};

use refusal::Refusal;

// One past the last zero of the `n` bytes at `t`, or 0.
fn past_zero(f: &[u8], t: usize, n: usize) -> usize
    requires { t + n ≤ length f.now }
    ensures { result ≡ past_zero (λ i. get_or f.now (t + i) 0) n }
{
    for i in 0..n {
        if f[t + n - 1 - i] == 0 {
            return n - i;
        }
    }
    0
}

// Whether the `n` numbers of four bytes at `p` are all below `z`.
fn all_below(f: &[u8], p: usize, n: usize, z: u64, msf: bool) -> bool
    requires { p + n * 4 ≤ length f.now }
    ensures { result ≡ all_below z (read_times (number (order_by msf) 4) n f.now p) }
{
    for i in 0..n {
        if z <= number::number(f, p + i * 4, 4, msf) {
            return false;
        }
    }
    true
}

// Where a number of four bytes stands among the signed numbers. By hand: the order of `i32`s is one of integers, and would take laws more.
fn signed_place(x: u64) -> u64
    requires { x < 4294967296 }
    ensures { result ≡ signed x }
{
    if x < 2147483648 {
        x + 2147483648
    } else {
        x - 2147483648
    }
}

// Whether the `n` numbers of four bytes at `p` are strictly ascending as signed.
fn all_ascend(f: &[u8], p: usize, n: usize, msf: bool) -> bool
    requires { p + n * 4 ≤ length f.now }
    ensures { result ≡ ascending (read_times (number (order_by msf) 4) n f.now p) }
{
    for i in 1..n {
        let x = signed_place(number::number(f, p + (i - 1) * 4, 4, msf));
        let y = signed_place(number::number(f, p + i * 4, 4, msf));
        if y <= x {
            return false;
        }
    }
    true
}

// Whether `n` entries and `m` text bytes make up a table of `w` bytes.
fn sizes_hold(w: usize, n: usize, m: usize) -> bool
    ensures { result ≡ table_sizes w (n, m) }
{
    n <= 65536 && m <= 5308416 && w == 8 + (8 * n + m)
}

// The refusal of a table's offsets, values and text at `q`, which are all there.
fn table_body(f: &[u8], q: usize, n: usize, m: usize, msf: bool) -> Result<(), Refusal>
    requires { q + (n * 4 + (n * 4 + m)) ≤ length f.now }
    ensures { code_of result ≡ (table_body (order_by msf) (n, m)).judge f.now q }
{
    let v = q + n * 4;
    if all_ascend(f, v, n, msf) && all_below(f, q, n, past_zero(f, v + n * 4, m) as u64, msf) {
        Ok(())
    } else {
        Err(Refusal::WrongLabelTable)
    }
}

// A label table of `w` bytes at `p`.
pub fn label_table(f: &[u8], p: usize, w: usize, msf: bool) -> Result<usize, Refusal>
    requires { p ≤ length f.now }
    ensures { Judged (table (order_by msf) w) f.now p result }
{
    if f.len() - p < w {
        return Err(Refusal::CutShort);
    }
    if w < 8 {
        return Err(Refusal::WrongLabelTable);
    }
    let n = number::number(f, p, 4, msf) as usize;
    let m = number::number(f, p + 4, 4, msf) as usize;
    if !sizes_hold(w, n, m) {
        return Err(Refusal::WrongLabelTable);
    }
    table_body(f, p + 8, n, m, msf)?;
    Ok(p + w)
}

// Table length, name in `w` bytes and padding at `p`.
fn block_head(f: &[u8], p: usize, w: usize, msf: bool) -> Result<usize, Refusal>
    requires { (p ≤ length f.now) × (w ≤ 65535) }
    ensures { Judged (block_head (order_by msf) w) f.now p result }
{
    if f.len() - p < 4 + (w + 3) {
        return Err(Refusal::CutShort);
    }
    let n = text::text_len(f, p + 4, w);
    if n == w || n == 0 {
        return Err(Refusal::WrongText);
    }
    Ok(p + (4 + (w + 3)))
}

// A label block at `p`, with its name in `w` bytes.
pub fn label_block(f: &[u8], p: usize, tagged: bool, w: usize, msf: bool) -> Result<usize, Refusal>
    requires { (p ≤ length f.now) × (w ≤ 65535) }
    ensures { Judged (block tagged (order_by msf) w) f.now p result }
{
    let head = section::tag_or(f, p, b"<lbl>", Refusal::WrongTag, tagged)?;
    let at = block_head(f, head, w, msf)?;
    let n = number::number(f, head, 4, msf) as usize;
    let end = label_table(f, at, n, msf)?;
    section::tag_or(f, end, b"</lbl>", Refusal::WrongTag, tagged)
}

// Whether a label block is next at `p`.
fn block_next(f: &[u8], p: usize, tagged: bool) -> bool
    requires { p ≤ length f.now }
    ensures { result ≡ block_next tagged f.now p }
{
    if tagged {
        text::tag_or(f, p, b"<lbl>", Refusal::WrongTag).is_ok()
    } else {
        p < f.len()
    }
}

// The closing tags, and the end of the file.
fn file_end(f: &[u8], p: usize, tagged: bool) -> Result<usize, Refusal>
    requires { p ≤ length f.now }
    ensures { Judged (file_end tagged) f.now p result }
{
    let last = section::tag_or(f, p, b"</value_labels>", Refusal::WrongTag, tagged)?;
    let end = section::tag_or(f, last, b"</stata_dta>", Refusal::WrongTag, tagged)?;
    if end != f.len() {
        return Err(Refusal::BytesAfterEnd);
    }
    Ok(end)
}

// The label blocks, and what follows them.
fn block_list(f: &[u8], p: usize, tagged: bool, w: usize, msf: bool) -> Result<usize, Refusal>
    requires { (p ≤ length f.now) × (w ≤ 65535) }
    ensures { Judged (block_walk tagged (order_by msf) w) f.now p result }
{
    let mut q = p;
    while block_next(f, q, tagged) {
        q = label_block(f, q, tagged, w, msf)?;
    }
    file_end(f, q, tagged)
}

// The label blocks, up to the end of the file.
pub fn label_list(f: &[u8], p: usize, tagged: bool, w: usize, msf: bool) -> Result<usize, Refusal>
    requires { (p ≤ length f.now) × (w ≤ 65535) }
    ensures { Judged (blocks tagged (order_by msf) w (done 13)) f.now p result }
{
    let at = section::tag_or(f, p, b"<value_labels>", Refusal::WrongTag, tagged)?;
    block_list(f, at, tagged, w, msf)
}
