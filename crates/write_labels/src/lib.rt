#![tactic(auto)]

ghost use Rattle.std.specs.Prelude.{◌≡◌, ◌++◌, ◌+◌, ◌≤◌, length, drop};
ghost use Rattle.format.specs.Slot.{fill};
ghost use Rattle.format.specs.Number.{order_by, num};
ghost use Rattle.format.specs.Grammar.{Sect, text_at};
ghost use Rattle.format.specs.Edition.{opening, closing, n_lbl};
ghost use Rattle.format.specs.Labels.{block_head, block};
ghost use Rattle.number.specs.Numbers.{IsNumber};
ghost use Rattle.writing.specs.Writes.{Room, PutsAll};
ghost use Rattle.write_tables.specs.Tables.{TableRoom, PutsTable};
ghost use Rattle.write_labels.specs.Blocks.{BlocksSize, NamesHeld, BlockRoom, PutsBlock, BlocksRoom};

// The bytes of the tag that opens a label block.
fn open_size(tagged: bool) -> usize
    ensures { (result ≡ length (opening tagged n_lbl)) × (result ≤ 5) }
{
    if tagged { 5 } else { 0 }
}

// The bytes of the tag that closes a label block.
fn close_size(tagged: bool) -> usize
    ensures { (result ≡ length (closing tagged n_lbl)) × (result ≤ 6) }
{
    if tagged { 6 } else { 0 }
}

// The bytes of a label block with its name in `w` bytes, without its table.
fn frame_size(tagged: bool, w: usize) -> usize
    requires { w ≤ 255 }
    ensures { (result ≡ length (opening tagged n_lbl) + (4 + (w + 3)) + length (closing tagged n_lbl)) × (result ≤ 273) }
{
    open_size(tagged) + (4 + (w + 3)) + close_size(tagged)
}

// The table length of the label block at `p`.
fn table_len(f: &[u8], p: usize, tagged: bool, msf: bool) -> usize
    requires { p + length (opening tagged n_lbl) + 4 ≤ length f.now }
    ensures { IsNumber (order_by msf) 4 f.now (p + length (opening tagged n_lbl)) result }
{
    number::number(f, p + open_size(tagged), 4, msf) as usize
}

// How many bytes the label blocks from `p` to `q` take in another form.
pub fn blocks_size(
    f: &[u8],
    p: usize,
    q: usize,
    tagged: bool,
    w: usize,
    msf: bool,
    totagged: bool,
    tow: usize,
) -> usize
    requires { (Room (block tagged (order_by msf) w) (block tagged (order_by msf) w) f.now p q (length f.now)) × (length f.now ≤ 2147483647) × (w ≤ 255) × (tow ≤ 255) }
    ensures { BlocksSize tagged (order_by msf) w totagged tow f.now p q result }
{
    let from = frame_size(tagged, w);
    let to = frame_size(totagged, tow);
    let mut at = p;
    let mut n: usize = 0;
    while at < q {
        let t = table_len(f, at, tagged, msf);
        n += to + t;
        at += from + t;
    }
    n
}

// Whether the label blocks from `p` to `q` have names shorter than `tow`.
pub fn names_held(
    f: &[u8],
    p: usize,
    q: usize,
    tagged: bool,
    w: usize,
    msf: bool,
    tow: usize,
) -> bool
    requires { (Room (block tagged (order_by msf) w) (block tagged (order_by msf) w) f.now p q (length f.now)) × (length f.now ≤ 2147483647) × (w ≤ 255) }
    ensures { NamesHeld tagged (order_by msf) w tow f.now p q result }
{
    let from = frame_size(tagged, w);
    let name = open_size(tagged) + 4;
    let mut at = p;
    while at < q {
        if tow <= text::text_len(f, at + name, w) {
            return false;
        }
        let t = table_len(f, at, tagged, msf);
        at += from + t;
    }
    true
}

// Puts the table length at `p`, the name in `w` bytes after it, in `tow` bytes, and three zeros.
fn put_head(out: &mut [u8], f: &[u8], p: usize, w: usize, msf: bool, tow: usize, tomsf: bool)
    requires { (p + 4 + w ≤ length f.now) × (4 + (tow + 3) ≤ length out.old) × (length (text_at w f.now (p + 4)) ≤ tow) }
    ensures { out.new ≡ fill ((block_head (order_by tomsf) tow).slots ((block_head (order_by msf) w).read f.now p)) ++ drop (4 + (tow + 3)) out.old }
{
    let s = number::number(f, p, 4, msf);
    number::put_number(&mut out[..], s, 4, tomsf);
    text::put_text(&mut out[4..], f, p + 4, w, tow);
    let a = 4 + tow;
    text::put_zeros(&mut out[a..], 3);
}

// Puts the label table at `p`, by the numbers of entries and of text bytes that it has; gives how many bytes.
fn put_counted(out: &mut [u8], f: &[u8], p: usize, msf: bool, tomsf: bool) -> usize
    requires { (p + 8 ≤ length f.now) × (TableRoom (order_by msf) f.now p (num (order_by msf) 4 f.now p) (num (order_by msf) 4 f.now (p + 4)) (length out.old)) }
    ensures { PutsTable (order_by msf) (order_by tomsf) f.now p (num (order_by msf) 4 f.now p) (num (order_by msf) 4 f.now (p + 4)) out.old out.new result }
{
    let n = number::number(f, p, 4, msf) as usize;
    let m = number::number(f, p + 4, 4, msf) as usize;
    write_tables::put_table(out, f, p, n, m, msf, tomsf)
}

// Puts the label block at `p` in another form; gives how many bytes.
fn put_block(
    out: &mut [u8],
    f: &[u8],
    p: usize,
    tagged: bool,
    w: usize,
    msf: bool,
    totagged: bool,
    tow: usize,
    tomsf: bool,
) -> usize
    requires { BlockRoom tagged (order_by msf) w totagged (order_by tomsf) tow f.now p (length out.old) }
    ensures { PutsBlock tagged (order_by msf) w totagged (order_by tomsf) tow f.now p out.old out.new result }
{
    let h = p + open_size(tagged);
    let q = h + (4 + (w + 3));
    let a = writing::put_tag(&mut out[..], b"<lbl>", totagged);
    put_head(&mut out[a..], f, h, w, msf, tow, tomsf);
    let b = a + (4 + (tow + 3));
    let c = b + put_counted(&mut out[b..], f, q, msf, tomsf);
    c + writing::put_tag(&mut out[c..], b"</lbl>", totagged)
}

// Puts the label blocks from `p` to `q` in another form; gives how many bytes.
pub fn put_blocks(
    out: &mut [u8],
    f: &[u8],
    p: usize,
    q: usize,
    tagged: bool,
    w: usize,
    msf: bool,
    totagged: bool,
    tow: usize,
    tomsf: bool,
) -> usize
    requires { (BlocksRoom tagged (order_by msf) w totagged (order_by tomsf) tow f.now p q (length out.old)) × (w ≤ 255) }
    ensures { PutsAll (block tagged (order_by msf) w) (block totagged (order_by tomsf) tow) f.now p q out.old out.new result }
{
    let frame = frame_size(tagged, w);
    let mut at = p;
    let mut n: usize = 0;
    while at < q {
        let t = table_len(f, at, tagged, msf);
        n += put_block(&mut out[n..], f, at, tagged, w, msf, totagged, tow, tomsf);
        at += frame + t;
    }
    n
}
