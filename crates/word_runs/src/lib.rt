// Label words one after another, down a column: the variable's label set is looked for once, and each cell's value is sought in its table. A text is gone
// through to its end, until that has cost more than its whole text area; then the ends of all its texts are found, once, so that each later cell costs at
// most 256 text bytes. Columns of one label set can share the list of ends. Only a wrong layout shows a text area of more than 5,308,416 bytes, or one that passes the file's end: there each cell's text is gone through.

#![tactic(auto)]

ghost use Rattle.std.specs.Prelude.{◌≡◌, [], ◌++◌, ◌+◌, ◌*◌, ◌≤◌, length, drop, Some, Ok, IfSome, IfOk};
ghost use Rattle.format.specs.Number.{order_by};
ghost use Rattle.questions.specs.Ask.{answer_of, ask_words};
ghost use Rattle.checking.specs.Checks.{layout_by};
ghost use Rattle.cell.specs.Cells.{says, Lettered};
ghost use Rattle.cell_runs.specs.Held.{held};
ghost use Rattle.asking.specs.Asking.{answer_by, by_words};
ghost use Rattle.walks.specs.Answers.{words_by};
ghost use Rattle.walks.specs.Walks.{all_ended};
ghost use Rattle.label_words.specs.Words.{said_in, cell_words};
ghost use Rattle.text_ends.specs.Ends.{Ends};
ghost use Rattle.word_runs.specs.Areas.{InFile, Stands, listed_part};
ghost use Rattle.word_runs.specs.Words.{words_down, SetGiven, GapGiven, ColumnGiven, ListingFits, Cheap, had_of, Unlisted, Listed, Resumed};
ghost use Rattle.coded.specs.Coded.{numbers_of, told, following, Tells};

use answers::Part;
use cell::Cell;
use cell_runs::Held;
use checking::Layout;
use columns::Column;
use refusal::Refusal;
use walks::LabelSet;

// The text area of a label table, by place and length.
#[derive(Clone, Copy, PartialEq, Eq)]
pub struct Area {
    pub at: usize,
    pub len: usize,
}

// What is listed of a text area: how many of its bytes have their ends listed, none or those from the first on, and how many text bytes were gone through
// before.
#[derive(Clone, Copy)]
pub struct Listing {
    pub area: Area,
    pub had: usize,
    pub spent: u64,
}

// The text area of a label set's table, where it lies in the file and has no more bytes than an accepted file's can have.
fn text_area(f: &[u8], s: Option<LabelSet>, msf: bool) -> Option<Area>
    ensures { IfSome result (InFile f.now) }
{
    let table = s?.at;
    let n = reading::number_in(f, table, 4, msf)?;
    let x = reading::number_in(f, table + 4, 4, msf)?;
    let at = reading::place_in(f, table, 8, n, 8)?;
    if 5308416 < x || f.len() as u64 - at < x {
        return None;
    }
    Some(Area {
        at: at as usize,
        len: x as usize,
    })
}

// Where in the text area words stand, if as many text bytes are left to them as the area has from there on.
fn place_in_area(area: Area, w: Part) -> Option<usize>
    ensures { Stands area w result }
{
    let y = w.at.checked_sub(area.at as u64)?;
    let x = area.len as u64;
    if x < y || w.len != x - y {
        return None;
    }
    Some(y as usize)
}

// Words up to their end: looked up, where they stand in the text area, of which `t` says where texts end.
fn looked_up(f: &[u8], t: &[u32; 20737], area: Area, w: Part) -> Result<Option<Part>, Refusal>
    requires { (InFile f.now area) × (Ends f.now area.at area.len 0 t.now) }
    ensures { result ≡ all_ended f.now (Ok (Some w)) }
{
    let Some(y) = place_in_area(area, w) else {
        return walks::ended(f, Ok(Some(w)));
    };
    let len = text_ends::length_from(f, t, area.at, area.len, y) as u64;
    if w.len <= len {
        return Err(Refusal::NotReadable);
    }
    Ok(Some(Part { at: w.at, len }))
}

// The part of the text area whose bytes have their ends listed.
fn listed_part(y: Listing) -> Area
    ensures { result ≡ listed_part y }
{
    Area {
        at: y.area.at,
        len: y.had,
    }
}

// The same, where `x` tells what is listed of a text area; none where there are none. A refusal stays.
fn ended_by(
    f: &[u8],
    t: &[u32; 20737],
    x: Option<Listing>,
    w: Result<Option<Part>, Refusal>,
) -> Result<Option<Part>, Refusal>
    requires { ListingFits f.now t.now x }
    ensures { result ≡ all_ended f.now w }
{
    match (x, w) {
        (Some(y), Ok(Some(part))) if y.had != 0 => looked_up(f, t, listed_part(y), part),
        _ => walks::ended(f, w),
    }
}

// The label words of a cell that says `c`, of a variable with the label set `s`, where `t` and `x` tell of the ends that are listed.
fn words_of(
    f: &[u8],
    s: Result<Option<LabelSet>, Refusal>,
    c: Result<Cell, Refusal>,
    msf: bool,
    t: &[u32; 20737],
    x: Option<Listing>,
) -> Result<Option<Part>, Refusal>
    requires { (IfOk c (λ k. Lettered (says k))) × (ListingFits f.now t.now x) }
    ensures { result ≡ cell_words (said_in (order_by msf) f.now s) c }
{
    ended_by(f, t, x, label_words::cell_place(f, s, c, msf))
}

// How many bytes the tag before the first row has.
fn gap_of(h: &Result<Held, Refusal>) -> u64
    ensures { GapGiven h.now result }
{
    match h {
        Ok(h) => reading::tag_size(h.o.e.tagged, 6),
        Err(_) => 0,
    }
}

// The label words of cell `i`, `j`, where `h` is the column of variable `i`, whose first row stands after a tag of `gap` bytes, and `s` its label set.
fn words_at(
    f: &[u8],
    l: &Layout,
    i: u64,
    j: u64,
    gap: u64,
    h: &Result<Held, Refusal>,
    s: Result<Option<LabelSet>, Refusal>,
    t: &[u32; 20737],
    x: Option<Listing>,
) -> Result<Option<Part>, Refusal>
    requires { (h.now ≡ held f.now (layout_by l.now) i) × (GapGiven h.now gap) × (SetGiven f.now (layout_by l.now) i s) × (ListingFits f.now t.now x) }
    ensures { result ≡ words_by (answer_of f.now (layout_by l.now) (ask_words i j [])) }
{
    match h {
        Ok(h) => {
            let row = cells::row_in::<Refusal>(f, Ok(h.c.row), j, l.n, l.places[9], gap);
            let said = cells::cell_in_row(f, row, h.c, h.o.e.v_width, h.o.e.o_width, h.o.msf);
            words_of(f, s, said, h.o.msf, t, x)
        }
        Err(refusal) => {
            cell_runs::cell_in(f, l, h, i, j)?;
            Err(*refusal)
        }
    }
}

// Stores label words at the start of `out`.
fn put_words(out: &mut [u64], x: Result<Option<Part>, Refusal>)
    requires { 4 ≤ length out.old }
    ensures { out.new ≡ numbers_of (answer_by (by_words x)) ++ drop 4 out.old }
{
    coded::put_four(out, coded::answer_numbers(asking::by_words(x)));
}

// What is listed of the text area `g`, where `x` is what is listed of one: the same where it is of that area, else nothing.
fn resumed(x: Option<Listing>, g: Option<Area>) -> Option<Listing>
    ensures { Resumed x g result }
{
    let area = g?;
    match x {
        Some(y) if y.area == area => x,
        _ => Some(Listing {
            area,
            had: 0,
            spent: 0,
        }),
    }
}

// What is listed, after `n` more text bytes: the ends of all texts, once this is more than the text area has.
fn listed(t: &mut [u32; 20737], f: &[u8], x: Option<Listing>, n: u64) -> Option<Listing>
    requires { ListingFits f.now t.old x }
    ensures { (ListingFits f.now t.new result) × (Cheap result) × (Unlisted x t.old → Unlisted result t.new) }
{
    let mut y = x?;
    y.spent = y.spent.saturating_add(n);
    if y.had == 0 && (y.area.len as u64) < y.spent {
        text_ends::fill_ends(t, f, y.area.at, y.area.len);
        y.had = y.area.len;
        y.spent = 0;
    }
    Some(y)
}

// How many bytes have their ends listed.
fn had_of(x: Option<Listing>) -> usize
    ensures { result ≡ had_of x }
{
    match x {
        Some(y) => y.had,
        None => 0,
    }
}

// What is listed before the first words; where that is nothing the list begins with 0.
fn begun(t: &mut [u32; 20737], f: &[u8], x: Option<Listing>) -> Option<Listing>
    requires { ListingFits f.now t.old x }
    ensures { (ListingFits f.now t.new result) × (Cheap result) × (Unlisted result t.new) }
{
    let y = listed(t, f, x, 0);
    if had_of(y) != 0 {
        return y;
    }
    t[0] = 0;
    y
}

// The label words of variable `i` in `n` observations from `j` on, where `h` is its column; what is listed after them.
fn words_from(
    f: &[u8],
    l: &Layout,
    i: u64,
    j: u64,
    n: usize,
    h: &Result<Held, Refusal>,
    s: Result<Option<LabelSet>, Refusal>,
    t: &mut [u32; 20737],
    x: Option<Listing>,
    out: &mut [u64],
) -> Option<Listing>
    requires { (h.now ≡ held f.now (layout_by l.now) i) × (SetGiven f.now (layout_by l.now) i s) × (Listed f.now t.old x) × (n * 4 ≤ length out.old) × (j + n ≤ 18446744073709551616) }
    ensures { (out.new ≡ told f.now (layout_by l.now) (words_down i j) n ++ drop (n * 4) out.old) × (Listed f.now t.new result) }
{
    let gap = gap_of(h);
    let mut y = x;
    for m in 0..n {
        let w = words_at(f, l, i, j + m as u64, gap, h, s, t, y);
        put_words(&mut out[m * 4..], w);
        let gone = match w {
            Ok(Some(part)) => part.len,
            _ => 0,
        };
        y = listed(t, f, y, gone);
    }
    y
}

// The label words of variable `i` in `n` observations from `j` on, four numbers each, where `c` is where its cells stand, `s` its label set, and `t` and `x` tell of
// the ends that are listed, `x` being none where there are none; what then is: where no ends are listed `t` begins with 0. `t` and `x` stay two: what they say is true
// of a file, which a struct of both would not have.
pub fn words_in(
    f: &[u8],
    l: Layout,
    i: u64,
    j: u64,
    n: usize,
    c: Result<Column, Refusal>,
    s: Result<Option<LabelSet>, Refusal>,
    t: &mut [u32; 20737],
    x: Option<Listing>,
    out: &mut [u64],
) -> Option<Listing>
    requires { (ColumnGiven f.now (layout_by l) i c s) × (ListingFits f.now t.old x) × (n * 4 ≤ length out.old) × (j + n ≤ 18446744073709551616) }
    ensures { (out.new ≡ told f.now (layout_by l) (words_down i j) n ++ drop (n * 4) out.old) × (ListingFits f.now t.new result) × (Cheap result) × (Unlisted result t.new) }
{
    let h = cell_runs::held_by(l, c);
    let area = match (s, h) {
        (Ok(set), Ok(held)) => text_area(f, set, held.o.msf),
        _ => None,
    };
    let y = begun(t, f, resumed(x, area));
    words_from(f, &l, i, j, n, &h, s, t, y, out)
}

// The label words of variable `i` from observation `j` on, four numbers each, as many as `out` has room for.
pub fn words_down(f: &[u8], l: Layout, i: u64, j: u64, out: &mut [u64]) -> Result<usize, Refusal>
    ensures { Tells f.now (layout_by l) i j (words_down i j) (following j l.n) out.old out.new result }
{
    let n = cell_runs::run_of(l, i, j, j, l.n, out.len())?;
    let c = columns::column_of(f, l, i);
    let s = label_words::set_of(f, l, i);
    let mut t = [0u32; 20737];
    words_in(f, l, i, j, n, c, s, &mut t, None, &mut out[..]);
    Ok(n)
}
