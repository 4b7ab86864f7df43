// Cells one after another, down a column or along a row, for callers who read many: none costs more than its own bytes and, along a row, its
// type code.

#![tactic(auto)]

ghost use Rattle.std.specs.Prelude.{◌≡◌, ◌++◌, ℕ, ◌+◌, ◌*◌, ◌≤◌, ◌<◌, length, drop, Err};
ghost use Rattle.format.specs.Number.{order_by};
ghost use Rattle.format.specs.Edition.{n_variable_types};
ghost use Rattle.questions.specs.Ask.{place, start_of, answer_of, ask_cell};
ghost use Rattle.checking.specs.Checks.{layout_by};
ghost use Rattle.columns.specs.Columns.{capped};
ghost use Rattle.cells.specs.Cells.{said_by};
ghost use Rattle.data.specs.Places.{field_at};
ghost use Rattle.asking.specs.Asking.{answer_by, by_cell};
ghost use Rattle.coded.specs.Coded as Coded;
ghost use Rattle.coded.specs.Coded.{numbers_of, Tells};
ghost use Rattle.cell_runs.specs.Next.{column_after, NextInside};
ghost use Rattle.cell_runs.specs.Held.{held_by, held, times};

use cell::Cell;
use checking::Layout;
use columns::Column;
use reading::Opened;
use refusal::Refusal;

// Where a variable's cells stand, and the edition and byte order they are read with.
#[derive(Clone, Copy)]
pub struct Held {
    pub o: Opened,
    pub c: Column,
}

// The column `c`, with the edition and byte order of the layout.
pub fn held_by(l: Layout, c: Result<Column, Refusal>) -> Result<Held, Refusal>
    ensures { result ≡ held_by (layout_by l) c }
{
    let o = answers::opened(true, l.edition, l.order)?;
    let c = c?;
    Ok(Held { o, c })
}

// What cell `i`, `j` says, where `h` is the column of variable `i`.
pub fn cell_in(
    f: &[u8],
    l: &Layout,
    h: &Result<Held, Refusal>,
    i: u64,
    j: u64,
) -> Result<Cell, Refusal>
    requires { h.now ≡ held f.now (layout_by l.now) i }
    ensures { result ≡ said_by (answer_of f.now (layout_by l.now) (ask_cell i j)) }
{
    if !cells::is_cell(*l, i, j) {
        return Err(Refusal::NotThere);
    }
    match h {
        Ok(h) => {
            let gap = reading::tag_size(h.o.e.tagged, 6);
            let row = cells::row_in::<Refusal>(f, Ok(h.c.row), j, l.n, l.places[9], gap);
            cells::cell_in_row(f, row, h.c, h.o.e.v_width, h.o.e.o_width, h.o.msf)
        }
        Err(e) => Err(*e),
    }
}

// The place of the type codes.
pub fn types_of(l: Layout, tagged: bool) -> u64
    ensures { result ≡ capped (start_of tagged (layout_by l) 2 n_variable_types) }
{
    place_of(l, 2).saturating_add(reading::tag_size(tagged, 16))
}

// Where the cells of variable `i + 1` stand, where `c` is where those of variable `i` do, and `types` is the type codes' place.
pub fn column_after(f: &[u8], types: u64, c: Column, i: u64, tagged: bool, msf: bool) -> Column
    requires { NextInside tagged f.now types i }
    ensures { result ≡ column_after (field_at tagged (order_by msf) f.now types i) c }
{
    Column {
        field: data::field_at(f, types as usize, i as usize, tagged, msf),
        offset: c.offset.saturating_add(c.field.width as u64),
        row: c.row,
    }
}

// Position `k` of the layout.
pub fn place_of(l: Layout, k: usize) -> u64
    requires { k < 14 }
    ensures { result ≡ place (layout_by l) k }
{
    l.places[k]
}

// The lesser, of numbers of two types: `min` takes one.
pub fn least(a: usize, b: u64) -> usize
    ensures { result ≡ Coded.least a b }
{
    if a as u64 <= b { a } else { b as usize }
}

// How many numbers there are from `i` up to `k`.
pub fn following(i: u64, k: u64) -> u64
    ensures { result ≡ Coded.following i k }
{
    if !reading::is_among(i, k) {
        return 0;
    }
    k - i + 1
}

// The answer of a run that begins with the cell of variable `i` and observation `j`: 16 where there is no such cell; else how many answers of four
// numbers `room` numbers can hold, at most those from `first` up to `last`.
pub fn run_of(
    l: Layout,
    i: u64,
    j: u64,
    first: u64,
    last: u64,
    room: usize,
) -> Result<usize, Refusal>
    ensures { result ≡ Coded.run_of (layout_by l) i j (Coded.following first last) room }
{
    if cells::is_cell(l, i, j) {
        return Ok(least(room / 4, following(first, last)));
    }
    Err(Refusal::NotThere)
}

// Stores what a cell says at the start of `out`.
fn put_said(out: &mut [u64], said: Result<Cell, Refusal>)
    requires { 4 ≤ length out.old }
    ensures { out.new ≡ numbers_of (answer_by (by_cell said)) ++ drop 4 out.old }
{
    coded::put_four(out, coded::answer_numbers(asking::by_cell(said)));
}

// Stores `n` times what cells say whose column is refused.
fn put_refused(out: &mut [u64], n: usize, refusal: Refusal)
    requires { n * 4 ≤ length out.old }
    ensures { out.new ≡ times n (numbers_of (answer_by (by_cell (Err refusal)))) ++ drop (n * 4) out.old }
{
    for m in 0..n {
        put_said(&mut out[m * 4..], Err(refusal));
    }
}

// The cells of variable `i` from observation `j` on, four numbers each, as many as `out` has room for.
pub fn cells_down(f: &[u8], l: Layout, i: u64, j: u64, out: &mut [u64]) -> Result<usize, Refusal>
    ensures { Tells f.now (layout_by l) i j (λ (m : ℕ). ask_cell i (j + m)) (Coded.following j l.n) out.old out.new result }
{
    let n = run_of(l, i, j, j, l.n, out.len())?;
    let h = match held_by(l, columns::column_of(f, l, i)) {
        Ok(h) => h,
        Err(e) => {
            put_refused(&mut out[..], n, e);
            return Ok(n);
        }
    };
    let start = place_of(l, 9);
    let gap = reading::tag_size(h.o.e.tagged, 6);
    for m in 0..n {
        let row = cells::row_in::<Refusal>(f, Ok(h.c.row), j + m as u64, l.n, start, gap);
        let x = cells::cell_in_row(f, row, h.c, h.o.e.v_width, h.o.e.o_width, h.o.msf);
        put_said(&mut out[m * 4..], x);
    }
    Ok(n)
}

// The cells of observation `j` from variable `i` on, four numbers each, as many as `out` has room for.
pub fn cells_along(f: &[u8], l: Layout, i: u64, j: u64, out: &mut [u64]) -> Result<usize, Refusal>
    ensures { Tells f.now (layout_by l) i j (λ (m : ℕ). ask_cell (i + m) j) (Coded.following i l.k) out.old out.new result }
{
    let n = run_of(l, i, j, i, l.k, out.len())?;
    let h = match held_by(l, columns::column_of(f, l, i)) {
        Ok(h) => h,
        Err(e) => {
            put_refused(&mut out[..], n, e);
            return Ok(n);
        }
    };
    let o = h.o;
    let types = types_of(l, o.e.tagged);
    let start = place_of(l, 9);
    let gap = reading::tag_size(o.e.tagged, 6);
    let row = cells::row_in::<Refusal>(f, Ok(h.c.row), j, l.n, start, gap);
    let mut c = h.c;
    for m in 0..n {
        let v = i + m as u64;
        let x = cells::cell_in_row(f, row, c, o.e.v_width, o.e.o_width, o.msf);
        put_said(&mut out[m * 4..], x);
        if v < l.k {
            c = column_after(f, types, c, v, o.e.tagged, o.msf);
        }
    }
    Ok(n)
}
