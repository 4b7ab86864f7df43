#![tactic(auto)]

ghost use Rattle.std.specs.Prelude.{◌≡◌, ◌+◌};
ghost use Rattle.format.specs.Number.{order_by};
ghost use Rattle.refusal.specs.Refusals.{refusal_by};
ghost use Rattle.questions.specs.Ask.{in_range, answer_of, ask_column, ask_cell};
ghost use Rattle.checking.specs.Checks.{layout_by};
ghost use Rattle.columns.specs.Columns.{column_by};
ghost use Rattle.cells.specs.Cells.{said_by, is_text, TextSaid, HasKind, CellSaid, row_numbered, RowRead, RowTold};
ghost use Rattle.codes.specs.Fields.{type_of};

use cell::Cell;
use checking::Layout;
use codes::{Field, Kind};
use columns::Column;
use refusal::{Refusal, Told};

// Whether the kind is a text.
fn is_text(kind: Kind) -> bool
    ensures { result ≡ is_text kind }
{
    matches!(kind, Kind::Text)
}

// The text of a cell of `width` bytes at `p`.
fn read_text(f: &[u8], p: u64, width: usize) -> Result<Cell, Refusal>
    ensures { TextSaid width f.now p result }
{
    let n = reading::text_in(f, p, width).ok_or(Refusal::NotReadable)?;
    Ok(Cell::Text(p as usize, n as usize))
}

// The cell of a kind and width at `p`: all its bytes must be in the file, of a text those up to its first zero.
fn read_cell(
    f: &[u8],
    p: u64,
    field: Field,
    vw: usize,
    ow: usize,
    msf: bool,
) -> Result<Cell, Refusal>
    requires { HasKind field.kind field.width vw ow }
    ensures { CellSaid vw ow (order_by msf) f.now (type_of field.kind field.width) p result }
{
    let Field { kind, width } = field;
    if is_text(kind) {
        return read_text(f, p, width);
    }
    let q = p as usize;
    if f.len() < q || f.len() - q < width {
        return Err(Refusal::NotReadable);
    }
    Ok(cell::cell_at(f, q, kind, width, vw, ow, msf))
}

// The refusal of the rows, by that of their column: 16 stays, any other is 17.
fn refusal_of_rows<E: Told>(e: E) -> Refusal
    ensures { result ≡ refusal_by (E.own e) }
{
    if e.own() == 16 {
        return Refusal::NotThere;
    }
    Refusal::NotReadable
}

// Where row `j` of `n` stands, from `start + gap` on, where `width` is that of a row, or the refusal of the column, told by any number.
pub fn row_in<E: Told>(
    f: &[u8],
    width: Result<u64, E>,
    j: u64,
    n: u64,
    start: u64,
    gap: u64,
) -> Result<u64, Refusal>
    ensures { result ≡ row_numbered E.own f.now width j n (start + gap) }
{
    if !reading::is_among(j, n) {
        return Err(Refusal::NotThere);
    }
    match width {
        Ok(w) => reading::place_in(f, start, gap, j - 1, w).ok_or(Refusal::NotReadable),
        Err(e) => Err(refusal_of_rows(e)),
    }
}

// The cell of the column `c` in a row, in an edition with these widths of v and o; a refusal of the row stays, told by any number.
pub fn cell_in_row<E: Told>(
    f: &[u8],
    row: Result<u64, E>,
    c: Column,
    vw: usize,
    ow: usize,
    msf: bool,
) -> Result<Cell, E>
    requires { RowRead f.now row c.field.kind c.field.width vw ow }
    ensures { RowTold E.told vw ow (order_by msf) f.now row (type_of c.field.kind c.field.width) c.offset result }
{
    let p = row?;
    if (f.len() as u64 - p) < c.offset {
        return Err(E::tell(Refusal::NotReadable));
    }
    refusal::retell(read_cell(f, p + c.offset, c.field, vw, ow, msf))
}

// Whether there is a cell `i`, `j`.
pub fn is_cell(l: Layout, i: u64, j: u64) -> bool
    ensures { result ≡ in_range (layout_by l) (ask_cell i j) }
{
    reading::is_among(i, l.k) && reading::is_among(j, l.n)
}

// What cell `i`, `j` says, where `c` is where the cells of variable `i` stand.
pub fn cell_in_column(
    f: &[u8],
    l: Layout,
    c: Result<Column, Refusal>,
    i: u64,
    j: u64,
) -> Result<Cell, Refusal>
    requires { c ≡ column_by (answer_of f.now (layout_by l) (ask_column i)) }
    ensures { result ≡ said_by (answer_of f.now (layout_by l) (ask_cell i j)) }
{
    let o = answers::opened(is_cell(l, i, j), l.edition, l.order)?;
    let c = c?;
    let gap = reading::tag_size(o.e.tagged, 6);
    let row = row_in::<Refusal>(f, Ok(c.row), j, l.n, l.places[9], gap);
    cell_in_row(f, row, c, o.e.v_width, o.e.o_width, o.msf)
}

// What cell `i`, `j` says.
pub fn cell_of(f: &[u8], l: Layout, i: u64, j: u64) -> Result<Cell, Refusal>
    ensures { result ≡ said_by (answer_of f.now (layout_by l) (ask_cell i j)) }
{
    let c = columns::column_of(f, l, i);
    cell_in_column(f, l, c, i, j)
}
