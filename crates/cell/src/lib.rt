#![tactic(auto)]

ghost use Rattle.std.specs.Prelude.{◌≡◌, ◌+◌, ◌*◌, ◌<◌, ◌≤◌, length};
ghost use Rattle.format.specs.Number.{order_by};
ghost use Rattle.format.specs.Cells.{outside, says_whole, says_real, says_float, says_double, says_at, key_real, key_of};
ghost use Rattle.number.specs.Numbers.{IsNumber};
ghost use Rattle.codes.specs.Fields.{type_of};
ghost use Rattle.cell.specs.Cells.{says, Lettered, HasCell, IsCell, sought};

use codes::Kind;

// What a cell says: a whole number, a float or a double; a missing letter, 0 for `.` and 1 to 26 for `.a` to `.z`; between two letters or
// after the last; outside; a text, by its place and length in the file; a long-string reference.
#[derive(Clone, Copy)]
pub enum Cell {
    Whole(i32),
    Single(f32),
    Double(f64),
    Letter(u8),
    Between,
    Outside,
    Text(usize, usize),
    Reference(u64, u64),
}

// A byte, int or long by its bits: `half` is 128, 32768 or 2^31.
pub fn whole_cell(n: u32, half: u32) -> Cell
    requires { (27 < half) × (half ≤ 2147483648) × (n < 2 * half) }
    ensures { says result ≡ says_whole half n }
{
    if n < half - 27 {
        return Cell::Whole(n as i32);
    }
    if n < half {
        return Cell::Letter((n - (half - 27)) as u8);
    }
    if n == half {
        return Cell::Outside;
    }
    Cell::Whole(-1 - ((half - 1 - (n - half)) as i32))
}

// What the bits of a float or double say that are no number's: letters start at `FIRST` and are `GAP` apart, up to plus infinity, `TOP`.
fn missing_cell<const FIRST: u64, const GAP: u64, const TOP: u64>(bits: u64) -> Cell
    requires { (FIRST ≤ bits) × (0 < GAP) }
    ensures { says result ≡ says_real FIRST GAP TOP 1 0 outside bits }
{
    if TOP < bits {
        return Cell::Outside;
    }
    let d = bits - FIRST;
    let k = d / GAP;
    if d % GAP == 0 && k <= 26 {
        return Cell::Letter(k as u8);
    }
    Cell::Between
}

// A float by its bits.
pub fn float_cell(bits: u32) -> Cell
    ensures { says result ≡ says_float bits }
{
    if bits < 0x7f000000 || (0x80000000 <= bits && bits <= 0xfeffffff) {
        return Cell::Single(f32::from_bits(bits));
    }
    missing_cell::<0x7f000000, 2048, 0x7f800000>(bits as u64)
}

// A double by its bits.
pub fn double_cell(bits: u64) -> Cell
    ensures { says result ≡ says_double bits }
{
    if bits < 0x7fe0000000000000 || (0x8000000000000000 <= bits && bits <= 0xffefffffffffffff) {
        return Cell::Double(f64::from_bits(bits));
    }
    missing_cell::<0x7fe0000000000000, 1099511627776, 0x7ff0000000000000>(bits)
}

// The bits of a cell of at most 4 bytes.
fn bits_at(f: &[u8], p: usize, w: usize, msf: bool) -> u32
    requires { (p + w ≤ length f.now) × (w ≤ 4) }
    ensures { IsNumber (order_by msf) w f.now p result }
{
    number::number(f, p, w, msf) as u32
}

// The cell at `p`, of a kind and width; `vw` and `ow` are the widths of v and o in a strL cell.
pub fn cell_at(
    f: &[u8],
    p: usize,
    kind: Kind,
    width: usize,
    vw: usize,
    ow: usize,
    msf: bool,
) -> Cell
    requires { HasCell f.now p kind width vw ow }
    ensures { IsCell (says_at (order_by msf) vw ow (type_of kind width) f.now p) result }
{
    match kind {
        Kind::Text => Cell::Text(p, text::text_len(f, p, width)),
        Kind::StrL => {
            let v = number::number(f, p, vw, msf);
            let o = number::number(f, p + vw, ow, msf);
            Cell::Reference(v, o)
        }
        Kind::Byte => whole_cell(bits_at(f, p, 1, msf), 128),
        Kind::Int => whole_cell(bits_at(f, p, 2, msf), 32768),
        Kind::Long => whole_cell(bits_at(f, p, 4, msf), 2147483648),
        Kind::Float => float_cell(bits_at(f, p, 4, msf)),
        Kind::Double => double_cell(number::number(f, p, 8, msf)),
        Kind::Unknown => Cell::Outside,
    }
}

// The whole number that a double is exactly, where it is in the range of a long's numbers.
fn double_key(x: f64) -> Option<i32>
    ensures { sought result ≡ key_real x }
{
    if x > -2147483648.0 && x < 2147483621.0 {
        let t = std::num::truncating_f64_to_i64(x);
        if std::num::nearest_i64_to_f64(t) == x {
            return Some(t as i32);
        }
    }
    None
}

// The same for a float: its double is the same number.
fn single_key(x: f32) -> Option<i32>
    ensures { sought result ≡ key_real x }
{
    double_key(std::num::f32_to_f64_with_nan(x))
}

// What a cell seeks in a label table.
pub fn key_of(c: Cell) -> Option<i32>
    requires { Lettered (says c) }
    ensures { sought result ≡ key_of (says c) }
{
    match c {
        Cell::Whole(n) => Some(n),
        Cell::Single(x) => single_key(x),
        Cell::Double(x) => double_key(x),
        Cell::Letter(k) => Some(2147483621 + (k as i32)),
        Cell::Between | Cell::Outside | Cell::Text(_, _) | Cell::Reference(_, _) => None,
    }
}
