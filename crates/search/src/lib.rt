#![tactic(auto)]

ghost use Rattle.std.specs.Prelude.{◌≡◌, ◌+◌, ◌<◌, ◌≤◌, length};
ghost use Rattle.format.specs.Number.{order_by, num};
ghost use Rattle.format.specs.Cells.{signed_by};
ghost use Rattle.format.specs.Search.{search_at};
ghost use Rattle.search.specs.Slots.{slot_of};

// Where a value stands in a label table: the three ends that the search of the format has, so no Option.
#[derive(Clone, Copy)]
pub enum Slot {
    Found(usize),
    Missing,
    // a value that was to be compared passes the table's end
    Lost,
}

// A number of four bytes, as a signed number.
fn signed_of(n: u64) -> i32
    requires { n < 4294967296 }
    ensures { result ≡ signed_by 2147483648 n }
{
    (n as u32).cast_signed()
}

// The signed number of four bytes at `q`.
fn value_at(f: &[u8], q: usize, msf: bool) -> i32
    requires { q + 4 ≤ length f.now }
    ensures { result ≡ signed_by 2147483648 (num (order_by msf) 4 f.now q) }
{
    signed_of(number::number(f, q, 4, msf))
}

// The slot of `sought` among the `n` values at `p` of a table that ends at `end`, by the published halving search: also in a table out of order.
// `lo` is its `lb`, and `hi` is one more than its `ub`.
pub fn find_value(f: &[u8], p: usize, end: usize, n: usize, msf: bool, sought: i32) -> Slot
    requires { (end ≤ length f.now) × (p ≤ 2147483647) × (n < 4294967296) }
    ensures { slot_of result ≡ (search_at (order_by msf) f.now p end n sought).slot }
{
    let mut lo = 0;
    let mut hi = n;
    while lo < hi {
        let k = (lo + (hi - 1)) / 2;
        let q = p + 4 * k;
        if end < q + 4 {
            return Slot::Lost;
        }
        let value = value_at(f, q, msf);
        if sought == value {
            return Slot::Found(k);
        }
        if sought < value {
            hi = k;
        } else {
            lo = k + 1;
        }
    }
    Slot::Missing
}
