// The functions that programs in other languages call: numbers and slices alone.

#![tactic(auto)]

ghost use Rattle.std.specs.Prelude.{◌≡◌, ℕ, ◌≤◌, ◌++◌, length, drop};
ghost use Rattle.format.specs.Dta.{verdict, layout_of, no_layout};
ghost use Rattle.checking.specs.Checks.{layout_by};
ghost use Rattle.rewriting.specs.Rewriting.{rewrite_code, length_of, output_of};
ghost use Rattle.dta.specs.Exports.{numbers, laid, stored};

use checking::Layout;

// Stores a layout as eighteen numbers: edition, byte order, K, N, and the fourteen positions.
fn put_layout(out: &mut [u64], l: Layout)
    requires { (18 ≤ length out.old) × (length l.places ≡ 14) }
    ensures { out.new ≡ numbers (layout_by l) ++ drop 18 out.old }
{
    let places = l.places;
    out[0] = l.edition;
    out[1] = l.order;
    out[2] = l.k;
    out[3] = l.n;
    for i in 0..14 {
        out[4 + i] = places[i];
    }
}

// Stores it where there is room.
fn store_layout(out: &mut [u64], l: Layout)
    ensures { out.new ≡ laid (layout_by l) out.old }
{
    if 18 <= out.len() {
        put_layout(out, l);
    }
}

// All zeros: the layout that is stored with a refusal.
fn no_layout() -> Layout
    ensures { layout_by result ≡ no_layout }
{
    Layout {
        edition: 0,
        order: 0,
        k: 0,
        n: 0,
        places: [0; 14],
    }
}

// The verdict on a file, 0 to 13. The file's layout is stored as eighteen numbers, all zeros with a refusal; a `layout` with no room for
// them is left as it came.
#[unsafe(no_mangle)]
pub extern "C" fn dta_check(file: &[u8], layout: &mut [u64]) -> u8
    ensures { (result ≡ verdict file.now) × (layout.new ≡ laid (layout_of file.now) layout.old) }
{
    match checking::check(file) {
        Ok(l) => {
            store_layout(layout, l);
            0
        }
        Err(refusal) => {
            store_layout(layout, no_layout());
            refusal.number()
        }
    }
}

// Stores a number in the first place of `out`, where it has one.
fn put_first(out: &mut [u64], n: u64)
    ensures { out.new ≡ stored n out.old }
{
    if 1 <= out.len() {
        out[0] = n;
    }
}

// Rewrites a file to an edition and a byte order (1: MSF, 2: LSF), at the start of `out`: 0, or the refusal's number. The result's length, 0
// with a refusal, is stored in the first place of `len`, where it has one.
#[unsafe(no_mangle)]
pub extern "C" fn dta_rewrite(
    file: &[u8],
    edition: u64,
    order: u64,
    out: &mut [u8],
    len: &mut [u64],
) -> u8
    ensures { (result ≡ rewrite_code file.now edition order (length out.old)) × (out.new ≡ output_of file.now edition order out.old) × (len.new ≡ stored (length_of file.now edition order (length out.old)) len.old) }
{
    match rewriting::rewrite(file, edition, order, &mut out[..]) {
        Ok(n) => {
            put_first(&mut len[..], n as u64);
            0
        }
        Err(refusal) => {
            put_first(&mut len[..], 0);
            refusal.number()
        }
    }
}
