#![tactic(auto)]

ghost use Rattle.std.specs.Prelude.{◌≡◌, cond, ◌+◌, ◌*◌, ◌≤◌};
ghost use Rattle.format.specs.Number.{order_by};
ghost use Rattle.format.specs.Dta.{sums};
ghost use Rattle.sources.specs.Sources.{Sourced, Known};
ghost use Rattle.plans.specs.Plans.{Sized, Small, sizes_by, Planned};

use editions::Edition;
use sources::Source;

// How many bytes the header, the rows, the long strings and the label blocks of a result have.
#[derive(Clone, Copy)]
pub struct Sizes {
    pub head: usize,
    pub rows: usize,
    pub longs: usize,
    pub blocks: usize,
}

// `k` fields of `w` bytes.
fn list_bytes(k: usize, w: usize) -> usize
    requires { (k ≤ 32768) × (w ≤ 321) }
    ensures { (result ≡ k * w) × (result ≤ 10518528) }
{
    k * w
}

// Where what follows a part at `p` stands, which has `n` bytes and, where `there`, tags of `tags` bytes.
fn next(p: u64, there: bool, tags: u64, n: usize) -> u64
    requires { (p ≤ 1099511627776) × (tags ≤ 200) × (n ≤ 8589934588) }
    ensures { (result ≡ p + (cond there tags 0 + n)) × (result ≤ p + 8589934788) }
{
    if there {
        p + (tags + n as u64)
    } else {
        p + n as u64
    }
}

// The sizes of the parts of the source `s`, as the edition `to` has them.
fn sizes_of(f: &[u8], s: Source, to: Edition) -> Sizes
    requires { (Sourced f.now s) × (Known to) }
    ensures { (Sized f.now to result) × (Small result) }
{
    let e = s.edition;
    let t = e.tagged;
    let u = to.tagged;
    let w = e.record_width;
    let x = to.record_width;
    let v = e.name_width;
    let y = to.name_width;
    Sizes {
        head: write_header::header_size(to, s.llen, s.slen),
        rows: s.n * data::row_width(f, s.types, s.k, t, s.msf),
        longs: write_strls::records_size(f, s.longs, s.longsend, t, s.msf, w, x),
        blocks: write_labels::blocks_size(f, s.blocks, s.blocksend, t, v, s.msf, u, y),
    }
}

// The positions of a result with `k` variables.
fn places_of(to: Edition, k: usize, z: Sizes) -> [u64; 14]
    requires { (Known to) × (k ≤ 32767) × (Small z) }
    ensures { result ≡ sums 0 (sizes_by to k z) }
{
    let t = to.tagged;
    let b2 = list_bytes(k, to.name_width);
    let p1 = z.head as u64;
    let p2 = next(p1, t, 123, 0);
    let p3 = next(p2, t, 33, list_bytes(k, codes::code_width(t)));
    let p4 = next(p3, t, 21, b2);
    let p5 = next(p4, t, 21, list_bytes(k + 1, 2));
    let p6 = next(p5, t, 19, list_bytes(k, to.format_width));
    let p7 = next(p6, t, 39, b2);
    let p8 = next(p7, t, 35, list_bytes(k, to.var_label_width));
    let p9 = next(p8, t, 30, 5);
    let p10 = next(p9, t, 13, z.rows);
    let p11 = next(p10, t, 15, z.longs);
    let p12 = next(p11, t, 29, z.blocks);
    let p13 = next(p12, t, 12, 0);
    [0, p1, p2, p3, p4, p5, p6, p7, p8, p9, p10, p11, p12, p13]
}

// The positions of the source `s`, as the edition `to` has it.
pub fn plan_of(f: &[u8], s: Source, to: Edition) -> [u64; 14]
    requires { (Sourced f.now s) × (Known to) }
    ensures { Planned f.now to result }
{
    let z = sizes_of(f, s, to);
    places_of(to, s.k, z)
}
