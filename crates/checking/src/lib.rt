#![tactic(auto)]

ghost use Rattle.std.specs.Prelude.{◌≡◌, cond, ℕ, ◌+◌, ◌≤◌, length, Ok};
ghost use Rattle.format.specs.Number.{order_by};
ghost use Rattle.format.specs.Grammar.{read_times};
ghost use Rattle.format.specs.Edition.{order_mark};
ghost use Rattle.format.specs.Variables.{type_code};
ghost use Rattle.format.specs.Data.{strls};
ghost use Rattle.editions.specs.Editions.{numbers_of};
ghost use Rattle.header.specs.Heads.{Begun};
ghost use Rattle.lists.specs.Walks.{Narrow};
ghost use Rattle.section.specs.Judged.{Judged};
ghost use Rattle.data.specs.Places.{Typed};
ghost use Rattle.checking.specs.Walks.{Wide, rows, Rested, Sectioned};
ghost use Rattle.checking.specs.Checks.{Checks};

use editions::{Edition, Release};
use refusal::Refusal;
use strls::Frame;

// A layout: edition, byte order (1 MSF, 2 LSF), K, N, and the fourteen positions.
#[derive(Clone, Copy)]
pub struct Layout {
    pub edition: u64,
    pub order: u64,
    pub k: u64,
    pub n: u64,
    pub places: [u64; 14],
}

impl Layout {
    // All zeros, as it is told of a file that is refused.
    pub const NONE: Layout = Layout {
        edition: 0,
        order: 0,
        k: 0,
        n: 0,
        places: [0; 14],
    };
}

// What all sections say that are right: K, N, where the map starts, and the fourteen positions.
#[derive(Clone, Copy)]
struct Walk {
    k: usize,
    n: usize,
    map: usize,
    places: [u64; 14],
}

// How many bytes a tag of `n` bytes has in an edition that is tagged or not.
fn tag_size(tagged: bool, n: usize) -> usize
    ensures { result ≡ cond tagged n 0 }
{
    if tagged { n } else { 0 }
}

// The long strings at `p`, where the data ends that is right: `n` observations from `x` on, of `k` variables with the type list at `types`.
fn long_strings(
    f: &[u8],
    p: usize,
    e: Edition,
    types: usize,
    k: usize,
    x: usize,
    n: usize,
    msf: bool,
) -> Result<usize, Refusal>
    requires { (Typed e.tagged (order_by msf) f.now types k) × (Wide e) × (Judged (rows e (order_by msf) f.now types k n) f.now x (Ok p)) }
    ensures { Judged (strls e.tagged (order_by msf) e.record_width ((rows e (order_by msf) f.now types k n).read f.now x)) f.now p result }
{
    let g = Frame {
        types,
        k,
        data: x + tag_size(e.tagged, 6),
        n,
        tagged: e.tagged,
        msf,
        vwidth: e.v_width,
        owidth: e.o_width,
        rwidth: e.record_width,
    };
    strls::strl_list(f, p, g)
}

// Expansion blocks, data, long strings and label blocks, to the end of the file; the type list of the `k` variables is at `types`: the
// positions 9 to 13.
fn later_sections(
    f: &[u8],
    p: usize,
    e: Edition,
    types: usize,
    k: usize,
    n: usize,
    msf: bool,
) -> Result<[usize; 5], Refusal>
    requires { (p ≤ length f.now) × (n ≤ 2147483647) × (Typed e.tagged (order_by msf) f.now types k) × (Narrow e) × (Wide e) }
    ensures { Rested (numbers_of e) (order_by msf) n (read_times (type_code e.tagged (order_by msf)) k f.now types) f.now p result }
{
    let x = expansion::expansion_list(f, p, e.tagged, msf)?;
    let d = data::data_list(f, x, types, k, n, e.tagged, msf)?;
    let s = long_strings(f, d, e, types, k, x, n, msf)?;
    labels::label_list(f, s, e.tagged, e.name_width, msf)?;
    Ok([x, d, s, f.len() - tag_size(e.tagged, 12), f.len()])
}

// All sections of a file of the edition `e`, which it begins as.
fn sections(f: &[u8], e: Edition, msf: bool) -> Result<Walk, Refusal>
    requires { (Begun f.now e) × (Narrow e) × (Wide e) }
    ensures { Sectioned (numbers_of e) (order_by msf) f.now result }
{
    let h = header::header(f, e, msf)?;
    let m = map::map_list(f, h.at, e.tagged)?;
    let l = lists::list_parts(f, m, e, h.k, msf)?;
    let types = m + tag_size(e.tagged, 16);
    let r = later_sections(f, l[5], e, types, h.k, h.n, msf)?;
    let places = [
        0,
        h.at as u64,
        m as u64,
        l[0] as u64,
        l[1] as u64,
        l[2] as u64,
        l[3] as u64,
        l[4] as u64,
        l[5] as u64,
        r[0] as u64,
        r[1] as u64,
        r[2] as u64,
        r[3] as u64,
        r[4] as u64,
    ];
    Ok(Walk {
        k: h.k,
        n: h.n,
        map: h.at,
        places,
    })
}

// The byte order as a layout has it.
fn order_mark(msf: bool) -> u64
    ensures { result ≡ order_mark (order_by msf) }
{
    if msf { 1 } else { 2 }
}

// The layout of a file that is accepted.
pub fn check(f: &[u8]) -> Result<Layout, Refusal>
    ensures { Checks f.now result }
{
    if f.len() as u64 > format::length_max() {
        return Err(Refusal::TooLong);
    }
    let release = Release::of(f).ok_or(Refusal::UnknownBeginning)?;
    let e = release.numbers();
    let msf = editions::is_msf(f, e.tagged);
    let s = sections(f, e, msf)?;
    let places = s.places;
    if !map::map_right(f, s.map, e.tagged, places, msf) {
        return Err(Refusal::WrongMap);
    }
    Ok(Layout {
        edition: e.number as u64,
        order: order_mark(msf),
        k: s.k as u64,
        n: s.n as u64,
        places,
    })
}
