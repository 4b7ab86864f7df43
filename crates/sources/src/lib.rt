#![tactic(auto)]

ghost use Rattle.std.specs.Prelude.{◌≡◌, cond, ◌+◌, ◌≤◌, length};
ghost use Rattle.sources.specs.Sources.{Own, Sourced, Opens};

use checking::Layout;
use editions::Edition;
use refusal::Refusal;

// The numbers of an accepted file's edition, and whether its byte order is MSF; K and N; where the contents of its parts start: type list,
// names, sort list, display formats, label-set names, variable labels, rows, long strings, label blocks; where the last two end; and place
// and length of the dataset label and the stamp.
#[derive(Clone, Copy)]
pub struct Source {
    pub edition: Edition,
    pub msf: bool,
    pub k: usize,
    pub n: usize,
    pub types: usize,
    pub names: usize,
    pub sort: usize,
    pub formats: usize,
    pub sets: usize,
    pub labels: usize,
    pub rows: usize,
    pub longs: usize,
    pub longsend: usize,
    pub blocks: usize,
    pub blocksend: usize,
    pub lat: usize,
    pub llen: usize,
    pub sat: usize,
    pub slen: usize,
}

// Where the content of a part at `p` starts: after its opening tag, of `n` bytes in a tagged edition.
fn start(p: u64, tagged: bool, n: usize) -> usize
    requires { (p ≤ 2147483647) × (n ≤ 20) }
    ensures { result ≡ p + cond tagged n 0 }
{
    if tagged { p as usize + n } else { p as usize }
}

// Where the content of a part that ends at `p` ends: before its closing tag.
fn end(p: u64, tagged: bool, n: usize) -> usize
    requires { (p ≤ 2147483647) × (cond tagged n 0 ≤ p) }
    ensures { result + cond tagged n 0 ≡ p }
{
    if tagged { p as usize - n } else { p as usize }
}

// Where the contents of an accepted file's parts stand, by its layout.
pub fn source_of(f: &[u8], l: Layout) -> Source
    requires { Own f.now l }
    ensures { Sourced f.now result }
{
    let edition = editions::numbers_of(l.edition);
    let msf = l.order == 1;
    let t = edition.tagged;
    let places = l.places;
    let a = header_facts::label(f, l).unwrap();
    let b = header_facts::stamp(f, l).unwrap();
    Source {
        edition,
        msf,
        k: l.k as usize,
        n: l.n as usize,
        types: start(places[2], t, 16),
        names: start(places[3], t, 10),
        sort: start(places[4], t, 10),
        formats: start(places[5], t, 9),
        sets: start(places[6], t, 19),
        labels: start(places[7], t, 17),
        rows: start(places[9], t, 6),
        longs: start(places[10], t, 7),
        longsend: end(places[11], t, 8),
        blocks: start(places[11], t, 14),
        blocksend: end(places[12], t, 15),
        lat: a.at as usize,
        llen: a.len as usize,
        sat: b.at as usize,
        slen: b.len as usize,
    }
}

// Checks a file, and finds its parts.
pub fn opened(f: &[u8]) -> Result<Source, Refusal>
    ensures { Opens f.now result }
{
    let l = checking::check(f)?;
    Ok(source_of(f, l))
}
