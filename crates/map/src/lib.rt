#![tactic(auto)]

ghost use Rattle.std.specs.Prelude.{◌≡◌, ◌+◌, ◌*◌, ◌≤◌, List, [], cond, length};
ghost use Rattle.format.specs.Number.{order_by};
ghost use Rattle.format.specs.Grammar.{next};
ghost use Rattle.format.specs.Edition.{map_count};
ghost use Rattle.format.specs.Variables.{file_map};
ghost use Rattle.format.specs.Dta.{same_list};
ghost use Rattle.map.specs.Maps.{MapJudged, positions_at};

use refusal::Refusal;

// The bytes of the map's positions.
fn map_size(tagged: bool) -> usize
    ensures { result ≡ map_count tagged * 8 }
{
    if tagged { 112 } else { 0 }
}

// The map: fourteen positions, whatever they are; an untagged edition has none.
pub fn map_list(f: &[u8], p: usize, tagged: bool) -> Result<usize, Refusal>
    requires { p ≤ length f.now }
    ensures { MapJudged tagged f.now p result }
{
    let n = map_size(tagged);
    let at = section::opened(f, p, b"<map>", tagged, n)?;
    section::tag_or(f, at + n, b"</map>", Refusal::WrongTag, tagged)
}

// Whether the fourteen positions at `p` are these places.
fn map_same(f: &[u8], p: usize, places: [u64; 14], msf: bool) -> bool
    requires { (p + 112 ≤ length f.now) × (length places ≡ 14) }
    ensures { result ≡ same_list (positions_at (order_by msf) f.now p) places }
{
    for i in 0..14 {
        if number::number(f, p + i * 8, 8, msf) != places[i] {
            return false;
        }
    }
    true
}

// Whether the map at `p` says these places; an untagged edition has none.
pub fn map_right(f: &[u8], p: usize, tagged: bool, places: [u64; 14], msf: bool) -> bool
    requires { (next (file_map tagged (order_by msf)) f.now p ≤ length f.now) × (length places ≡ 14) }
    ensures { result ≡ same_list ((file_map tagged (order_by msf)).read f.now p) (cond tagged places []) }
{
    !tagged || map_same(f, p + 5, places, msf)
}
