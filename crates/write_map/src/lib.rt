#![tactic(auto)]

ghost use Rattle.std.specs.Prelude.{◌≡◌, [], ◌++◌, true, cond, ◌+◌, ◌≤◌, length, drop};
ghost use Rattle.format.specs.Slot.{fill};
ghost use Rattle.format.specs.Number.{order_by};
ghost use Rattle.format.specs.Grammar.{number, all_slots};
ghost use Rattle.format.specs.Variables.{file_map};
ghost use Rattle.writing.specs.Writes.{Puts};

// The fourteen positions, each in 8 bytes.
fn put_positions(out: &mut [u8], places: [u64; 14], msf: bool)
    requires { (length places ≡ 14) × (112 ≤ length out.old) }
    ensures { out.new ≡ fill (all_slots (number (order_by msf) 8) places) ++ drop 112 out.old }
{
    for i in 0..14 {
        number::put_number(&mut out[i * 8..], places[i], 8, msf);
    }
}

// The map of a tagged edition: the positions between their tags.
fn put_tagged(out: &mut [u8], places: [u64; 14], msf: bool) -> usize
    requires { (length places ≡ 14) × (123 ≤ length out.old) }
    ensures { Puts (fill ((file_map true (order_by msf)).slots places)) out.old out.new result }
{
    let a = writing::put_tag(&mut out[..], b"<map>", true);
    put_positions(&mut out[a..], places, msf);
    let b = a + 112;
    b + writing::put_tag(&mut out[b..], b"</map>", true)
}

// The map with these places; an untagged edition has none.
pub fn put_map(out: &mut [u8], places: [u64; 14], tagged: bool, msf: bool) -> usize
    requires { (length places ≡ 14) × (cond tagged 123 0 ≤ length out.old) }
    ensures { Puts (fill ((file_map tagged (order_by msf)).slots (cond tagged places []))) out.old out.new result }
{
    if tagged {
        put_tagged(out, places, msf)
    } else {
        0
    }
}
