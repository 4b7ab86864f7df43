#![tactic(auto)]

ghost use Rattle.std.specs.Prelude.{◌≡◌, cond, ◌&&◌, ◌*◌, ◌≤◌, length, leb};
ghost use Rattle.format.specs.Slot.{fill};
ghost use Rattle.format.specs.Number.{order_by};
ghost use Rattle.format.specs.Grammar.{read_times, all_slots};
ghost use Rattle.format.specs.Edition.{code_width, text_max};
ghost use Rattle.format.specs.Variables.{code_of, has_type, type_code};
ghost use Rattle.format.specs.Dta.{all_types};
ghost use Rattle.codes.specs.Fields.{type_of};
ghost use Rattle.data.specs.Places.{Typed};
ghost use Rattle.writing.specs.Writes.{Puts};

use codes::Kind;

// The code of a type, by the kind and the width of its cells.
fn code_of(tagged: bool, kind: Kind, width: usize) -> u64
    ensures { result ≡ code_of tagged (type_of kind width) }
{
    match kind {
        Kind::Text => width as u64,
        Kind::StrL => 32768,
        Kind::Byte => if tagged { 65530 } else { 251 },
        Kind::Int => if tagged { 65529 } else { 252 },
        Kind::Long => if tagged { 65528 } else { 253 },
        Kind::Float => if tagged { 65527 } else { 254 },
        Kind::Double => if tagged { 65526 } else { 255 },
        Kind::Unknown => 0,
    }
}

// Whether the edition has the type.
fn has_type(tagged: bool, kind: Kind, width: usize) -> bool
    ensures { result ≡ has_type tagged (type_of kind width) }
{
    match kind {
        Kind::Text => 1 <= width && width <= if tagged { 2045 } else { 244 },
        Kind::StrL => tagged,
        Kind::Byte | Kind::Int | Kind::Long | Kind::Float | Kind::Double => true,
        Kind::Unknown => false,
    }
}

// Whether an edition has the types of the `k` type codes at `p`.
pub fn types_held(f: &[u8], p: usize, k: usize, tagged: bool, msf: bool, totagged: bool) -> bool
    requires { Typed tagged (order_by msf) f.now p k }
    ensures { result ≡ all_types totagged (read_times (type_code tagged (order_by msf)) k f.now p) }
{
    for i in 0..k {
        let x = data::field_at(f, p, i, tagged, msf);
        if !has_type(totagged, x.kind, x.width) {
            return false;
        }
    }
    true
}

// Puts the types of the `k` type codes at `p` as the codes of another edition; gives how many bytes.
pub fn put_types(
    out: &mut [u8],
    f: &[u8],
    p: usize,
    k: usize,
    tagged: bool,
    msf: bool,
    totagged: bool,
    tomsf: bool,
) -> usize
    requires { (Typed tagged (order_by msf) f.now p k) × (k * code_width totagged ≤ length out.old) }
    ensures { Puts (fill (all_slots (type_code totagged (order_by tomsf)) (read_times (type_code tagged (order_by msf)) k f.now p))) out.old out.new result }
{
    let w = codes::code_width(totagged);
    for i in 0..k {
        let x = data::field_at(f, p, i, tagged, msf);
        let c = code_of(totagged, x.kind, x.width);
        number::put_number(&mut out[i * w..], c, w, tomsf);
    }
    k * w
}
