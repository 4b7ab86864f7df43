// Label-set names of variables in order: by the first byte that differs, and a name before those that it begins.

#![tactic(auto)]

ghost use Rattle.std.specs.Prelude.{◌≡◌, true, ◌+◌, ◌≤◌, length};
ghost use Rattle.questions.specs.Ask.{slice};
ghost use Rattle.checking.specs.Checks.{layout_by};
ghost use Rattle.set_names.specs.Names.{IsName, less, in_order, IsFirst};

use answers::Part;
use checking::Layout;
use refusal::Refusal;

// The label-set name of variable `i`; an empty text where it is refused.
pub fn name_of(f: &[u8], l: Layout, i: u64) -> Part
    ensures { IsName f.now (layout_by l) i result }
{
    text_facts::set_name(f, l, i).unwrap_or(Part { at: 0, len: 0 })
}

// Whether the text `a` stands before the text `b`.
pub fn is_less(f: &[u8], a: Part, b: Part) -> bool
    requires { (a.at + a.len ≤ length f.now) × (b.at + b.len ≤ length f.now) }
    ensures { result ≡ less (slice f.now a.at a.len) (slice f.now b.at b.len) }
{
    answers::part_of::<Refusal>(f, Ok(a)) < answers::part_of::<Refusal>(f, Ok(b))
}

// Whether the variables are listed in the order of their label-set names.
pub fn in_order(f: &[u8], l: Layout, v: &[u64]) -> bool
    ensures { result ≡ in_order f.now (layout_by l) v.now }
{
    for k in 1..v.len() {
        let a = name_of(f, l, v[k - 1]);
        let b = name_of(f, l, v[k]);
        if is_less(f, b, a) {
            return false;
        }
    }
    true
}

// How many of the variables have a name that stands before a text, where they are listed in the order of their names: by halving.
pub fn first_from(f: &[u8], l: Layout, v: &[u64], text: Part) -> usize
    requires { (in_order f.now (layout_by l) v.now ≡ true) × (text.at + text.len ≤ length f.now) }
    ensures { IsFirst f.now (layout_by l) v.now (slice f.now text.at text.len) result }
{
    let mut low: usize = 0;
    let mut high = v.len();
    while low < high {
        let m = low + (high - low) / 2;
        let name = name_of(f, l, v[m]);
        if is_less(f, name, text) {
            low = m + 1;
        } else {
            high = m;
        }
    }
    low
}
