// The label tables of many variables, found in one pass over the label blocks: where the variables are listed in the order of their label-set names, those of
// a block's name are found by halving. In any other order nothing is found, and the caller looks for each by itself.

#![tactic(auto)]

ghost use Rattle.std.specs.Prelude.{◌≡◌, true, IfSome, ◌+◌, ◌≤◌, ◌<◌, length};
ghost use Rattle.std.specs.Option.{is_some};
ghost use Rattle.format.specs.Number.{order_by};
ghost use Rattle.questions.specs.Ask.{slice};
ghost use Rattle.checking.specs.Checks.{layout_by};
ghost use Rattle.set_names.specs.Names.{in_order};
ghost use Rattle.set_tables.specs.Tables.{table_of, is_next, Marks, Alike, Passed, number_of, Started, can_find, Found, Bare};

use answers::Part;
use checking::Layout;
use reading::Opened;
use refusal::Refusal;
use walks::LabelSet;

// The label set of a number, but for its length, where those for whose name there is no block answer `rest`. The table holds numbers, as an enum would take
// twice the memory, which is fixed.
pub fn table_of(rest: Result<(), Refusal>, x: u64) -> Result<Option<LabelSet>, Refusal>
    ensures { result ≡ table_of rest x }
{
    match x {
        0 => rest.and(Ok(None)),
        1 => Err(Refusal::NotThere),
        2 => Err(Refusal::NotReadable),
        3 => Ok(None),
        _ => Ok(Some(LabelSet { at: x - 4, len: 0 })),
    }
}

// Whether the variable at place `k` is one for which no block was found, and its label-set name is `text`.
fn is_next(t: &[u64; 32768], f: &[u8], l: Layout, v: &[u64], k: usize, text: Part) -> bool
    requires { (text.at + text.len ≤ length f.now) × (k < length v.now) × (length v.now ≤ 32768) }
    ensures { result ≡ is_next f.now (layout_by l) v.now (slice f.now text.at text.len) t.now k }
{
    if t[k] != 0 {
        return false;
    }
    let name = set_names::name_of(f, l, v[k]);
    answers::part_of::<Refusal>(f, Ok(name)) == answers::part_of::<Refusal>(f, Ok(text))
}

// Stores `x` for each variable whose label-set name is `text`, where no block was found for it.
fn mark(t: &mut [u64; 32768], f: &[u8], l: Layout, v: &[u64], text: Part, x: u64)
    requires { (in_order f.now (layout_by l) v.now ≡ true) × (Alike f.now (layout_by l) v.now t.old) × (text.at + text.len ≤ length f.now) × (length v.now ≤ 32768) × (length t.old ≡ 32768) }
    ensures { Marks f.now (layout_by l) v.now (slice f.now text.at text.len) x t.old t.new }
{
    let first = set_names::first_from(f, l, v, text);
    for k in first..v.len() {
        if !is_next(t, f, l, v, k, text) {
            return;
        }
        t[k] = x;
    }
}

// Goes through the label blocks from `start` on, in a part that ends at `end`, and stores where the table of each one stands; refused where one is not whole.
fn pass(
    t: &mut [u64; 32768],
    f: &[u8],
    l: Layout,
    v: &[u64],
    start: u64,
    end: u64,
    o: Opened,
) -> Result<(), Refusal>
    requires { (in_order f.now (layout_by l) v.now ≡ true) × (Alike f.now (layout_by l) v.now t.old) × (length v.now ≤ 32768) × (length t.old ≡ 32768) × (o.e.name_width ≤ 65535) }
    ensures { Passed o.e.tagged o.e.name_width (order_by o.msf) f.now (layout_by l) v.now end start t.old t.new result }
{
    let tagged = o.e.tagged;
    let w = o.e.name_width;
    let mut p = start;
    while p < end {
        let b = walks::block_at(f, p, end, tagged, w, o.msf).ok_or(Refusal::NotReadable)?;
        let s = p + walks::open_size(tagged);
        let at = s + (7 + w as u64);
        let name = Part {
            at: s + 4,
            len: b.name,
        };
        mark(t, f, l, v, name, at + 4);
        p = at + b.table + walks::close_size(tagged);
    }
    Ok(())
}

// The number of a variable whose label-set name has this answer, before a block is looked at: refused, without a name, or to be found.
fn number_of(p: Result<Part, Refusal>) -> u64
    ensures { result ≡ number_of p }
{
    match p {
        Err(Refusal::NotThere) => 1,
        Err(_) => 2,
        Ok(Part { len: 0, .. }) => 3,
        Ok(_) => 0,
    }
}

// Stores these numbers.
fn start_numbers(t: &mut [u64; 32768], f: &[u8], l: Layout, v: &[u64])
    requires { (length v.now ≤ 32768) × (length t.old ≡ 32768) }
    ensures { Started f.now (layout_by l) v.now t.new }
{
    for k in 0..v.len() {
        t[k] = number_of(text_facts::set_name(f, l, v[k]));
    }
}

// Finds the label tables of the variables, which `table_of` then tells by their numbers, where they are listed in the order of their label-set names and are at
// most 32,768; and what a variable answers for whose name there is no block: no labels, or the refusal where a block on the way is not whole.
pub fn find_tables(
    t: &mut [u64; 32768],
    f: &[u8],
    l: Layout,
    v: &[u64],
) -> Option<Result<(), Refusal>>
    requires { length t.old ≡ 32768 }
    ensures { (is_some result ≡ can_find f.now (layout_by l) v.now) × (Found f.now (layout_by l) v.now t.new result) × (Bare t.old t.new result) }
{
    if 32768 < v.len() || !set_names::in_order(f, l, v) {
        return None;
    }
    start_numbers(t, f, l, v);
    let Some(o) = reading::edition_in(l.edition, l.order) else {
        return Some(Ok(()));
    };
    let end = reading::less(l.places[12], reading::tag_size(o.e.tagged, 15));
    if end <= l.places[11] {
        return Some(Ok(()));
    }
    let start = l.places[11] + reading::tag_size(o.e.tagged, 14);
    Some(pass(t, f, l, v, start, end, o))
}
