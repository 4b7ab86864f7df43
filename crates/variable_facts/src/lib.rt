#![tactic(auto)]

ghost use Rattle.std.specs.Prelude.{◌≡◌, suc, ◌+◌, ◌*◌, ◌≤◌, length};
ghost use Rattle.format.specs.Number.{order_by};
ghost use Rattle.format.specs.Edition.{code_width};
ghost use Rattle.questions.specs.Readings.{bind, got};
ghost use Rattle.questions.specs.Ask.{answer_of, or_refused, count, typed, type_in, sort_in, ask_type, ask_sort};
ghost use Rattle.checking.specs.Checks.{layout_by};
ghost use Rattle.answers.specs.Answers.{number_by};
ghost use Rattle.variable_facts.specs.Types.{typed_by};

use checking::Layout;
use codes::Field;
use refusal::Refusal;

// The type whose code is entry `index`, counted from 0, of the list at `start`, after a tag of `gap` bytes.
fn type_field(
    f: &[u8],
    start: u64,
    gap: u64,
    index: u64,
    tagged: bool,
    msf: bool,
) -> Result<Field, Refusal>
    ensures { result ≡ typed_by (or_refused (bind (type_in tagged (order_by msf) f.now (start + gap + index * code_width tagged)) λ t. got (typed t))) }
{
    let w = codes::code_width(tagged);
    let p = reading::place_in(f, start, gap, index, w as u64).ok_or(Refusal::NotReadable)?;
    let n = reading::number_in(f, p, w, msf).ok_or(Refusal::NotReadable)?;
    let field = codes::field_of(tagged, n as u16);
    if field.width == 0 {
        return Err(Refusal::NotReadable);
    }
    Ok(field)
}

// The type of variable `i`: the kind of its cells, and how many bytes each has.
pub fn var_type(f: &[u8], l: Layout, i: u64) -> Result<Field, Refusal>
    ensures { result ≡ typed_by (answer_of f.now (layout_by l) (ask_type i)) }
{
    let o = answers::opened(reading::is_among(i, l.k), l.edition, l.order)?;
    let gap = reading::tag_size(o.e.tagged, 16);
    type_field(f, l.places[2], gap, reading::less(i, 1), o.e.tagged, o.msf)
}

// Which of `k` + 1 sort entries from `start` on is the first that is `i`, counted from 1, before the first zero; 0 if none is.
fn sort_find(f: &[u8], start: u64, i: u64, k: u64, msf: bool) -> Result<u64, Refusal>
    requires { start ≤ length f.now }
    ensures { result ≡ number_by (or_refused (bind (sort_in (order_by msf) f.now i (suc k) 0 start) λ x. got (count x))) }
{
    let mut p = start;
    for x in 0..=k {
        let v = reading::number_in(f, p, 2, msf).ok_or(Refusal::NotReadable)?;
        if v == 0 {
            return Ok(0);
        }
        if v == i {
            return Ok(x + 1);
        }
        p += 2;
    }
    Ok(0)
}

// The first sort place of variable `i`, counted from 1; 0 where it has none.
pub fn sort_place(f: &[u8], l: Layout, i: u64) -> Result<u64, Refusal>
    ensures { result ≡ number_by (answer_of f.now (layout_by l) (ask_sort i)) }
{
    let o = answers::opened(reading::is_among(i, l.k), l.edition, l.order)?;
    let gap = reading::tag_size(o.e.tagged, 10);
    let start = reading::place_in(f, l.places[4], gap, 0, 2).ok_or(Refusal::NotReadable)?;
    sort_find(f, start, i, l.k, o.msf)
}
