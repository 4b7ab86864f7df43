#![tactic(auto)]

ghost use Rattle.std.specs.Prelude.{◌≡◌, ◌≤◌};
ghost use Rattle.format.specs.Number.{order_by};
ghost use Rattle.questions.specs.Readings.{bind, got};
ghost use Rattle.questions.specs.Ask.{answer_of, or_refused, count, counted_part, ask_edition, ask_order, ask_k, ask_n, ask_label, ask_stamp};
ghost use Rattle.checking.specs.Checks.{layout_by};
ghost use Rattle.reading.specs.Reads.{edition_in};
ghost use Rattle.answers.specs.Answers.{number_by, part_by};
ghost use Rattle.header_facts.specs.Header.{ForEveryFile, new_stamp};

use answers::Part;
use checking::Layout;
use refusal::Refusal;

// The number `value` of a layout whose edition and order are read.
fn number_if(l: Layout, value: u64) -> Result<u64, Refusal>
    ensures { result ≡ number_by (or_refused (bind (edition_in l.edition l.order) λ y. got (count value))) }
{
    answers::opened(true, l.edition, l.order)?;
    Ok(value)
}

// The edition.
pub fn edition(l: Layout) -> Result<u64, Refusal>
    ensures { ForEveryFile (layout_by l) ask_edition result }
{
    number_if(l, l.edition)
}

// The byte order: 1, most significant byte first; 2, least.
pub fn order(l: Layout) -> Result<u64, Refusal>
    ensures { ForEveryFile (layout_by l) ask_order result }
{
    number_if(l, l.order)
}

// K.
pub fn variables(l: Layout) -> Result<u64, Refusal>
    ensures { ForEveryFile (layout_by l) ask_k result }
{
    number_if(l, l.k)
}

// N.
pub fn rows(l: Layout) -> Result<u64, Refusal>
    ensures { ForEveryFile (layout_by l) ask_n result }
{
    number_if(l, l.n)
}

// A length of `w` bytes at `p`, then that many bytes.
fn counted_part(f: &[u8], p: u64, w: usize, msf: bool) -> Result<Part, Refusal>
    requires { w ≤ 8 }
    ensures { result ≡ part_by (or_refused (counted_part (order_by msf) w f.now p)) }
{
    let len = reading::number_in(f, p, w, msf).ok_or(Refusal::NotReadable)?;
    let at = p + w as u64;
    if f.len() as u64 - at < len {
        return Err(Refusal::NotReadable);
    }
    Ok(Part { at, len })
}

// The dataset label.
pub fn label(f: &[u8], l: Layout) -> Result<Part, Refusal>
    ensures { result ≡ part_by (answer_of f.now (layout_by l) ask_label) }
{
    let o = answers::opened(true, l.edition, l.order)?;
    let n = o.e.n_width as u64;
    if o.e.tagged {
        return counted_part(f, 90 + n, o.e.label_length, o.msf);
    }
    answers::text_field(f, 6 + n, 0, 0, o.e.label_max + 1)
}

// The stamp of a tagged edition, with the label's length, in `w` bytes, at `p`.
fn new_stamp(f: &[u8], p: u64, w: usize, msf: bool) -> Result<Part, Refusal>
    requires { w ≤ 4 }
    ensures { result ≡ part_by (or_refused (new_stamp (order_by msf) w f.now p)) }
{
    let n = reading::number_in(f, p, w, msf).ok_or(Refusal::NotReadable)?;
    let a = reading::place_in(f, p + w as u64, n, 19, 1).ok_or(Refusal::NotReadable)?;
    counted_part(f, a, 1, msf)
}

// The stamp.
pub fn stamp(f: &[u8], l: Layout) -> Result<Part, Refusal>
    ensures { result ≡ part_by (answer_of f.now (layout_by l) ask_stamp) }
{
    let o = answers::opened(true, l.edition, l.order)?;
    let n = o.e.n_width as u64;
    if o.e.tagged {
        return new_stamp(f, 90 + n, o.e.label_length, o.msf);
    }
    answers::text_field(f, 6 + n, o.e.label_max as u64 + 1, 0, 18)
}
