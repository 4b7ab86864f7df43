#![tactic(auto)]

ghost use Rattle.std.specs.Prelude.{◌≡◌, true, false, ◌+◌, ◌≤◌, length, IfOk};
ghost use Rattle.format.specs.Number.{order_by};
ghost use Rattle.format.specs.Grammar.{lit, text, raw, no_zero, seq, tag, between};
ghost use Rattle.format.specs.Edition.{opening, closing, order_mark, order_text, n_byteorder};
ghost use Rattle.format.specs.Header.{counted, old_stamp, old_header, new_header, header};
ghost use Rattle.refusal.specs.Refusals.{code_of};
ghost use Rattle.editions.specs.Editions.{numbers_of};
ghost use Rattle.section.specs.Judged.{Judged};
ghost use Rattle.header.specs.declared.Rule.TheVariants.{Most};
ghost use Rattle.header.specs.Rules.{holds, rows_max, held, new_texts};
ghost use Rattle.header.specs.Numbers.{Held, Valued};
ghost use Rattle.header.specs.Heads.{Begun, Headed};

use editions::Edition;
use refusal::Refusal;
use section::tag_or;

// What a header says that is right: where what follows starts; K and N.
#[derive(Clone, Copy)]
pub struct Head {
    pub at: usize,
    pub k: usize,
    pub n: usize,
}

// A rule on a number.
#[derive(Clone, Copy)]
enum Rule {
    // it is at most so much
    Most(u64),
    // it is a stamp's length
    Stamp,
}

impl Rule {
    // Whether `n` keeps to it.
    fn holds(self, n: u64) -> bool
        ensures { result ≡ holds self n }
    {
        match self {
            Rule::Most(max) => n <= max,
            Rule::Stamp => n == 0 || n == 17,
        }
    }
}

// A number of `w` bytes with its rule.
fn held_number(f: &[u8], p: usize, w: usize, rule: Rule, msf: bool) -> Result<u64, Refusal>
    requires { (p ≤ length f.now) × (w ≤ 8) }
    ensures { Held (order_by msf) w rule f.now p result }
{
    if f.len() - p < w {
        return Err(Refusal::CutShort);
    }
    let n = number::number(f, p, w, msf);
    if rule.holds(n) {
        Ok(n)
    } else {
        Err(Refusal::WrongHeader)
    }
}

// Whether no byte of the `n` at `p` is zero.
fn no_zero(f: &[u8], p: usize, n: usize) -> bool
    requires { p + n ≤ length f.now }
    ensures { result ≡ no_zero ((raw n).read f.now p) }
{
    text::text_len(f, p, n) == n
}

// A length of `w` bytes with its rule, then that many bytes, none zero.
fn counted_text(f: &[u8], p: usize, w: usize, rule: Rule, msf: bool) -> Result<usize, Refusal>
    requires { (p ≤ length f.now) × (w ≤ 8) }
    ensures { Judged (counted (order_by msf) w (holds rule)) f.now p result }
{
    let n = held_number(f, p, w, rule, msf)? as usize;
    let at = p + w;
    if f.len() - at < n {
        return Err(Refusal::CutShort);
    }
    if no_zero(f, at, n) {
        Ok(at + n)
    } else {
        Err(Refusal::WrongHeader)
    }
}

// The byte order's three bytes at `p`.
fn order_text(f: &[u8], p: usize, msf: bool) -> Result<usize, Refusal>
    requires { p ≤ length f.now }
    ensures { Judged (tag (order_text (order_by msf)) 5) f.now p result }
{
    if msf {
        tag_or(f, p, b"MSF", Refusal::WrongHeader, true)
    } else {
        tag_or(f, p, b"LSF", Refusal::WrongHeader, true)
    }
}

// The byte order between its tags.
fn order_part(f: &[u8], p: usize, msf: bool) -> Result<usize, Refusal>
    requires { p ≤ length f.now }
    ensures { Judged (between (opening true n_byteorder) (closing true n_byteorder) (tag (order_text (order_by msf)) 5)) f.now p result }
{
    let a = tag_or(f, p, b"<byteorder>", Refusal::WrongTag, true)?;
    let b = order_text(f, a, msf)?;
    tag_or(f, b, b"</byteorder>", Refusal::WrongTag, true)
}

// A number of `w` bytes, at most `max`, between the tags `first` and `last`: where it ends, and the number.
fn number_part(
    f: &[u8],
    p: usize,
    first: &[u8],
    last: &[u8],
    w: usize,
    max: u64,
    msf: bool,
) -> Result<(usize, u64), Refusal>
    requires { (p ≤ length f.now) × (w ≤ 8) }
    ensures { (Valued (between first.now last.now (held (order_by msf) w (Most max))) f.now p result) × IfOk result (λ v. v.1 ≤ max) }
{
    let a = tag_or(f, p, first, Refusal::WrongTag, true)?;
    let n = held_number(f, a, w, Rule::Most(max), msf)?;
    let b = tag_or(f, a + w, last, Refusal::WrongTag, true)?;
    Ok((b, n))
}

// A text with its length before it, between the tags `first` and `last`.
fn counted_part(
    f: &[u8],
    p: usize,
    first: &[u8],
    last: &[u8],
    w: usize,
    rule: Rule,
    msf: bool,
) -> Result<usize, Refusal>
    requires { (p ≤ length f.now) × (w ≤ 8) }
    ensures { Judged (between first.now last.now (counted (order_by msf) w (holds rule))) f.now p result }
{
    let a = tag_or(f, p, first, Refusal::WrongTag, true)?;
    let b = counted_text(f, a, w, rule, msf)?;
    tag_or(f, b, last, Refusal::WrongTag, true)
}

// A tagged header from the label on; the label's length has `w` bytes and is at most `max`.
fn new_texts(f: &[u8], p: usize, w: usize, max: u64, msf: bool) -> Result<usize, Refusal>
    requires { (p ≤ length f.now) × (w ≤ 8) }
    ensures { Judged (new_texts (order_by msf) w max) f.now p result }
{
    let a = counted_part(f, p, b"<label>", b"</label>", w, Rule::Most(max), msf)?;
    let b = counted_part(f, a, b"<timestamp>", b"</timestamp>", 1, Rule::Stamp, msf)?;
    tag_or(f, b, b"</header>", Refusal::WrongTag, true)
}

// The greatest N that `k` variables allow.
fn rows_max(k: u64) -> u64
    ensures { result ≡ rows_max k }
{
    if k == 0 { 0 } else { 2147483647 }
}

// The header of a tagged edition, after the tags of its start.
fn new_header(f: &[u8], e: Edition, msf: bool) -> Result<Head, Refusal>
    requires { (Begun f.now e) × (e.tagged ≡ true) }
    ensures { Headed (new_header e.number (order_by msf) e.n_width e.label_length e.label_max) f.now result }
{
    let a = order_part(f, 41, msf)?;
    let (b, k) = number_part(f, a, b"<K>", b"</K>", 2, 32767, msf)?;
    let (c, n) = number_part(f, b, b"<N>", b"</N>", e.n_width, rows_max(k), msf)?;
    let at = new_texts(f, c, e.label_length, e.label_max as u64, msf)?;
    Ok(Head {
        at,
        k: k as usize,
        n: n as usize,
    })
}

// The byte that tells the byte order in an untagged header.
fn order_mark(msf: bool) -> u8
    ensures { result ≡ order_mark (order_by msf) }
{
    if msf { 1 } else { 2 }
}

// An untagged header's byte order and file type.
fn old_marks(f: &[u8], msf: bool) -> Result<(), Refusal>
    requires { 3 ≤ length f.now }
    ensures { code_of result ≡ (seq (lit (order_mark (order_by msf)) 5) (λ b. lit 1 5)).judge f.now 1 }
{
    if f[1] == order_mark(msf) && f[2] == 1 {
        Ok(())
    } else {
        Err(Refusal::WrongHeader)
    }
}

// An old stamp at `q`.
fn old_stamp(f: &[u8], q: usize) -> Result<(), Refusal>
    requires { q + 18 ≤ length f.now }
    ensures { code_of result ≡ old_stamp.judge f.now q }
{
    let n = text::text_len(f, q, 17) as u64;
    if Rule::Stamp.holds(n) && f[q + 17] == 0 {
        Ok(())
    } else {
        Err(Refusal::WrongHeader)
    }
}

// An old dataset label in `w` bytes at `q` and the stamp after it.
fn old_texts(f: &[u8], q: usize, w: usize) -> Result<(), Refusal>
    requires { q + (w + 18) ≤ length f.now }
    ensures { code_of result ≡ (seq (text w 5) (λ l. old_stamp)).judge f.now q }
{
    if text::text_len(f, q, w) == w {
        return Err(Refusal::WrongHeader);
    }
    old_stamp(f, q + w)
}

// The header of an untagged edition.
fn old_header(f: &[u8], e: Edition, msf: bool) -> Result<Head, Refusal>
    requires { (Begun f.now e) × (e.tagged ≡ false) }
    ensures { Headed (old_header e.number (order_by msf) e.n_width e.label_max) f.now result }
{
    let w = e.label_max + 1;
    let at = 6 + (e.n_width + (w + 18));
    if f.len() < at {
        return Err(Refusal::CutShort);
    }
    old_marks(f, msf)?;
    let k = number::number(f, 4, 2, msf);
    let n = number::number(f, 6, e.n_width, msf);
    if k > 32767 || n > rows_max(k) {
        return Err(Refusal::WrongHeader);
    }
    old_texts(f, 6 + e.n_width, w)?;
    Ok(Head {
        at,
        k: k as usize,
        n: n as usize,
    })
}

// The header of a file that begins as the edition `e` does.
pub fn header(f: &[u8], e: Edition, msf: bool) -> Result<Head, Refusal>
    requires { Begun f.now e }
    ensures { Headed (header (numbers_of e) (order_by msf)) f.now result }
{
    if e.tagged {
        new_header(f, e, msf)
    } else {
        old_header(f, e, msf)
    }
}
