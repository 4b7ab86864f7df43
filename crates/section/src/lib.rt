#![tactic(auto)]

ghost use Rattle.std.specs.Prelude.{◌≡◌, ℕ, ◌+◌, ◌*◌, ◌≤◌, [], cond, ◌&&◌, ◌||◌, length, eqb};
ghost use Rattle.format.specs.Grammar.{Sect, tag, within, times, judge_times, between};
ghost use Rattle.refusal.specs.Refusals.{number_of, code_of};
ghost use Rattle.section.specs.Judged.{Judged, Numbered, field};
ghost use Rattle.section.specs.Parts.{Opened};

use refusal::Refusal;

// The tag `t` where `there`, else no bytes; refused with the number `c`. Like each function that judges a section, it answers where what
// follows starts.
pub fn tag_if(f: &[u8], p: usize, t: &[u8], c: u8, there: bool) -> Result<usize, u8>
    requires { p ≤ length f.now }
    ensures { Numbered (tag (cond there t.now []) c) f.now p result }
{
    if !there {
        return Ok(p);
    }
    let code = text::tag_at(f, p, t, c);
    if code != 0 {
        return Err(code);
    }
    Ok(p + t.len())
}

// The same, refused with `refusal`.
pub fn tag_or(f: &[u8], p: usize, t: &[u8], refusal: Refusal, there: bool) -> Result<usize, Refusal>
    requires { p ≤ length f.now }
    ensures { Judged (tag (cond there t.now []) (number_of refusal)) f.now p result }
{
    match tag_if(f, p, t, refusal.number(), there) {
        Ok(at) => Ok(at),
        Err(3) => Err(Refusal::CutShort),
        Err(_) => Err(refusal),
    }
}

// The first tag of a section, where the edition has tags, and the `n` bytes after it.
pub fn opened(f: &[u8], p: usize, first: &[u8], tagged: bool, n: usize) -> Result<usize, Refusal>
    requires { p ≤ length f.now }
    ensures { Opened (cond tagged first.now []) n f.now p result }
{
    let at = tag_or(f, p, first, Refusal::WrongTag, tagged)?;
    if f.len() - at < n {
        return Err(Refusal::CutShort);
    }
    Ok(at)
}

// Whether a field of `w` bytes with a text of `n` is refused: it has no zero, or it is a name and empty.
fn bad_field(n: usize, w: usize, named: bool) -> bool
    ensures { result ≡ (eqb n w || (named && eqb n 0)) }
{
    n == w || named && n == 0
}

// The first refusal among `k` text fields of `w` bytes at `p`.
fn texts(f: &[u8], p: usize, k: usize, w: usize, named: bool) -> Result<(), Refusal>
    requires { p + k * w ≤ length f.now }
    ensures { code_of result ≡ judge_times (field named w) k f.now p }
{
    let mut q = p;
    for _ in 0..k {
        let n = text::text_len(f, q, w);
        if bad_field(n, w, named) {
            return Err(Refusal::WrongText);
        }
        q += w;
    }
    Ok(())
}

// A list of `k` text fields of `w` bytes between the tags `first` and `last`, where the edition has tags.
pub fn text_list(
    f: &[u8],
    p: usize,
    first: &[u8],
    last: &[u8],
    tagged: bool,
    k: usize,
    w: usize,
    named: bool,
) -> Result<usize, Refusal>
    requires { (p ≤ length f.now) × (k ≤ 32767) × (w ≤ 65535) }
    ensures { Judged (between (cond tagged first.now []) (cond tagged last.now []) (within (k * w) (times (field named w) k))) f.now p result }
{
    let n = k * w;
    let at = opened(f, p, first, tagged, n)?;
    texts(f, at, k, w, named)?;
    tag_or(f, at + n, last, Refusal::WrongTag, tagged)
}
