#![tactic(auto)]

ghost use Rattle.std.specs.Prelude.{◌≡◌, ◌+◌, ◌*◌};
ghost use Rattle.questions.specs.Ask.{or_refused, slice, text_part};
ghost use Rattle.reading.specs.Reads.{edition_in};
ghost use Rattle.answers.specs.Answers.{opened_if, part_by, part_in};

use reading::Opened;
use refusal::{Refusal, Told};

// A part of the file by place and length.
#[derive(Clone, Copy)]
pub struct Part {
    pub at: u64,
    pub len: u64,
}

// The edition and the byte order of a layout, for a question whose variable and observation are the layout's where `inside`: 16 where they
// are not, then 17 where edition and order are not read.
pub fn opened(inside: bool, edition: u64, order: u64) -> Result<Opened, Refusal>
    ensures { result ≡ opened_if inside (edition_in edition order) }
{
    if !inside {
        return Err(Refusal::NotThere);
    }
    reading::edition_in(edition, order).ok_or(Refusal::NotReadable)
}

// The text in field `index` of `w` bytes, counted from 0, of the list at `start`, after a tag of `gap` bytes.
pub fn text_field(f: &[u8], start: u64, gap: u64, index: u64, w: usize) -> Result<Part, Refusal>
    ensures { result ≡ part_by (or_refused (text_part w f.now (start + gap + index * w))) }
{
    let at = reading::place_in(f, start, gap, index, w as u64).ok_or(Refusal::NotReadable)?;
    let len = reading::text_in(f, at, w).ok_or(Refusal::NotReadable)?;
    Ok(Part { at, len })
}

// The bytes of a part: none with a refusal, told by any number, or where they are not in the file.
pub fn part_of<'a, E: Told>(f: &'a [u8], part: Result<Part, E>) -> &'a [u8]
    ensures { result.now ≡ part_in f.now part }
{
    let Part { at, len } = match part {
        Ok(part) => part,
        Err(_) => return &f[0..0],
    };
    let p = at as usize;
    let n = len as usize;
    if f.len() < p || f.len() - p < n {
        return &f[0..0];
    }
    &f[p..p + n]
}

// The bytes of a part, as many of them as the file has.
pub fn part_at<'a>(f: &'a [u8], part: Part) -> &'a [u8]
    ensures { result.now ≡ slice f.now part.at part.len }
{
    let p = f.len().min(part.at as usize);
    let n = (f.len() - p).min(part.len as usize);
    &f[p..p + n]
}
