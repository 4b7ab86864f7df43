#![tactic(auto)]

ghost use Rattle.std.specs.Prelude.{◌≡◌, not, ◌&&◌, ◌<◌, ◌≤◌, length, get_or, eqb};
ghost use Rattle.format.specs.Number.{order_by};
ghost use Rattle.format.specs.Edition.{kind_width};
ghost use Rattle.format.specs.Expansion.{expansion_next, expansion, expansions};
ghost use Rattle.section.specs.Judged.{Judged};
ghost use Rattle.expansion.specs.Parts.{contents_of, blocks, blocks_tail};

use refusal::Refusal;

// Whether a characteristic, or a block whose type is not 0, is next.
fn block_next(f: &[u8], p: usize, tagged: bool) -> bool
    requires { p ≤ length f.now }
    ensures { result ≡ expansion_next tagged f.now p }
{
    if tagged {
        text::tag_or(f, p, b"<ch>", Refusal::WrongTag).is_ok()
    } else {
        p < f.len() && f[p] != 0
    }
}

// The width of a block's type: a characteristic has none.
fn kind_width(tagged: bool) -> usize
    ensures { (result ≡ kind_width tagged) × (result ≤ 1) }
{
    if tagged { 0 } else { 1 }
}

// Whether a block has a type, and it is 0.
fn kind_zero(f: &[u8], p: usize, tagged: bool) -> bool
    requires { p < length f.now }
    ensures { result ≡ (not tagged && eqb (get_or f.now p 0) 0) }
{
    !tagged && f[p] == 0
}

// Type, length and contents of a block.
fn contents(f: &[u8], p: usize, tagged: bool, msf: bool) -> Result<usize, Refusal>
    requires { p ≤ length f.now }
    ensures { Judged (contents_of tagged (order_by msf)) f.now p result }
{
    let k = kind_width(tagged);
    if f.len() - p < k + 4 {
        return Err(Refusal::CutShort);
    }
    if kind_zero(f, p, tagged) {
        return Err(Refusal::WrongExpansion);
    }
    let q = p + k + 4;
    let n = number::number(f, p + k, 4, msf) as usize;
    if f.len() - q < n {
        return Err(Refusal::CutShort);
    }
    Ok(q + n)
}

// A block or a characteristic.
fn block(f: &[u8], p: usize, tagged: bool, msf: bool) -> Result<usize, Refusal>
    requires { p ≤ length f.now }
    ensures { Judged (expansion tagged (order_by msf)) f.now p result }
{
    let start = section::tag_or(f, p, b"<ch>", Refusal::WrongTag, tagged)?;
    let end = contents(f, start, tagged, msf)?;
    section::tag_or(f, end, b"</ch>", Refusal::WrongTag, tagged)
}

// What ends the blocks, and the closing tag.
fn tail(f: &[u8], p: usize, tagged: bool) -> Result<usize, Refusal>
    requires { p ≤ length f.now }
    ensures { Judged (blocks_tail tagged) f.now p result }
{
    let end = section::tag_or(f, p, b"\0\0\0\0\0", Refusal::WrongExpansion, !tagged)?;
    section::tag_or(f, end, b"</characteristics>", Refusal::WrongTag, tagged)
}

// The blocks, and what follows them.
fn block_list(f: &[u8], p: usize, tagged: bool, msf: bool) -> Result<usize, Refusal>
    requires { p ≤ length f.now }
    ensures { Judged (blocks tagged (order_by msf)) f.now p result }
{
    let mut q = p;
    while block_next(f, q, tagged) {
        q = block(f, q, tagged, msf)?;
    }
    tail(f, q, tagged)
}

// The expansion blocks of an untagged edition, or the characteristics of a tagged one.
pub fn expansion_list(f: &[u8], p: usize, tagged: bool, msf: bool) -> Result<usize, Refusal>
    requires { p ≤ length f.now }
    ensures { Judged (expansions tagged (order_by msf)) f.now p result }
{
    let at = section::tag_or(f, p, b"<characteristics>", Refusal::WrongTag, tagged)?;
    block_list(f, at, tagged, msf)
}
