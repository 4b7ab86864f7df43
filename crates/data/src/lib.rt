#![tactic(auto)]

ghost use Rattle.std.specs.Prelude.{◌≡◌, ◌+◌, ◌*◌, ◌<◌, ◌≤◌, length};
ghost use Rattle.format.specs.Number.{order_by};
ghost use Rattle.format.specs.Edition.{code_width};
ghost use Rattle.data.specs.Places.{field_at, off_at, Typed, DataJudged};

use refusal::Refusal;

// Kind and width of the cells of variable `i`, with the type list at `types`.
#[inline(always)]
pub fn field_at(f: &[u8], types: usize, i: usize, tagged: bool, msf: bool) -> codes::Field
    requires { types + i * code_width tagged + code_width tagged ≤ length f.now }
    ensures { result ≡ field_at tagged (order_by msf) f.now types i }
{
    let w = codes::code_width(tagged);
    let c = number::number(f, types + i * w, w, msf);
    codes::field_of(tagged, c as u16)
}

// The width of a row.
pub fn row_width(f: &[u8], types: usize, k: usize, tagged: bool, msf: bool) -> usize
    requires { Typed tagged (order_by msf) f.now types k }
    ensures { result ≡ off_at tagged (order_by msf) f.now types k }
{
    let mut sum = 0;
    for i in 0..k {
        sum += field_at(f, types, i, tagged, msf).width;
    }
    sum
}

// The data at `p`: `n` observations of the `k` variables whose type list is at `types`.
pub fn data_list(
    f: &[u8],
    p: usize,
    types: usize,
    k: usize,
    n: usize,
    tagged: bool,
    msf: bool,
) -> Result<usize, Refusal>
    requires { (p ≤ length f.now) × (n ≤ 2147483647) × (Typed tagged (order_by msf) f.now types k) }
    ensures { DataJudged tagged (order_by msf) f.now types k n p result }
{
    let m = n * row_width(f, types, k, tagged, msf);
    let at = section::opened(f, p, b"<data>", tagged, m)?;
    section::tag_or(f, at + m, b"</data>", Refusal::WrongTag, tagged)
}
