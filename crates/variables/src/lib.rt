#![tactic(auto)]

ghost use Rattle.std.specs.Prelude.{◌≡◌, suc, ◌+◌, ◌*◌, ◌≤◌, [], length};
ghost use Rattle.format.specs.Number.{order_by};
ghost use Rattle.format.specs.Grammar.{ruled, ended, judge_times};
ghost use Rattle.format.specs.Edition.{code_width};
ghost use Rattle.format.specs.Variables.{type_by, has_type, type_code, types, fresh, sort_list};
ghost use Rattle.refusal.specs.Refusals.{code_of};
ghost use Rattle.section.specs.Judged.{Judged};

use codes::Kind;
use refusal::Refusal;

// Whether the edition knows the code.
fn known_code(tagged: bool, code: u16) -> bool
    ensures { result ≡ has_type tagged (type_by tagged code) }
{
    let kind = codes::field_of(tagged, code).kind;
    !matches!(kind, Kind::Unknown)
}

// The first refusal among `k` type codes at `p`.
fn type_codes(f: &[u8], p: usize, k: usize, tagged: bool, msf: bool) -> Result<(), Refusal>
    requires { p + k * code_width tagged ≤ length f.now }
    ensures { code_of result ≡ judge_times (type_code tagged (order_by msf)) k f.now p }
{
    let w = codes::code_width(tagged);
    let mut q = p;
    for _ in 0..k {
        let c = number::number(f, q, w, msf) as u16;
        if !known_code(tagged, c) {
            return Err(Refusal::UnknownType);
        }
        q += w;
    }
    Ok(())
}

// The types of `k` variables.
pub fn type_list(f: &[u8], p: usize, k: usize, tagged: bool, msf: bool) -> Result<usize, Refusal>
    requires { (p ≤ length f.now) × (k ≤ 32767) }
    ensures { Judged (types tagged (order_by msf) k) f.now p result }
{
    let n = k * codes::code_width(tagged);
    let at = section::opened(f, p, b"<variable_types>", tagged, n)?;
    type_codes(f, at, k, tagged, msf)?;
    section::tag_or(f, at + n, b"</variable_types>", Refusal::WrongTag, tagged)
}

// The refusal of the sort list of `k` variables at `p`: one pass, with a mark for each variable that was seen.
fn sort_numbers(f: &[u8], p: usize, k: usize, msf: bool) -> Result<(), Refusal>
    requires { (p + (k + 1) * 2 ≤ length f.now) × (k ≤ 32767) }
    ensures { code_of result ≡ (ruled (ended (order_by msf) 2 (suc k) 8) (fresh k []) 8).judge f.now p }
{
    let mut seen = [false; 32768];
    let mut q = p;
    for _ in 0..k + 1 {
        let x = number::number(f, q, 2, msf) as usize;
        if x == 0 {
            return Ok(());
        }
        if k < x || seen[x] {
            return Err(Refusal::WrongSortList);
        }
        seen[x] = true;
        q += 2;
    }
    Err(Refusal::WrongSortList)
}

// The sort list of `k` variables.
pub fn sort_list(f: &[u8], p: usize, k: usize, tagged: bool, msf: bool) -> Result<usize, Refusal>
    requires { (p ≤ length f.now) × (k ≤ 32767) }
    ensures { Judged (sort_list tagged (order_by msf) k) f.now p result }
{
    let n = (k + 1) * 2;
    let at = section::opened(f, p, b"<sortlist>", tagged, n)?;
    sort_numbers(f, at, k, msf)?;
    section::tag_or(f, at + n, b"</sortlist>", Refusal::WrongTag, tagged)
}
