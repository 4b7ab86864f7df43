#![tactic(auto)]

ghost use Rattle.std.specs.Prelude.{◌≡◌, ℕ, ◌≤◌, length};
ghost use Rattle.format.specs.Number.{order_by};
ghost use Rattle.format.specs.Variables.{names, formats, set_names, var_labels};
ghost use Rattle.section.specs.Judged.{Judged};
ghost use Rattle.editions.specs.Editions.{numbers_of};
ghost use Rattle.lists.specs.Walks.{Narrow, Listed};

use editions::Edition;
use refusal::Refusal;
use section::text_list;

// The names of `k` variables, each in `w` bytes. This list and the next three are a list of texts each, with its own tags.
fn name_list(f: &[u8], p: usize, tagged: bool, w: usize, k: usize) -> Result<usize, Refusal>
    requires { (p ≤ length f.now) × (k ≤ 32767) × (w ≤ 65535) }
    ensures { Judged (names tagged w k) f.now p result }
{
    text_list(f, p, b"<varnames>", b"</varnames>", tagged, k, w, true)
}

// Their display formats.
fn format_list(f: &[u8], p: usize, tagged: bool, w: usize, k: usize) -> Result<usize, Refusal>
    requires { (p ≤ length f.now) × (k ≤ 32767) × (w ≤ 65535) }
    ensures { Judged (formats tagged w k) f.now p result }
{
    text_list(f, p, b"<formats>", b"</formats>", tagged, k, w, false)
}

// Their label-set names.
fn set_list(f: &[u8], p: usize, tagged: bool, w: usize, k: usize) -> Result<usize, Refusal>
    requires { (p ≤ length f.now) × (k ≤ 32767) × (w ≤ 65535) }
    ensures { Judged (set_names tagged w k) f.now p result }
{
    text_list(
        f,
        p,
        b"<value_label_names>",
        b"</value_label_names>",
        tagged,
        k,
        w,
        false,
    )
}

// Their variable labels.
fn label_list(f: &[u8], p: usize, tagged: bool, w: usize, k: usize) -> Result<usize, Refusal>
    requires { (p ≤ length f.now) × (k ≤ 32767) × (w ≤ 65535) }
    ensures { Judged (var_labels tagged w k) f.now p result }
{
    text_list(
        f,
        p,
        b"<variable_labels>",
        b"</variable_labels>",
        tagged,
        k,
        w,
        false,
    )
}

// Types, names, sort list, display formats, label-set names and variable labels of `k` variables: where each of the six ends.
pub fn list_parts(
    f: &[u8],
    p: usize,
    e: Edition,
    k: usize,
    msf: bool,
) -> Result<[usize; 6], Refusal>
    requires { (p ≤ length f.now) × (k ≤ 32767) × (Narrow e) }
    ensures { Listed (numbers_of e) (order_by msf) k f.now p result }
{
    let types = variables::type_list(f, p, k, e.tagged, msf)?;
    let names = name_list(f, types, e.tagged, e.name_width, k)?;
    let sorted = variables::sort_list(f, names, k, e.tagged, msf)?;
    let formats = format_list(f, sorted, e.tagged, e.format_width, k)?;
    let sets = set_list(f, formats, e.tagged, e.name_width, k)?;
    let labels = label_list(f, sets, e.tagged, e.var_label_width, k)?;
    Ok([types, names, sorted, formats, sets, labels])
}
