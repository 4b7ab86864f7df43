#![tactic(auto)]

ghost use Rattle.std.specs.Prelude.{◌≡◌, true, cond, ◌++◌, ◌+◌, ◌*◌, ◌≤◌, length};
ghost use Rattle.format.specs.Number.{order_by};
ghost use Rattle.format.specs.Grammar.{text, read_times};
ghost use Rattle.format.specs.Edition.{opening, closing, blocks_end, n_characteristics, n_sortlist, n_variable_types};
ghost use Rattle.format.specs.Dta.{all_shorter};
ghost use Rattle.data.specs.Places.{Typed};
ghost use Rattle.writing.specs.Writes.{Puts};
ghost use Rattle.write_parts.specs.Enclosed.{enclosed, text_bytes, sort_bytes, type_bytes};

// Puts the `k` text fields of `w` bytes at `p`, as fields of `to` bytes between the tags `first` and `last` where `there`, at the start of
// `out`; gives how many bytes.
pub fn text_part(
    out: &mut [u8],
    f: &[u8],
    p: usize,
    k: usize,
    w: usize,
    to: usize,
    first: &[u8],
    last: &[u8],
    there: bool,
) -> usize
    requires { (p + k * w ≤ length f.now) × (all_shorter to (read_times (text w 7) k f.now p) ≡ true) × (length (enclosed there first.now last.now (text_bytes to k w f.now p)) ≤ length out.old) }
    ensures { Puts (enclosed there first.now last.now (text_bytes to k w f.now p)) out.old out.new result }
{
    let a = writing::put_tag(&mut out[..], first, there);
    let b = a + write_texts::put_texts(&mut out[a..], f, p, k, w, to);
    b + writing::put_tag(&mut out[b..], last, there)
}

// Puts the sort list of `n` entries at `p` with its tags.
pub fn sort_part(
    out: &mut [u8],
    f: &[u8],
    p: usize,
    n: usize,
    msf: bool,
    to: bool,
    there: bool,
) -> usize
    requires { (p + n * 2 ≤ length f.now) × (length (enclosed there (opening true n_sortlist) (closing true n_sortlist) (sort_bytes (order_by to) n (order_by msf) f.now p)) ≤ length out.old) }
    ensures { Puts (enclosed there (opening true n_sortlist) (closing true n_sortlist) (sort_bytes (order_by to) n (order_by msf) f.now p)) out.old out.new result }
{
    let a = writing::put_tag(&mut out[..], b"<sortlist>", there);
    let b = a + write_texts::put_sort(&mut out[a..], f, p, n, msf, to);
    b + writing::put_tag(&mut out[b..], b"</sortlist>", there)
}

// Puts the `k` types at `p` with their tags.
pub fn type_part(
    out: &mut [u8],
    f: &[u8],
    p: usize,
    k: usize,
    tagged: bool,
    msf: bool,
    there: bool,
    to: bool,
) -> usize
    requires { (Typed tagged (order_by msf) f.now p k) × (length (enclosed there (opening true n_variable_types) (closing true n_variable_types) (type_bytes there (order_by to) k tagged (order_by msf) f.now p)) ≤ length out.old) }
    ensures { Puts (enclosed there (opening true n_variable_types) (closing true n_variable_types) (type_bytes there (order_by to) k tagged (order_by msf) f.now p)) out.old out.new result }
{
    let a = writing::put_tag(&mut out[..], b"<variable_types>", there);
    let b = a + write_types::put_types(&mut out[a..], f, p, k, tagged, msf, there, to);
    b + writing::put_tag(&mut out[b..], b"</variable_types>", there)
}

// Puts what stands for no expansion blocks and no characteristics.
pub fn extra_part(out: &mut [u8], there: bool) -> usize
    requires { length (opening there n_characteristics ++ (blocks_end there ++ closing there n_characteristics)) ≤ length out.old }
    ensures { Puts (opening there n_characteristics ++ (blocks_end there ++ closing there n_characteristics)) out.old out.new result }
{
    if there {
        return writing::put_tag(&mut out[..], b"<characteristics></characteristics>", true);
    }
    text::put_zeros(&mut out[..], 5);
    5
}
