#![tactic(auto)]

ghost use Rattle.std.specs.Prelude.{◌≡◌, [], cond, ◌≤◌, length};
ghost use Rattle.writing.specs.Writes.{Puts};

// Puts the tag `t` at the start of `out` where `there`, else no bytes; gives how many.
pub fn put_tag(out: &mut [u8], t: &[u8], there: bool) -> usize
    requires { length (cond there t.now []) ≤ length out.old }
    ensures { Puts (cond there t.now []) out.old out.new result }
{
    if !there {
        return 0;
    }
    let n = t.len();
    text::put_bytes(&mut out[..], t, 0, n);
    n
}
