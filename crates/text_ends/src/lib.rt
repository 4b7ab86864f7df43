// Where the texts in a text area end: many entries of a label table may name one long text, so its end is looked for once.

#![tactic(auto)]

ghost use Rattle.std.specs.Prelude.{◌≡◌, ◌+◌, ◌-◌, ◌≤◌, length};
ghost use Rattle.text.specs.Texts.{IsTextLength};
ghost use Rattle.text_ends.specs.Ends.{EndsBy, Ends};

// Where the text from `y` on ends, of the text area at `a`: before `z`, or where that from `z` on does, at `e`.
fn end_from(f: &[u8], a: usize, y: usize, z: usize, e: usize) -> usize
    requires { (y ≤ z) × (a + z ≤ length f.now) }
    ensures { EndsBy f.now a y z e result }
{
    let n = text::text_len(f, a + y, z - y);
    if n < z - y {
        return y + n;
    }
    e
}

// For each place of the text area of `x` bytes at `a` that is a multiple of 256, where the text from there on ends. At most 5,308,416 / 256 + 1 places.
pub fn fill_ends(t: &mut [u32; 20737], f: &[u8], a: usize, x: usize)
    requires { (a + x ≤ length f.now) × (x ≤ 5308416) × (length t.old ≡ 20737) }
    ensures { Ends f.now a x 0 t.new }
{
    let mut y = x;
    let mut e = x;
    for b in (0..x / 256 + 1).rev() {
        e = end_from(f, a, b * 256, y, e);
        y = b * 256;
        t[b] = e as u32;
    }
}

// The length of the text from `y` on: at most 256 bytes are read.
pub fn length_from(f: &[u8], t: &[u32; 20737], a: usize, x: usize, y: usize) -> usize
    requires { (Ends f.now a x 0 t.now) × (a + x ≤ length f.now) × (x ≤ 5308416) × (y ≤ x) }
    ensures { IsTextLength (x - y) f.now (a + y) result }
{
    let b = y / 256 + 1;
    let z = b * 256;
    if x < z {
        return text::text_len(f, a + y, x - y);
    }
    end_from(f, a, y, z, t[b] as usize) - y
}
