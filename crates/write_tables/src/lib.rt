#![tactic(auto)]

ghost use Rattle.std.specs.Prelude.{◌≡◌, true, cond, not, ◌||◌, ◌++◌, ℕ, ◌+◌, ◌*◌, ◌<◌, ◌≤◌, length, get_or, drop, eqb};
ghost use Rattle.format.specs.Slot.{fill};
ghost use Rattle.format.specs.Number.{order_by, num_slots, tab};
ghost use Rattle.format.specs.Grammar.{number, member, masked, read_times, all_slots};
ghost use Rattle.write_tables.specs.Tables.{marked, swept, Marks, TableRoom, PutsTable};

// Puts the `n` numbers of four bytes at `p` in the order `to`.
fn put_numbers(out: &mut [u8], f: &[u8], p: usize, n: usize, msf: bool, to: bool)
    requires { (p + n * 4 ≤ length f.now) × (n * 4 ≤ length out.old) }
    ensures { out.new ≡ fill (all_slots (number (order_by to) 4) (read_times (number (order_by msf) 4) n f.now p)) ++ drop (n * 4) out.old }
{
    for i in 0..n {
        let x = number::number(f, p + i * 4, 4, msf);
        number::put_number(&mut out[i * 4..], x, 4, to);
    }
}

// Puts the numbers `n` of entries and `m` of text bytes.
fn put_counts(out: &mut [u8], n: usize, m: usize, to: bool)
    requires { 8 ≤ length out.old }
    ensures { out.new ≡ (fill (num_slots (order_by to) 4 n) ++ fill (num_slots (order_by to) 4 m)) ++ drop 8 out.old }
{
    number::put_number(&mut out[..], n as u64, 4, to);
    number::put_number(&mut out[4..], m as u64, 4, to);
}

// Puts the `n` offsets at `p` and the `n` values after them.
fn put_entries(out: &mut [u8], f: &[u8], p: usize, n: usize, msf: bool, to: bool)
    requires { (p + (n * 4 + n * 4) ≤ length f.now) × (n * 4 + n * 4 ≤ length out.old) }
    ensures { out.new ≡ (fill (all_slots (number (order_by to) 4) (read_times (number (order_by msf) 4) n f.now p)) ++ fill (all_slots (number (order_by to) 4) (read_times (number (order_by msf) 4) n f.now (p + n * 4)))) ++ drop (n * 4 + n * 4) out.old }
{
    put_numbers(&mut out[..], f, p, n, msf, to);
    let v = n * 4;
    put_numbers(&mut out[v..], f, p + v, n, msf, to);
}

// Puts a mark at each of the `n` offsets at `p`, which are below `m`.
fn put_marks(out: &mut [u8], f: &[u8], p: usize, n: usize, m: usize, msf: bool)
    requires { (p + n * 4 ≤ length f.now) × (m ≤ length out.old) × ((j : ℕ) → member j (read_times (number (order_by msf) 4) n f.now p) ≡ true → j < m) }
    ensures { Marks (read_times (number (order_by msf) 4) n f.now p) m out.old out.new }
{
    for i in 0..n {
        let x = number::number(f, p + i * 4, 4, msf) as usize;
        out[x] = 1;
    }
}

// Puts the live bytes of the text of `m` bytes at `t`, and zeros for its dead ones, over the marks that stand in `out`. A byte is live
// that is marked, or that follows a live one that is not zero.
fn sweep(out: &mut [u8], f: &[u8], t: usize, m: usize)
    requires { (t + m ≤ length f.now) × (m ≤ length out.old) }
    ensures { out.new ≡ swept out.old f.now t m ++ drop m out.old }
{
    let mut on = false;
    for j in 0..m {
        let live = out[j] != 0 || on;
        let x = if live { f[t + j] } else { 0 };
        out[j] = x;
        on = x != 0;
    }
}

// Puts the text of `m` bytes at `t` with zeros at its dead places; its `n` offsets stand at `p`.
fn put_area(out: &mut [u8], f: &[u8], p: usize, n: usize, t: usize, m: usize, msf: bool)
    requires { (p + n * 4 ≤ length f.now) × (t + m ≤ length f.now) × (m ≤ length out.old) × ((j : ℕ) → member j (read_times (number (order_by msf) 4) n f.now p) ≡ true → j < m) }
    ensures { out.new ≡ tab m (masked (read_times (number (order_by msf) 4) n f.now p) (λ i. get_or f.now (t + i) 0)) ++ drop m out.old }
{
    text::put_zeros(out, m);
    put_marks(out, f, p, n, m, msf);
    sweep(out, f, t, m);
}

// Puts the label table of `n` entries and `m` text bytes at `p` in the order `to`; gives how many bytes.
pub fn put_table(
    out: &mut [u8],
    f: &[u8],
    p: usize,
    n: usize,
    m: usize,
    msf: bool,
    to: bool,
) -> usize
    requires { TableRoom (order_by msf) f.now p n m (length out.old) }
    ensures { PutsTable (order_by msf) (order_by to) f.now p n m out.old out.new result }
{
    let q = p + 8;
    put_counts(&mut out[..], n, m, to);
    put_entries(&mut out[8..], f, q, n, msf, to);
    let a = 8 + n * 4 + n * 4;
    put_area(&mut out[a..], f, q, n, p + a, m, msf);
    a + m
}
