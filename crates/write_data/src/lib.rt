#![tactic(auto)]

ghost use Rattle.std.specs.Prelude.{◌≡◌, cond, ◌++◌, ℕ, ◌+◌, ◌*◌, ◌/◌, ◌%◌, ◌≤◌, ◌<◌, length, drop};
ghost use Rattle.format.specs.Slot.{fill};
ghost use Rattle.format.specs.Number.{msf, lsf};
ghost use Rattle.format.specs.Grammar.{number, text_at, text_slots};
ghost use Rattle.format.specs.Variables.{strl_type};
ghost use Rattle.writing.specs.Writes.{Puts};
ghost use Rattle.write_data.specs.Rows.{forms, from, to, put_times, row_span, Sourced, Eights, rows_bytes};
ghost use Rattle.write_data.specs.Runs.{same_order, keeps, halves, run_kind, run_step, run_size, turned, run_bytes, joins, runs_size, Added, Planned, one_run};
ghost use Rattle.write_data.specs.Blocks.{strewn, block_bytes};

use codes::Kind;

// Where `n` observations of `k` variables stand: the first row at `p`, the type list at `types`; whether the edition has tags, the
// byte order, and the widths of v and o in a strL cell.
#[derive(Clone, Copy)]
pub struct Source {
    pub p: usize,
    pub n: usize,
    pub types: usize,
    pub k: usize,
    pub tagged: bool,
    pub msf: bool,
    pub vwidth: usize,
    pub owidth: usize,
}

// How cells are read and how they are written: the byte order, and the widths of v and o in a strL cell.
#[derive(Clone, Copy)]
pub struct Forms {
    pub msf: bool,
    pub v: usize,
    pub o: usize,
    pub tomsf: bool,
    pub tov: usize,
    pub too: usize,
}

// ---- runs: cells beside each other that are written in the same way, by their kind: 0, a text; 1, bytes that are copied;
// 2, 4 and 8, numbers of so many bytes; 3, references. A run in a table is its count times 16, and its kind. It is one number, and no
// enum beside a count: a table of 32,768 runs is fixed memory.

// Whether numbers keep their byte order.
fn same_order(h: Forms) -> bool
    ensures { result ≡ same_order h }
{
    h.msf == h.tomsf
}

// Whether references keep their form.
fn kept(h: Forms) -> bool
    ensures { result ≡ keeps h }
{
    same_order(h) && h.v == h.tov
}

// How references that change are written: as numbers of 4 bytes where v and o are that before and after.
fn link_kind(h: Forms) -> u32
    ensures { result ≡ cond (halves h) 4 3 }
{
    if h.v == 4 && h.tov == 4 { 4 } else { 3 }
}

// How cells of a kind are written.
fn run_kind(kind: Kind, h: Forms) -> u32
    ensures { result ≡ run_kind h kind }
{
    match kind {
        Kind::Text | Kind::Unknown => 0,
        Kind::StrL => if kept(h) { 1 } else { link_kind(h) },
        Kind::Byte => 1,
        Kind::Int => if same_order(h) { 1 } else { 2 },
        Kind::Long | Kind::Float => if same_order(h) { 1 } else { 4 },
        Kind::Double => if same_order(h) { 1 } else { 8 },
    }
}

// How many bytes a count of 1 stands for. Arms are not joined: with `0 | 1`, short runs were put measurably slower.
#[tactic(auto, using(crate::proofs::RunLaws::step_eight), unfolding(crate::specs::Runs::run_step))]
fn run_step(s: u32) -> usize
    ensures { (result ≡ run_step s) × (1 ≤ result) × (result ≤ 8) }
{
    match s {
        0 => 1,
        1 => 1,
        2 => 2,
        3 => 8,
        4 => 4,
        _ => 8,
    }
}

// Whether a run of kind `s` joins the last of the `r` runs.
fn joins_last(t: &[u32; 32768], r: usize, s: u32) -> bool
    requires { r ≤ 32768 }
    ensures { result ≡ joins t.now r s }
{
    s != 0 && r != 0 && t[r - 1] % 16 == s
}

// One run more after the `r` runs of `t`; gives how many there are then.
fn add_run(t: &mut [u32; 32768], r: usize, s: u32, c: u32) -> usize
    requires { (length t.old ≡ 32768) × (r ≤ 32767) × (s < 16) × (runs_size t.old r + run_size s c ≤ 67108864) }
    ensures { Added t.old r s c t.new result }
{
    if joins_last(t, r, s) {
        t[r - 1] += c * 16;
        r
    } else {
        t[r] = c * 16 + s;
        r + 1
    }
}

// The runs of a row, into `t`; gives how many there are.
fn plan(t: &mut [u32; 32768], f: &[u8], g: Source, h: Forms) -> usize
    requires { Sourced f.now g × Eights h × (length t.old ≡ 32768) }
    ensures { Planned f.now g h t.new result }
{
    let mut r: usize = 0;
    for i in 0..g.k {
        let x = data::field_at(f, g.types, i, g.tagged, g.msf);
        let s = run_kind(x.kind, h);
        let c = (x.width / run_step(s)) as u32;
        r = add_run(t, r, s, c);
    }
    r
}

// ---- what is written for a run

// The number of `w` bytes at `q`, with its bytes in the other order.
fn put_turned(out: &mut [u8], f: &[u8], q: usize, w: usize)
    requires { (q + w ≤ length f.now) × (w ≤ length out.old) × (w ≤ 8) }
    ensures { out.new ≡ turned w f.now q ++ drop w out.old }
{
    number::put_number(out, number::number(f, q, w, false), w, true);
}

// The `c` numbers of `w` bytes at `q`, each with its bytes in the other order. It stands here, not beside other writers of numbers: it is
// called with literals, so that each width has a loop of its own.
fn put_numbers(out: &mut [u8], f: &[u8], q: usize, c: usize, w: usize)
    requires { (q + c * w ≤ length f.now) × (c * w ≤ length out.old) × (w ≤ 8) }
    ensures { out.new ≡ put_times (number lsf w) (number msf w) c f.now q ++ drop (c * w) out.old }
{
    for i in 0..c {
        put_turned(&mut out[i * w..], f, q + i * w, w);
    }
}

// The text in the field of `w` bytes at `q`, byte by byte: for short fields.
fn put_word(out: &mut [u8], f: &[u8], q: usize, w: usize)
    requires { (q + w ≤ length f.now) × (w ≤ length out.old) }
    ensures { out.new ≡ fill (text_slots w (text_at w f.now q)) ++ drop w out.old }
{
    for i in 0..w {
        if f[q + i] == 0 {
            text::put_zeros(&mut out[i..], w - i);
            return;
        }
        out[i] = f[q + i];
    }
}

// The text in the field of `w` bytes at `q`.
fn put_field(out: &mut [u8], f: &[u8], q: usize, w: usize)
    requires { (q + w ≤ length f.now) × (w ≤ length out.old) }
    ensures { out.new ≡ fill (text_slots w (text_at w f.now q)) ++ drop w out.old }
{
    if w < 32 {
        put_word(out, f, q, w);
    } else {
        text::put_text(out, f, q, w, w);
    }
}

// The reference at `q`.
fn put_link(out: &mut [u8], f: &[u8], q: usize, h: Forms)
    requires { (q + 8 ≤ length f.now) × (8 ≤ length out.old) × Eights h }
    ensures { out.new ≡ fill ((to h strl_type).slots ((from h strl_type).read f.now q)) ++ drop 8 out.old }
{
    let x = number::number(f, q, h.v, h.msf);
    let y = number::number(f, q + h.v, h.o, h.msf);
    number::put_number(&mut out[..], x, h.tov, h.tomsf);
    let a = h.tov;
    number::put_number(&mut out[a..], y, h.too, h.tomsf);
}

// The `c` references at `q`.
fn put_links(out: &mut [u8], f: &[u8], q: usize, c: usize, h: Forms)
    requires { (q + c * 8 ≤ length f.now) × (c * 8 ≤ length out.old) × Eights h }
    ensures { out.new ≡ put_times (from h strl_type) (to h strl_type) c f.now q ++ drop (c * 8) out.old }
{
    for i in 0..c {
        put_link(&mut out[i * 8..], f, q + i * 8, h);
    }
}

// The run of kind `s` and count `c` at `q`.
#[tactic(auto, using(crate::proofs::RunLaws::step_eight, crate::proofs::RunLaws::run_eight), unfolding(crate::specs::Runs::run_step, crate::specs::Runs::run_bytes))]
fn put_run(out: &mut [u8], f: &[u8], q: usize, s: u32, c: usize, h: Forms)
    requires { (q + run_size s c ≤ length f.now) × (run_size s c ≤ length out.old) × Eights h }
    ensures { out.new ≡ run_bytes h s c f.now q ++ drop (run_size s c) out.old }
{
    match s {
        0 => put_field(out, f, q, c),
        1 => text::put_bytes(out, f, q, c),
        2 => put_numbers(out, f, q, c, 2),
        3 => put_links(out, f, q, c, h),
        4 => put_numbers(out, f, q, c, 4),
        _ => put_numbers(out, f, q, c, 8),
    }
}

// ---- rows, by blocks: a run is put for all rows of a block before the next one is, so that what kind it is is asked once for a block

// The run of kind `s` and count `c` at `a` of each of the `m` rows of `w` bytes from `q` on. Rows are numbers, no struct: clauses name each
// of them, and would be no plainer.
fn put_runs(
    out: &mut [u8],
    f: &[u8],
    q: usize,
    a: usize,
    s: u32,
    c: usize,
    w: usize,
    m: usize,
    h: Forms,
)
    requires { (q + m * w ≤ length f.now) × (m * w ≤ length out.old) × (a + run_size s c ≤ w) × Eights h }
    ensures { out.new ≡ strewn (λ (j : ℕ). run_bytes h s c f.now (q + (j * w + a))) a w m out.old }
{
    for i in 0..m {
        let b = i * w + a;
        put_run(&mut out[b..], f, q + b, s, c, h);
    }
}

// The same, by the table's entry `e`. Kinds are named, so that each has a loop of its own.
fn put_many(out: &mut [u8], f: &[u8], q: usize, a: usize, e: u32, w: usize, m: usize, h: Forms)
    requires { (q + m * w ≤ length f.now) × (m * w ≤ length out.old) × (a + run_size (e % 16) (e / 16) ≤ w) × Eights h }
    ensures { out.new ≡ strewn (λ (j : ℕ). run_bytes h (e % 16) (e / 16) f.now (q + (j * w + a))) a w m out.old }
{
    let c = (e / 16) as usize;
    match e % 16 {
        0 => put_runs(out, f, q, a, 0, c, w, m, h),
        1 => put_runs(out, f, q, a, 1, c, w, m, h),
        2 => put_runs(out, f, q, a, 2, c, w, m, h),
        4 => put_runs(out, f, q, a, 4, c, w, m, h),
        8 => put_runs(out, f, q, a, 8, c, w, m, h),
        _ => put_runs(out, f, q, a, e % 16, c, w, m, h),
    }
}

// The same, with one, two or three numbers first: they are the most frequent, and need no loop in a row.
fn put_column(out: &mut [u8], f: &[u8], q: usize, a: usize, e: u32, w: usize, m: usize, h: Forms)
    requires { (q + m * w ≤ length f.now) × (m * w ≤ length out.old) × (a + run_size (e % 16) (e / 16) ≤ w) × Eights h }
    ensures { out.new ≡ strewn (λ (j : ℕ). run_bytes h (e % 16) (e / 16) f.now (q + (j * w + a))) a w m out.old }
{
    match e {
        17 => put_runs(out, f, q, a, 1, 1, w, m, h),
        18 => put_runs(out, f, q, a, 2, 1, w, m, h),
        20 => put_runs(out, f, q, a, 4, 1, w, m, h),
        24 => put_runs(out, f, q, a, 8, 1, w, m, h),
        34 => put_runs(out, f, q, a, 2, 2, w, m, h),
        36 => put_runs(out, f, q, a, 4, 2, w, m, h),
        40 => put_runs(out, f, q, a, 8, 2, w, m, h),
        50 => put_runs(out, f, q, a, 2, 3, w, m, h),
        52 => put_runs(out, f, q, a, 4, 3, w, m, h),
        56 => put_runs(out, f, q, a, 8, 3, w, m, h),
        _ => put_many(out, f, q, a, e, w, m, h),
    }
}

// How many bytes the run of the table's entry `e` has.
fn run_size(e: u32) -> usize
    ensures { result ≡ run_size (e % 16) (e / 16) }
{
    (e / 16) as usize * run_step(e % 16)
}

// The `m` rows of `w` bytes from `q` on, by the `r` runs of each.
fn put_block(
    out: &mut [u8],
    f: &[u8],
    t: &[u32; 32768],
    r: usize,
    q: usize,
    w: usize,
    m: usize,
    h: Forms,
)
    requires { (q + m * w ≤ length f.now) × (m * w ≤ length out.old) × (runs_size t.now r ≡ w) × (r ≤ 32767) × Eights h }
    ensures { out.new ≡ block_bytes t.now h r f.now q w m ++ drop (m * w) out.old }
{
    let mut a: usize = 0;
    for i in 0..r {
        let e = t[i];
        put_column(&mut out[..], f, q, a, e, w, m, h);
        a += run_size(e);
    }
}

// How many of the `left` rows of `w` bytes make a block: about 4,096 bytes, at least a row. A block's bytes stay near while its runs are put.
fn block_rows(w: usize, left: usize) -> usize
    requires { 1 ≤ left }
    ensures { (1 ≤ result) × (result ≤ left) }
{
    if 4096 <= w {
        return 1;
    }
    let b = 4096 / (w + 1) + 1;
    if b < left { b } else { left }
}

// The rows, block by block; `w` is a row's width.
fn put_each(out: &mut [u8], f: &[u8], t: &[u32; 32768], r: usize, w: usize, g: Source, h: Forms)
    requires { Sourced f.now g × Planned f.now g h t.now r × (w ≡ row_span f.now g) × (g.n * w ≤ length out.old) × Eights h }
    ensures { out.new ≡ rows_bytes f.now g h ++ drop (g.n * w) out.old }
{
    let n = g.n;
    let mut j: usize = 0;
    while j < n {
        let m = block_rows(w, n - j);
        put_block(&mut out[j * w..], f, t, r, g.p + j * w, w, m, h);
        j += m;
    }
}

// Whether a row is one run that can be joined with the next row's.
fn one_run(t: &[u32; 32768], r: usize) -> bool
    ensures { result ≡ one_run t.now r }
{
    r == 1 && t[0] % 16 != 0
}

// The observations of the source, in the byte order of `tomsf` and with v in `tov` and o in `too` bytes of a strL cell; gives how
// many bytes they have.
pub fn put_rows(out: &mut [u8], f: &[u8], g: Source, tomsf: bool, tov: usize, too: usize) -> usize
    requires { Sourced f.now g × (g.n * row_span f.now g ≤ length out.old) × (tov + too ≡ 8) }
    ensures { Puts (rows_bytes f.now g (forms g tomsf tov too)) out.old out.new result }
{
    let h = Forms {
        msf: g.msf,
        v: g.vwidth,
        o: g.owidth,
        tomsf,
        tov,
        too,
    };
    let mut t = [0u32; 32768];
    let r = plan(&mut t, f, g, h);
    let w = data::row_width(f, g.types, g.k, g.tagged, g.msf);
    let m = g.n * w;
    if one_run(&t, r) {
        put_run(out, f, g.p, t[0] % 16, (t[0] / 16) as usize * g.n, h);
    } else {
        put_each(out, f, &t, r, w, g, h);
    }
    m
}
