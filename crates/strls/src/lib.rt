#![tactic(auto)]

ghost use Rattle.std.specs.Prelude.{◌≡◌, true, cond, ◌+◌, ◌*◌, ◌<◌, ◌≤◌, length};
ghost use Rattle.format.specs.Number.{order_by};
ghost use Rattle.format.specs.Data.{long_next, long_record, strls};
ghost use Rattle.section.specs.Judged.{Judged};
ghost use Rattle.data.specs.Places.{field_at};
ghost use Rattle.strls.specs.Records.{order_of, longs, linked_longs, kind_ok, pair_at};
ghost use Rattle.strls.specs.Links.{earlier, place_of, is_long, link_at, self_at, link_ok, record_step, cell_step, row_run, data_run, rule11, Framed, Offsets, Nexts, Tabled, cells_of, Ran};

use codes::{Field, Kind};
use refusal::Refusal;

// Where the type list and the data's first row stand, how many variables and observations there are, whether the edition has
// tags, the byte order, and the widths of v and o in a cell and of o in a record.
#[derive(Clone, Copy)]
pub struct Frame {
    pub types: usize,
    pub k: usize,
    pub data: usize,
    pub n: usize,
    pub tagged: bool,
    pub msf: bool,
    pub vwidth: usize,
    pub owidth: usize,
    pub rwidth: usize,
}

// Whether a record is next at `p`. The three bytes are compared at once.
fn gso_at(f: &[u8], p: usize, tagged: bool) -> bool
    requires { p ≤ length f.now }
    ensures { result ≡ long_next tagged f.now p }
{
    tagged && 3 <= f.len() - p && (f[p] == b'G') & (f[p + 1] == b'S') & (f[p + 2] == b'O')
}

// Whether contents of `n` bytes at `p` are right for their kind.
fn kind_ok(f: &[u8], p: usize, kind: u64, n: usize) -> bool
    requires { p + n ≤ length f.now }
    ensures { result ≡ kind_ok f.now p kind n }
{
    kind == 129 || kind == 130 && 2 <= n && text::zero_last(f, p, n)
}

// Whether (`v`, `o`) is (`i`, `j`) or an earlier cell. Each test is a branch of its own: joined, references are slower by a quarter.
fn is_earlier(v: usize, o: usize, i: usize, j: usize) -> bool
    ensures { result ≡ earlier v o i j }
{
    if o < j {
        return true;
    }
    if o != j {
        return false;
    }
    v <= i
}

// Whether the numbers of `vw` and of `ow` bytes at `p` are `v` and `o`. Where the widths are constants, each number is one load.
// No method of the pass, which a call would store whole: references were slower by a quarter.
fn pair_at(f: &[u8], p: usize, vw: usize, ow: usize, msf: bool, v: usize, o: usize) -> bool
    requires { (p + vw + ow ≤ length f.now) × (vw ≤ 8) × (ow ≤ 8) }
    ensures { result ≡ pair_at (order_by msf) vw ow f.now p v o }
{
    number::number(f, p, vw, msf) == v as u64 && number::number(f, p + vw, ow, msf) == o as u64
}

// A pass over the data's strL cells: a file with its frame, and both tables, of the variables' offsets in a row and of the next strL
// variables.
#[derive(Clone, Copy)]
struct Pass<'a> {
    f: &'a [u8],
    d: Frame,
    offsets: &'a [u32; 32768],
    nexts: &'a [u16; 32768],
    ghost tabled: { Tabled f.now d offsets.now nexts.now },
    ghost counted: { d.n < 18446744073709551616 },
}

impl<'a> Pass<'a> {
    // Whether a record whose numbers start at `p` is that of (`v`, `o`).
    fn named_at(self, p: usize, v: usize, o: usize) -> bool
        requires { p + 4 + self.d.rwidth ≤ length self.f.now }
        ensures { result ≡ pair_at (order_of self.entry.d) 4 self.entry.d.rwidth self.entry.f.now p v o }
    {
        match self.d.rwidth {
            4 => pair_at(self.f, p, 4, 4, self.d.msf, v, o),
            8 => pair_at(self.f, p, 4, 8, self.d.msf, v, o),
            w => pair_at(self.f, p, 4, w, self.d.msf, v, o),
        }
    }

    // The record of (`v`, `o`), due at `q`: where the next one is due. Refused where no right and whole one is there.
    #[tactic(auto, unfolding(crate::specs::Records::record_ok))]
    fn record_step(self, q: usize, v: usize, o: usize) -> Result<usize, Refusal>
        requires { q ≤ length self.f.now }
        ensures { Ran self.entry.f.now (record_step self.entry.f.now self.entry.d q v o) result }
    {
        let f = self.f;
        let w = self.d.rwidth;
        let h = 12 + w;
        if f.len() - q < h || !gso_at(f, q, self.d.tagged) || !self.named_at(q + 3, v, o) {
            return Err(Refusal::WrongLongString);
        }
        let at = q + h;
        let n = number::number(f, q + (8 + w), 4, self.d.msf) as usize;
        let kind = number::number(f, q + (7 + w), 1, self.d.msf);
        if f.len() - at < n || !kind_ok(f, at, kind, n) {
            return Err(Refusal::WrongLongString);
        }
        Ok(at + n)
    }

    // Whether the strL cell at `p` is the reference (`v`, `o`).
    #[inline(always)]
    fn link_at(self, p: usize, v: usize, o: usize) -> bool
        requires { p + 8 ≤ length self.f.now }
        ensures { result ≡ link_at self.entry.f.now self.entry.d p v o }
    {
        match self.d.vwidth {
            4 => pair_at(self.f, p, 4, 4, self.d.msf, v, o),
            2 => pair_at(self.f, p, 2, 6, self.d.msf, v, o),
            w => pair_at(self.f, p, w, self.d.owidth, self.d.msf, v, o),
        }
    }

    // Where the cell of variable `i` in observation `j` stands.
    fn place_of(self, i: usize, j: usize) -> usize
        requires { (i < self.d.k) × (j < self.d.n) × (is_long self.f.now self.d i ≡ true) }
        ensures { (result ≡ place_of self.entry.f.now self.entry.d i j) × (result + 8 ≤ length self.entry.f.now) }
    {
        self.d.data + j * (self.offsets[self.d.k] as usize) + self.offsets[i] as usize
    }

    // Whether cell (`v`, `o`) is strL and names itself. As in `is_earlier`, the tests are branches.
    fn names_itself(self, v: usize, o: usize) -> bool
        ensures { result ≡ self_at self.entry.f.now self.entry.d v o }
    {
        if v < 1 || self.d.k < v {
            return false;
        }
        if o < 1 || self.d.n < o {
            return false;
        }
        let i = v - 1;
        self.nexts[i] as usize == i && self.link_at(self.place_of(i, o - 1), v, o)
    }

    // Whether the reference at `p`, the strL cell of variable `i` in observation `j`, is right.
    #[tactic(auto, unfolding(crate::specs::Links::link_ok))]
    fn link_ok(self, p: usize, i: usize, j: usize) -> bool
        requires { (p ≡ place_of self.f.now self.d i j) × (p + 8 ≤ length self.f.now) × (i < self.d.k) × (j < self.d.n) }
        ensures { result ≡ link_ok self.entry.f.now self.entry.d i j }
    {
        if self.link_at(p, 0, 0) {
            return true;
        }
        let d = self.d;
        let v = number::number(self.f, p, d.vwidth, d.msf) as usize;
        let o = number::number(self.f, p + d.vwidth, d.owidth, d.msf) as usize;
        if !is_earlier(v, o, i + 1, j + 1) {
            return false;
        }
        self.names_itself(v, o)
    }

    // The strL variable `i` in observation `j`, where the record at `q` is due. A cell that names itself is right: no other is looked at.
    #[tactic(auto, unfolding(crate::specs::Links::cell_step), using(crate::proofs::LinkLaws::ref_own))]
    fn cell_step(self, i: usize, j: usize, q: usize) -> Result<usize, Refusal>
        requires { (i < self.d.k) × (j < self.d.n) × (is_long self.f.now self.d i ≡ true) × (q ≤ length self.f.now) }
        ensures { Ran self.entry.f.now (cell_step self.entry.f.now self.entry.d i j q) result }
    {
        let p = self.place_of(i, j);
        if self.link_at(p, i + 1, j + 1) {
            return self.record_step(q, i + 1, j + 1);
        }
        if self.link_ok(p, i, j) {
            Ok(q)
        } else {
            Err(Refusal::WrongLongString)
        }
    }

    // The strL cells of observation `j`.
    fn row_run(self, j: usize, start: usize) -> Result<usize, Refusal>
        requires { (j < self.d.n) × (start ≤ length self.f.now) }
        ensures { Ran self.entry.f.now (row_run self.entry.f.now self.entry.d self.entry.d.k 0 j start) result }
    {
        let mut q = start;
        let mut i = self.nexts[0] as usize;
        while i < self.d.k {
            q = self.cell_step(i, j, q)?;
            i = self.nexts[i + 1] as usize;
        }
        Ok(q)
    }

    // All observations; none is read where no variable is strL.
    fn data_run(self, start: usize) -> Result<usize, Refusal>
        requires { start ≤ length self.f.now }
        ensures { Ran self.entry.f.now (data_run self.entry.f.now self.entry.d self.entry.d.n 0 start) result }
    {
        if self.nexts[0] as usize == self.d.k {
            return Ok(start);
        }
        let mut q = start;
        for j in 0..self.d.n {
            q = self.row_run(j, q)?;
        }
        Ok(q)
    }
}

// A file with the frame of its long strings.
#[derive(Clone, Copy)]
struct Strls<'a> {
    f: &'a [u8],
    d: Frame,
    ghost framed: { Framed f.now d },
    ghost counted: { d.n < 18446744073709551616 },
}

impl<'a> Strls<'a> {
    // The record at `q`: whether it is whole.
    fn long_record(self, q: usize) -> Result<usize, Refusal>
        requires { (q ≤ length self.f.now) × (long_next self.d.tagged self.f.now q ≡ true) }
        ensures { Judged (long_record self.entry.d.tagged (order_of self.entry.d) self.entry.d.rwidth) self.entry.f.now q result }
    {
        let f = self.f;
        let w = self.d.rwidth;
        let h = 12 + w;
        if f.len() - q < h {
            return Err(Refusal::CutShort);
        }
        let n = number::number(f, q + (8 + w), 4, self.d.msf) as usize;
        if f.len() - (q + h) < n {
            return Err(Refusal::CutShort);
        }
        Ok(q + (h + n))
    }

    // The records from `start` on.
    fn records(self, start: usize) -> Result<usize, Refusal>
        requires { start ≤ length self.f.now }
        ensures { Judged (longs self.entry.d) self.entry.f.now start result }
    {
        let mut q = start;
        while gso_at(self.f, q, self.d.tagged) {
            q = self.long_record(q)?;
        }
        Ok(q)
    }

    // Kind and width of the cells of variable `i`.
    #[inline(always)]
    fn field_at(self, i: usize) -> Field
        requires { i < self.d.k }
        ensures { result ≡ field_at self.entry.d.tagged (order_of self.entry.d) self.entry.f.now self.entry.d.types i }
    {
        data::field_at(self.f, self.d.types, i, self.d.tagged, self.d.msf)
    }

    // Whether variable `i` is strL.
    #[tactic(auto, unfolding(crate::specs::Links::is_long))]
    fn long_at(self, i: usize) -> bool
        requires { i < self.d.k }
        ensures { result ≡ is_long self.entry.f.now self.entry.d i }
    {
        matches!(self.field_at(i).kind, Kind::StrL)
    }

    // Into `nexts`, for each variable, the first strL variable at or after it, `k` where there is none.
    fn fill_nexts(self, nexts: &mut [u16; 32768])
        ensures { Nexts self.entry.f.now self.entry.d 0 nexts.new }
    {
        let k = self.d.k;
        nexts[k] = k as u16;
        for i in (0..k).rev() {
            nexts[i] = if self.long_at(i) {
                i as u16
            } else {
                nexts[i + 1]
            };
        }
    }

    // The variables' offsets in a row into `offsets`, and the row's width after them.
    fn fill_offsets(self, offsets: &mut [u32; 32768])
        ensures { Offsets self.entry.f.now self.entry.d self.entry.d.k offsets.new }
    {
        offsets[0] = 0;
        let mut sum: u32 = 0;
        for i in 0..self.d.k {
            sum += self.field_at(i).width as u32;
            offsets[i + 1] = sum;
        }
    }

    // Number 11: the references, and the records from `start` on. Where it does not refuse, it has passed all records.
    fn rule_11(self, start: usize) -> Result<usize, Refusal>
        requires { start ≤ length self.f.now }
        ensures { Ran self.entry.f.now (rule11 self.entry.f.now self.entry.d start) result }
    {
        let mut offsets = [0u32; 32768];
        self.fill_offsets(&mut offsets);
        let mut nexts = [0u16; 32768];
        self.fill_nexts(&mut nexts);
        let pass = Pass {
            f: self.f,
            d: self.d,
            offsets: &offsets,
            nexts: &nexts,
        };
        let end = pass.data_run(start)?;
        if gso_at(self.f, end, self.d.tagged) {
            return Err(Refusal::WrongLongString);
        }
        Ok(end)
    }

    // The records from `start` on, then number 11. Only where it refuses are they walked over: 3 comes before 11.
    fn linked_records(self, start: usize) -> Result<usize, Refusal>
        requires { start ≤ length self.f.now }
        ensures { Judged (linked_longs self.entry.d (cells_of self.entry.f.now self.entry.d)) self.entry.f.now start result }
    {
        let passed = self.rule_11(start);
        if passed.is_err() {
            self.records(start)?;
        }
        passed
    }
}

// The long strings at `p`: the records, then number 11, then the closing tag. An untagged edition has none.
pub fn strl_list(f: &[u8], p: usize, d: Frame) -> Result<usize, Refusal>
    requires { Framed f.now d × (p ≤ length f.now) }
    ensures { Judged (strls d.tagged (order_of d) d.rwidth (cells_of f.now d)) f.now p result }
{
    if !d.tagged {
        return Ok(p);
    }
    let start = section::tag_or(f, p, b"<strls>", Refusal::WrongTag, d.tagged)?;
    let end = Strls { f, d }.linked_records(start)?;
    section::tag_or(f, end, b"</strls>", Refusal::WrongTag, d.tagged)
}
