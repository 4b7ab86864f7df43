// Label words of several variables at once: the offsets of all cells in a row are found in one pass over the type codes, and all label tables in one pass over the
// label blocks, where the variables are listed in the order of their label-set names. Variables of one label set that are listed beside each other share the list of
// where its texts end.

#![tactic(auto)]

ghost use Rattle.std.specs.Prelude.{◌≡◌, ◌++◌, ◌*◌, ◌/◌, ◌≤◌, ◌<◌, length, get_or, drop};
ghost use Rattle.questions.specs.Ask.{answer_of, ask_table};
ghost use Rattle.checking.specs.Checks.{layout_by};
ghost use Rattle.walks.specs.Answers.{set_by, lenless};
ghost use Rattle.coded.specs.Coded as Coded;
ghost use Rattle.coded.specs.Coded.{told, following};
ghost use Rattle.set_tables.specs.Tables.{Found};
ghost use Rattle.word_columns.specs.Across.{words_across, rows_from, TellsAcross};

use checking::Layout;
use refusal::Refusal;
use walks::LabelSet;

// The first number; 0 where there is none.
fn first_of(v: &[u64]) -> u64
    ensures { result ≡ get_or v.now 0 0 }
{
    v.first().copied().unwrap_or(0)
}

// So many observations from `j` on, at most those that there are.
fn rows_from(l: Layout, j: u64, rows: u64) -> u64
    ensures { result ≡ rows_from (layout_by l) j rows }
{
    rows.min(cell_runs::following(j, l.n))
}

// The label set of the variable at place `k` of the list, by the numbers in `t`, where the tables were found at once; else looked for by itself.
fn set_at(
    f: &[u8],
    l: Layout,
    v: &[u64],
    t: &[u64; 32768],
    found: Option<Result<(), Refusal>>,
    k: usize,
) -> Result<Option<LabelSet>, Refusal>
    requires { (Found f.now (layout_by l) v.now t.now found) × (k < length v.now) }
    ensures { lenless result ≡ lenless (set_by (answer_of f.now (layout_by l) (ask_table (get_or v.now k 0)))) }
{
    match found {
        Some(rest) if k < 32768 => set_tables::table_of(rest, t[k]),
        _ => label_words::set_of(f, l, v[k]),
    }
}

// The label words of the listed variables in `h` observations from `j` on, four numbers each, one variable after another, as many as `out` has room for; how many
// that are.
fn columns_in(f: &[u8], l: Layout, v: &[u64], j: u64, h: u64, out: &mut [u64]) -> usize
    requires { h ≤ following j l.n }
    ensures { (result ≡ Coded.least (length out.old / 4) (length v.now * h)) × (out.new ≡ told f.now (layout_by l) (words_across v.now j h) result ++ drop (result * 4) out.old) }
{
    let n = out.len() / 4;
    let mut a = [0u64; 32768];
    let first = column_list::list_offsets(&mut a, f, l);
    let mut b = [0u64; 32768];
    let found = set_tables::find_tables(&mut b, f, l, v);
    let mut t = [0u32; 20737];
    let mut x = None;
    let mut at: usize = 0;
    for k in 0..v.len() {
        if at == n {
            return at;
        }
        let c = column_list::column_at(f, l, &a, first, v[k]);
        let s = set_at(f, l, v, &b, found, k);
        let m = cell_runs::least(n - at, h);
        x = word_runs::words_in(f, l, v[k], j, m, c, s, &mut t, x, &mut out[at * 4..]);
        at += m;
    }
    at
}

// The label words of the listed variables in so many observations from `j` on, at most those that there are, four numbers each, one variable after another, as many
// as `out` has room for. 16 where the first variable or observation `j` is not there.
pub fn words_across(
    f: &[u8],
    l: Layout,
    v: &[u64],
    j: u64,
    rows: u64,
    out: &mut [u64],
) -> Result<usize, Refusal>
    ensures { TellsAcross f.now (layout_by l) v.now j rows out.old out.new result }
{
    if !cells::is_cell(l, first_of(v), j) {
        return Err(Refusal::NotThere);
    }
    let h = rows_from(l, j, rows);
    Ok(columns_in(f, l, v, j, h, &mut out[..]))
}
