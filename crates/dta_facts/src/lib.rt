// The questions, as programs in other languages ask them: numbers and slices alone. A layout is eighteen numbers: edition, byte order, K, N, and the
// fourteen positions; where there are fewer, all are taken as zeros. An answer is four numbers (crates/coded/specs/Coded.antt).

#![tactic(auto)]

ghost use Rattle.std.specs.Prelude.{◌≡◌, [], cond, length, eqb, ℕ, ◌+◌};
ghost use Rattle.questions.specs.Ask.{ask_cell, ask_words};
ghost use Rattle.format.specs.Dta.{verdict, layout_of};
ghost use Rattle.checking.specs.Checks.{layout_by};
ghost use Rattle.asking.specs.Asking.{question_by, answer_by};
ghost use Rattle.coded.specs.Coded.{following};
ghost use Rattle.long_list.specs.Lists.{list_code, list_count, list_out};
ghost use Rattle.long_list.specs.Longs.{longs_of};
ghost use Rattle.set_list.specs.Sets.{sets_of};
ghost use Rattle.sort_order.specs.Sorted.{sorted_of};
ghost use Rattle.long_list.specs.Lists.{told_code, told_count};
ghost use Rattle.coded.specs.Coded as Coded;
ghost use Rattle.refusal.specs.Refusals as Refusals;
ghost use Rattle.dta_facts.specs.Exports.{layout_in, question_of, asked_in, asked_by, given, shown_by, code_of, file_code, copied, answered, stored, Runs, RunsAcross};

use asking::{Answer, Question};
use checking::Layout;
use long_list::Untold;
use refusal::Refusal;

// The layout of eighteen numbers; all zeros where there are fewer.
fn layout_in(s: &[u64]) -> Layout
    ensures { layout_by result ≡ layout_in s.now }
{
    let mut places = [0u64; 14];
    if s.len() < 18 {
        return Layout {
            edition: 0,
            order: 0,
            k: 0,
            n: 0,
            places,
        };
    }
    places.copy_from_slice(&s[4..18]);
    Layout {
        edition: s[0],
        order: s[1],
        k: s[2],
        n: s[3],
        places,
    }
}

// The question of a number from 0 to 15.
fn question_of(q: u64, i: u64, j: u64) -> Question
    ensures { question_by result ≡ question_of q i j }
{
    match q {
        0 => Question::Edition,
        1 => Question::Order,
        2 => Question::Variables,
        3 => Question::Rows,
        4 => Question::Label,
        5 => Question::Stamp,
        6 => Question::Type(i),
        7 => Question::Name(i),
        8 => Question::Format(i),
        9 => Question::Set(i),
        10 => Question::VarLabel(i),
        11 => Question::Date(i),
        12 => Question::Sort(i),
        13 => Question::Content(i, j),
        14 => Question::LongString(i, j),
        _ => Question::LabelWords(i, j),
    }
}

// The answer to the question of a number; none where there is no such question.
fn asked(file: &[u8], layout: &[u64], q: u64, i: u64, j: u64) -> Option<Answer>
    ensures { given result ≡ asked_by file.now layout.now q i j }
{
    if 15 < q {
        return None;
    }
    Some(viewed::asked(file, layout_in(layout), question_of(q, i, j)))
}

// The refusal's number of an answer, 0 where it is none; 255 where there is no such question.
fn code_of(x: Option<Answer>) -> u8
    ensures { result ≡ code_of (given x) }
{
    match x {
        Some(Answer::Refused(refusal)) => refusal.number(),
        Some(_) => 0,
        None => 255,
    }
}

// The numbers of an answer; where there is no such question, those of a refusal with 255.
fn numbers_of(x: Option<Answer>) -> [u64; 4]
    ensures { result ≡ Coded.numbers_of (given x) }
{
    coded::numbers_of(x.ok_or(255))
}

// Stores an answer as four numbers, where `out` has room for them.
fn put_answer(out: &mut [u64], x: Option<Answer>)
    ensures { out.new ≡ answered (given x) out.old }
{
    if 4 <= out.len() {
        coded::put_four(out, numbers_of(x));
    }
}

// The answer to the question of a number, about variable `i` and observation `j`: 0, or the refusal's number, 255 where there is no such question. The answer
// is stored as four numbers; an `answer` with no room for them is left as it came.
#[unsafe(no_mangle)]
pub extern "C" fn dta_ask(
    file: &[u8],
    layout: &[u64],
    question: u64,
    i: u64,
    j: u64,
    answer: &mut [u64],
) -> u8
    ensures { (result ≡ code_of (asked_by file.now layout.now question i j)) × (answer.new ≡ answered (asked_by file.now layout.now question i j) answer.old) }
{
    let x = asked(file, layout, question, i, j);
    put_answer(&mut answer[..], x);
    code_of(x)
}

// The bytes that the answer to the question of a number shows.
fn shown_by<'a>(file: &'a [u8], layout: &[u64], q: u64, i: u64, j: u64, plain: &'a [u8]) -> &'a [u8]
    ensures { result.now ≡ shown_by file.now layout.now plain.now q i j }
{
    let l = layout_in(layout);
    if q == 15 {
        return viewed::words_asked(file, plain, l, i, j);
    }
    if q == 14 {
        return viewed::long_asked(file, l, i, j);
    }
    if q < 14 {
        return viewed::text_asked(file, l, question_of(q, i, j));
    }
    &file[0..0]
}

// The bytes that the answer to the question of a number shows, or `plain` where no label words are found: gives how many, and copies them to the start of
// `out`; an `out` with no room for all of them is left as it came.
#[unsafe(no_mangle)]
pub extern "C" fn dta_text<'a>(
    file: &'a [u8],
    layout: &[u64],
    question: u64,
    i: u64,
    j: u64,
    plain: &'a [u8],
    out: &mut [u8],
) -> usize
    ensures { (result ≡ length (shown_by file.now layout.now plain.now question i j)) × (out.new ≡ copied (shown_by file.now layout.now plain.now question i j) out.old) }
{
    let t = shown_by(file, layout, question, i, j, plain);
    let n = t.len();
    if n <= out.len() {
        text::put_bytes(out, t, 0, n);
    }
    n
}

// The answer to the question of a number by the file's own layout; the verdict's number is stored.
fn checked_by(file: &[u8], code: &mut u8, q: u64, i: u64, j: u64) -> Option<Answer>
    ensures { (code.new ≡ verdict file.now) × (given result ≡ asked_in file.now (layout_of file.now) q i j) }
{
    let x = viewed::checked_asked(file, code, question_of(q, i, j));
    if q <= 15 { Some(x) } else { None }
}

// The first number, or the second where that is 0.
fn first_code(a: u8, b: u8) -> u8
    ensures { result ≡ cond (eqb a 0) b a }
{
    if a == 0 {
        return b;
    }
    a
}

// The answer to the question of a number about a file, which is checked first: 0, or the refusal's number, the file's or else the answer's. The answer by the
// file's own layout, all zeros with a refusal, is stored as in `dta_ask`.
#[unsafe(no_mangle)]
pub extern "C" fn dta_ask_file(file: &[u8], question: u64, i: u64, j: u64, answer: &mut [u64]) -> u8
    ensures { (result ≡ file_code file.now (asked_in file.now (layout_of file.now) question i j)) × (answer.new ≡ answered (asked_in file.now (layout_of file.now) question i j) answer.old) }
{
    let mut verdict: u8 = 0;
    let x = checked_by(file, &mut verdict, question, i, j);
    put_answer(&mut answer[..], x);
    first_code(verdict, code_of(x))
}

// Stores a number in the first place of `out`, where it has one.
fn put_first(out: &mut [u64], n: u64)
    ensures { out.new ≡ stored n out.old }
{
    if 1 <= out.len() {
        out[0] = n;
    }
}

// How many answers a run stored.
fn count_of(run: Result<usize, Refusal>) -> u64
    ensures { result ≡ Coded.stored run }
{
    match run {
        Ok(count) => count as u64,
        Err(_) => 0,
    }
}

// The refusal's number of a run, 0 where it is none.
fn number_of(run: Result<usize, Refusal>) -> u8
    ensures { result ≡ Refusals.code_of run }
{
    match run {
        Ok(_) => 0,
        Err(refusal) => refusal.number(),
    }
}

// The cells of variable `i` from observation `j` on, four numbers each, as many as `answers` has room for: 0, or 16 where there is no such variable or no
// such observation. How many are stored is told in the first place of `count`, where it has one; 0 with a refusal.
#[unsafe(no_mangle)]
pub extern "C" fn dta_cells_down(
    file: &[u8],
    layout: &[u64],
    i: u64,
    j: u64,
    answers: &mut [u64],
    count: &mut [u64],
) -> u8
    ensures { Runs file.now (layout_in layout.now) i j (λ (m : ℕ). ask_cell i (j + m)) (following j (layout_in layout.now).rows) answers.old answers.new count.old count.new result }
{
    let down = cell_runs::cells_down(file, layout_in(layout), i, j, &mut answers[..]);
    put_first(&mut count[..], count_of(down));
    number_of(down)
}

// The cells of observation `j` from variable `i` on. Otherwise as `dta_cells_down`.
#[unsafe(no_mangle)]
pub extern "C" fn dta_cells_along(
    file: &[u8],
    layout: &[u64],
    i: u64,
    j: u64,
    answers: &mut [u64],
    count: &mut [u64],
) -> u8
    ensures { Runs file.now (layout_in layout.now) i j (λ (m : ℕ). ask_cell (i + m) j) (following i (layout_in layout.now).variables) answers.old answers.new count.old count.new result }
{
    let along = cell_runs::cells_along(file, layout_in(layout), i, j, &mut answers[..]);
    put_first(&mut count[..], count_of(along));
    number_of(along)
}

// The label words of the cells of variable `i` from observation `j` on. Otherwise as `dta_cells_down`.
#[unsafe(no_mangle)]
pub extern "C" fn dta_words_down(
    file: &[u8],
    layout: &[u64],
    i: u64,
    j: u64,
    answers: &mut [u64],
    count: &mut [u64],
) -> u8
    ensures { Runs file.now (layout_in layout.now) i j (λ (m : ℕ). ask_words i (j + m) []) (following j (layout_in layout.now).rows) answers.old answers.new count.old count.new result }
{
    let words = word_runs::words_down(file, layout_in(layout), i, j, &mut answers[..]);
    put_first(&mut count[..], count_of(words));
    number_of(words)
}

// The label words of the cells of the listed variables in `rows` observations from `j` on, at most those that there are, one variable after another, four numbers each,
// as many as `answers` has room for: 0, or 16 where the first variable or observation `j` is not there. Listed in the order of their label-set names, all label tables
// are found in one pass; the order changes no answer. `count` as in `dta_cells_down`.
#[unsafe(no_mangle)]
pub extern "C" fn dta_words_across(
    file: &[u8],
    layout: &[u64],
    variables: &[u64],
    j: u64,
    rows: u64,
    answers: &mut [u64],
    count: &mut [u64],
) -> u8
    ensures { RunsAcross file.now (layout_in layout.now) variables.now j rows answers.old answers.new count.old count.new result }
{
    let across = word_columns::words_across(
        file,
        layout_in(layout),
        variables,
        j,
        rows,
        &mut answers[..],
    );
    put_first(&mut count[..], count_of(across));
    number_of(across)
}

// How many numbers a list has, as it is told; 0 where the file is refused.
fn list_count(list: Result<usize, Untold>) -> u64
    ensures { result ≡ told_count list }
{
    match list {
        Ok(count) => count as u64,
        Err(Untold::NoRoom(count)) => count as u64,
        Err(Untold::Refused(_)) => 0,
    }
}

// The number of a list that is not told, 0 where it is.
fn list_code(list: Result<usize, Untold>) -> u8
    ensures { result ≡ told_code list }
{
    match list {
        Ok(_) => 0,
        Err(Untold::NoRoom(_)) => Refusal::NoRoom.number(),
        Err(Untold::Refused(refusal)) => refusal.number(),
    }
}

// The verdict on a file; of an accepted one, the long strings, five numbers each: v, o, kind, place and length of the contents. A `list` with no room for
// all of them is left as it came, and the answer is 14. How many numbers they are, with 14 too, is stored in the first place of `count`, where it has one; 0
// where the file is refused.
#[unsafe(no_mangle)]
pub extern "C" fn dta_long_list(file: &[u8], list: &mut [u64], count: &mut [u64]) -> u8
    ensures { (result ≡ list_code file.now (longs_of file.now) (length list.old)) × (list.new ≡ list_out file.now (longs_of file.now) list.old) × (count.new ≡ stored (list_count file.now (longs_of file.now)) count.old) }
{
    let longs = long_list::long_list(file, &mut list[..]);
    put_first(&mut count[..], list_count(longs));
    list_code(longs)
}

// The verdict on a file; of an accepted one, the label sets: for each, place and length of its name and how many entries it has, and then for each
// entry its value, as 32 bits, and place and length of its text. Otherwise as `dta_long_list`.
#[unsafe(no_mangle)]
pub extern "C" fn dta_set_list(file: &[u8], list: &mut [u64], count: &mut [u64]) -> u8
    ensures { (result ≡ list_code file.now (sets_of file.now) (length list.old)) × (list.new ≡ list_out file.now (sets_of file.now) list.old) × (count.new ≡ stored (list_count file.now (sets_of file.now)) count.old) }
{
    let sets = set_list::set_list(file, &mut list[..]);
    put_first(&mut count[..], list_count(sets));
    list_code(sets)
}

// The verdict on a file; of an accepted one, the numbers of the variables by which it is sorted, in that order. Otherwise as `dta_long_list`.
#[unsafe(no_mangle)]
pub extern "C" fn dta_sort_order(file: &[u8], list: &mut [u64], count: &mut [u64]) -> u8
    ensures { (result ≡ list_code file.now (sorted_of file.now) (length list.old)) × (list.new ≡ list_out file.now (sorted_of file.now) list.old) × (count.new ≡ stored (list_count file.now (sorted_of file.now)) count.old) }
{
    let sorted = sort_order::sort_order(file, &mut list[..]);
    put_first(&mut count[..], list_count(sorted));
    list_code(sorted)
}
