#![tactic(auto)]

ghost use Rattle.std.specs.Prelude.{◌≡◌, [], ◌++◌, ◌≤◌, length};
ghost use Rattle.format.specs.Number.{order_by};
ghost use Rattle.format.specs.Dta.{dataset_of, positions, written};
ghost use Rattle.editions.specs.Editions.{numbers_of};
ghost use Rattle.writing.specs.Writes.{Puts};
ghost use Rattle.sources.specs.Sources.{Sourced, Holding};
ghost use Rattle.sources.specs.Parts.{head_to, map_to, extras_to, rows_to, longs_to, blocks_to};
ghost use Rattle.write_lists.specs.Lists.{first_lists, later_lists};

use editions::Edition;
use sources::Source;

// Puts header, map and the first lists of the source `s`, as the edition `to` has them, at the start of `out`; gives how many bytes.
fn put_first(
    out: &mut [u8],
    f: &[u8],
    s: Source,
    to: Edition,
    tomsf: bool,
    places: [u64; 14],
) -> usize
    requires { (Sourced f.now s) × (Holding f.now to (order_by tomsf)) × (places ≡ positions (numbers_of to) (order_by tomsf) (dataset_of f.now, [])) × (length (head_to (numbers_of to) (order_by tomsf) (dataset_of f.now) ++ (map_to (numbers_of to) (order_by tomsf) (dataset_of f.now) ++ first_lists (numbers_of to) (order_by tomsf) (dataset_of f.now))) ≤ length out.old) }
    ensures { Puts (head_to (numbers_of to) (order_by tomsf) (dataset_of f.now) ++ (map_to (numbers_of to) (order_by tomsf) (dataset_of f.now) ++ first_lists (numbers_of to) (order_by tomsf) (dataset_of f.now))) out.old out.new result }
{
    let label = &f[s.lat..s.lat + s.llen];
    let stamp = &f[s.sat..s.sat + s.slen];
    let a = write_header::put_header(
        &mut out[..],
        to,
        tomsf,
        s.k as u64,
        s.n as u64,
        label,
        stamp,
    );
    let b = a + write_map::put_map(&mut out[a..], places, to.tagged, tomsf);
    b + write_lists::first_lists(&mut out[b..], f, s, to, tomsf)
}

// Puts the later lists, no expansion blocks, and the data.
fn put_second(out: &mut [u8], f: &[u8], s: Source, to: Edition, tomsf: bool) -> usize
    requires { (Sourced f.now s) × (Holding f.now to (order_by tomsf)) × (length (later_lists (numbers_of to) (order_by tomsf) (dataset_of f.now) ++ (extras_to (numbers_of to) (order_by tomsf) (dataset_of f.now) ++ rows_to (numbers_of to) (order_by tomsf) (dataset_of f.now))) ≤ length out.old) }
    ensures { Puts (later_lists (numbers_of to) (order_by tomsf) (dataset_of f.now) ++ (extras_to (numbers_of to) (order_by tomsf) (dataset_of f.now) ++ rows_to (numbers_of to) (order_by tomsf) (dataset_of f.now))) out.old out.new result }
{
    let a = write_lists::later_lists(&mut out[..], f, s, to, tomsf);
    let b = a + write_parts::extra_part(&mut out[a..], to.tagged);
    b + write_rest::data_part(&mut out[b..], f, s, to, tomsf)
}

// Puts long strings and label blocks, and the end of the file.
fn put_third(out: &mut [u8], f: &[u8], s: Source, to: Edition, tomsf: bool) -> usize
    requires { (Sourced f.now s) × (Holding f.now to (order_by tomsf)) × (length (longs_to (numbers_of to) (order_by tomsf) (dataset_of f.now) ++ (blocks_to (numbers_of to) (order_by tomsf) (dataset_of f.now))) ≤ length out.old) }
    ensures { Puts (longs_to (numbers_of to) (order_by tomsf) (dataset_of f.now) ++ (blocks_to (numbers_of to) (order_by tomsf) (dataset_of f.now))) out.old out.new result }
{
    let a = write_rest::strl_part(&mut out[..], f, s, to, tomsf);
    a + write_rest::label_part(&mut out[a..], f, s, to, tomsf)
}

// Puts the dataset of the source `s`, as the edition `to` has it in the byte order `tomsf`, at the start of `out`; gives how many bytes.
// `places` are the result's positions.
pub fn put_all(
    out: &mut [u8],
    f: &[u8],
    s: Source,
    to: Edition,
    tomsf: bool,
    places: [u64; 14],
) -> usize
    requires { (Sourced f.now s) × (Holding f.now to (order_by tomsf)) × (places ≡ positions (numbers_of to) (order_by tomsf) (dataset_of f.now, [])) × (length (written (numbers_of to) (order_by tomsf) (dataset_of f.now)) ≤ length out.old) }
    ensures { Puts (written (numbers_of to) (order_by tomsf) (dataset_of f.now)) out.old out.new result }
{
    let a = put_first(&mut out[..], f, s, to, tomsf, places);
    let b = a + put_second(&mut out[a..], f, s, to, tomsf);
    b + put_third(&mut out[b..], f, s, to, tomsf)
}
