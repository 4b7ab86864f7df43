#![tactic(auto)]

ghost use Rattle.std.specs.Prelude.{◌≡◌};
ghost use Rattle.format.specs.Dta.{dataset_of};
ghost use Rattle.editions.specs.Editions.{numbers_of};
ghost use Rattle.sources.specs.Sources.{Sourced};
ghost use Rattle.rewriting.specs.Held.{texts_held, held_in};
ghost use Rattle.rewriting.specs.Rewriting.{offered, Rewrites};

use editions::Edition;
use refusal::Refusal;
use sources::Source;

// Whether an edition and a byte order are offered.
fn is_offered(edition: u64, order: u64) -> bool
    ensures { result ≡ offered edition order }
{
    editions::is_release(edition) && (order == 1 || order == 2)
}

// Whether the fields of the edition `to` hold the names, display formats, label-set names and variable labels of the source `s`.
fn texts_held(f: &[u8], s: Source, to: Edition) -> bool
    requires { (Sourced f.now s) }
    ensures { result ≡ texts_held (numbers_of to) (dataset_of f.now) }
{
    // tests one after another: the proof of one expression of them did not close
    let e = s.edition;
    if !write_texts::texts_held(f, s.names, s.k, e.name_width, to.name_width) {
        return false;
    }
    if !write_texts::texts_held(f, s.formats, s.k, e.format_width, to.format_width) {
        return false;
    }
    if !write_texts::texts_held(f, s.sets, s.k, e.name_width, to.name_width) {
        return false;
    }
    write_texts::texts_held(f, s.labels, s.k, e.var_label_width, to.var_label_width)
}

// Whether the edition `to` can hold the dataset of the source `s`, in a result of `size` bytes.
fn is_held(f: &[u8], s: Source, to: Edition, size: u64) -> bool
    requires { (Sourced f.now s) }
    ensures { result ≡ held_in (numbers_of to) (dataset_of f.now) size }
{
    // as in `texts_held`
    let e = s.edition;
    if !write_types::types_held(f, s.types, s.k, e.tagged, s.msf, to.tagged) {
        return false;
    }
    if to.label_max < s.llen {
        return false;
    }
    if !texts_held(f, s, to) {
        return false;
    }
    if !write_labels::names_held(
        f,
        s.blocks,
        s.blocksend,
        e.tagged,
        e.name_width,
        s.msf,
        to.name_width,
    ) {
        return false;
    }
    size <= format::length_max()
}

// Writes the dataset of the file, in the edition and the byte order (1: MSF, 2: LSF), at the start of `out`; gives how many bytes.
pub fn rewrite(f: &[u8], edition: u64, order: u64, out: &mut [u8]) -> Result<usize, Refusal>
    ensures { Rewrites f.now edition order out.old out.new result }
{
    let s = sources::opened(f)?;
    if !is_offered(edition, order) {
        return Err(Refusal::NotHeld);
    }
    let to = editions::numbers_of(edition);
    let places = plans::plan_of(f, s, to);
    if !is_held(f, s, to, places[13]) {
        return Err(Refusal::NotHeld);
    }
    if (out.len() as u64) < places[13] {
        return Err(Refusal::NoRoom);
    }
    Ok(write_all::put_all(&mut out[..], f, s, to, order == 1, places))
}
