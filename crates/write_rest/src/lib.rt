#![tactic(auto)]

ghost use Rattle.std.specs.Prelude.{◌≤◌, length};
ghost use Rattle.format.specs.Number.{order_by};
ghost use Rattle.format.specs.Dta.{dataset_of};
ghost use Rattle.editions.specs.Editions.{numbers_of};
ghost use Rattle.writing.specs.Writes.{Puts};
ghost use Rattle.sources.specs.Sources.{Sourced, Holding};
ghost use Rattle.sources.specs.Parts.{rows_to, longs_to, blocks_to};

use editions::Edition;
use sources::Source;

// Puts the data of the source `s`, as the edition `to` has it, at the start of `out`; gives how many bytes.
pub fn data_part(out: &mut [u8], f: &[u8], s: Source, to: Edition, tomsf: bool) -> usize
    requires { (Sourced f.now s) × (Holding f.now to (order_by tomsf)) × (length (rows_to (numbers_of to) (order_by tomsf) (dataset_of f.now)) ≤ length out.old) }
    ensures { Puts (rows_to (numbers_of to) (order_by tomsf) (dataset_of f.now)) out.old out.new result }
{
    let g = write_data::Source {
        p: s.rows,
        n: s.n,
        types: s.types,
        k: s.k,
        tagged: s.edition.tagged,
        msf: s.msf,
        vwidth: s.edition.v_width,
        owidth: s.edition.o_width,
    };
    let a = writing::put_tag(&mut out[..], b"<data>", to.tagged);
    let b = a + write_data::put_rows(&mut out[a..], f, g, tomsf, to.v_width, to.o_width);
    b + writing::put_tag(&mut out[b..], b"</data>", to.tagged)
}

// Puts the long strings.
pub fn strl_part(out: &mut [u8], f: &[u8], s: Source, to: Edition, tomsf: bool) -> usize
    requires { (Sourced f.now s) × (Holding f.now to (order_by tomsf)) × (length (longs_to (numbers_of to) (order_by tomsf) (dataset_of f.now)) ≤ length out.old) }
    ensures { Puts (longs_to (numbers_of to) (order_by tomsf) (dataset_of f.now)) out.old out.new result }
{
    let e = s.edition;
    let a = writing::put_tag(&mut out[..], b"<strls>", to.tagged);
    let b = a
        + write_strls::put_records(
            &mut out[a..],
            f,
            s.longs,
            s.longsend,
            e.tagged,
            s.msf,
            e.record_width,
            tomsf,
            to.record_width,
        );
    b + writing::put_tag(&mut out[b..], b"</strls>", to.tagged)
}

// Puts the label blocks, and the end of the file.
pub fn label_part(out: &mut [u8], f: &[u8], s: Source, to: Edition, tomsf: bool) -> usize
    requires { (Sourced f.now s) × (Holding f.now to (order_by tomsf)) × (length (blocks_to (numbers_of to) (order_by tomsf) (dataset_of f.now)) ≤ length out.old) }
    ensures { Puts (blocks_to (numbers_of to) (order_by tomsf) (dataset_of f.now)) out.old out.new result }
{
    let e = s.edition;
    let t = to.tagged;
    let a = writing::put_tag(&mut out[..], b"<value_labels>", t);
    let b = a
        + write_labels::put_blocks(
            &mut out[a..],
            f,
            s.blocks,
            s.blocksend,
            e.tagged,
            e.name_width,
            s.msf,
            t,
            to.name_width,
            tomsf,
        );
    b + writing::put_tag(&mut out[b..], b"</value_labels></stata_dta>", t)
}
