#![tactic(auto)]

ghost use Rattle.std.specs.Prelude.{◌≤◌, length};
ghost use Rattle.format.specs.Number.{order_by};
ghost use Rattle.format.specs.Dta.{dataset_of};
ghost use Rattle.editions.specs.Editions.{numbers_of};
ghost use Rattle.writing.specs.Writes.{Puts};
ghost use Rattle.sources.specs.Sources.{Sourced, Holding};
ghost use Rattle.write_lists.specs.Lists.{first_lists, later_lists};

use editions::Edition;
use sources::Source;

// Puts types, names and sort list of the source `s`, as the edition `to` has them, at the start of `out`; gives how many bytes.
pub fn first_lists(out: &mut [u8], f: &[u8], s: Source, to: Edition, tomsf: bool) -> usize
    requires { (Sourced f.now s) × (Holding f.now to (order_by tomsf)) × (length (first_lists (numbers_of to) (order_by tomsf) (dataset_of f.now)) ≤ length out.old) }
    ensures { Puts (first_lists (numbers_of to) (order_by tomsf) (dataset_of f.now)) out.old out.new result }
{
    let e = s.edition;
    let t = to.tagged;
    let a = write_parts::type_part(&mut out[..], f, s.types, s.k, e.tagged, s.msf, t, tomsf);
    let b = a
        + write_parts::text_part(
            &mut out[a..],
            f,
            s.names,
            s.k,
            e.name_width,
            to.name_width,
            b"<varnames>",
            b"</varnames>",
            t,
        );
    b + write_parts::sort_part(&mut out[b..], f, s.sort, s.k + 1, s.msf, tomsf, t)
}

// Puts display formats, label-set names and variable labels.
pub fn later_lists(out: &mut [u8], f: &[u8], s: Source, to: Edition, tomsf: bool) -> usize
    requires { (Sourced f.now s) × (Holding f.now to (order_by tomsf)) × (length (later_lists (numbers_of to) (order_by tomsf) (dataset_of f.now)) ≤ length out.old) }
    ensures { Puts (later_lists (numbers_of to) (order_by tomsf) (dataset_of f.now)) out.old out.new result }
{
    let e = s.edition;
    let t = to.tagged;
    let a = write_parts::text_part(
        &mut out[..],
        f,
        s.formats,
        s.k,
        e.format_width,
        to.format_width,
        b"<formats>",
        b"</formats>",
        t,
    );
    let b = a
        + write_parts::text_part(
            &mut out[a..],
            f,
            s.sets,
            s.k,
            e.name_width,
            to.name_width,
            b"<value_label_names>",
            b"</value_label_names>",
            t,
        );
    b + write_parts::text_part(
        &mut out[b..],
        f,
        s.labels,
        s.k,
        e.var_label_width,
        to.var_label_width,
        b"<variable_labels>",
        b"</variable_labels>",
        t,
    )
}
