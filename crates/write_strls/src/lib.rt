#![tactic(auto)]

ghost use Rattle.std.specs.Prelude.{◌+◌, ◌≤◌, length};
ghost use Rattle.format.specs.Number.{order_by};
ghost use Rattle.format.specs.Data.{long_record};
ghost use Rattle.writing.specs.Writes.{Puts, Room};
ghost use Rattle.write_strls.specs.Records.{RecordsSize, RecordsPut, head_bytes, record_bytes};

// How many bytes the records from `p` to `q` take with o in `toow` bytes.
pub fn records_size(
    f: &[u8],
    p: usize,
    q: usize,
    tagged: bool,
    msf: bool,
    ow: usize,
    toow: usize,
) -> usize
    requires { (Room (long_record tagged (order_by msf) ow) (long_record tagged (order_by msf) toow) f.now p q 18446744073709551615) × (ow ≤ 8) × (toow ≤ 8) }
    ensures { RecordsSize tagged (order_by msf) ow toow f.now p q result }
{
    let mut at = p;
    let mut sum: usize = 0;
    while at < q {
        let n = number::number(f, at + (8 + ow), 4, msf) as usize;
        at += 12 + ow + n;
        sum += 12 + toow + n;
    }
    sum
}

// Puts the bytes of a record before its contents, with `o` in `ow` bytes.
fn put_head(out: &mut [u8], v: u64, o: u64, kind: u64, n: u64, msf: bool, ow: usize)
    requires { (12 + ow ≤ length out.old) × (ow ≤ 8) }
    ensures { Puts (head_bytes (order_by msf) ow v o kind n) out.old out.new (12 + ow) }
{
    text::put_bytes(&mut out[..], b"GSO", 0, 3);
    number::put_number(&mut out[3..], v, 4, msf);
    number::put_number(&mut out[7..], o, ow, msf);
    number::put_number(&mut out[7 + ow..], kind, 1, msf);
    number::put_number(&mut out[8 + ow..], n, 4, msf);
}

// Puts the record at `p`, with `n` bytes of contents, in the byte order `tomsf` and with o in `toow` bytes.
fn put_record(
    out: &mut [u8],
    f: &[u8],
    p: usize,
    n: usize,
    msf: bool,
    ow: usize,
    tomsf: bool,
    toow: usize,
)
    requires { (p + (12 + ow + n) ≤ length f.now) × (12 + toow + n ≤ length out.old) × (ow ≤ 8) × (toow ≤ 8) }
    ensures { Puts (record_bytes (order_by msf) ow (order_by tomsf) toow f.now p n) out.old out.new (12 + toow + n) }
{
    let v = number::number(f, p + 3, 4, msf);
    let o = number::number(f, p + 7, ow, msf);
    let kind = number::number(f, p + (7 + ow), 1, msf);
    put_head(&mut out[..], v, o, kind, n as u64, tomsf, toow);
    text::put_bytes(&mut out[12 + toow..], f, p + (12 + ow), n);
}

// Puts the records from `p` to `q`, in the byte order `tomsf` and with o in `toow` bytes, at the start of `out`; gives how many bytes.
pub fn put_records(
    out: &mut [u8],
    f: &[u8],
    p: usize,
    q: usize,
    tagged: bool,
    msf: bool,
    ow: usize,
    tomsf: bool,
    toow: usize,
) -> usize
    requires { (Room (long_record tagged (order_by msf) ow) (long_record tagged (order_by tomsf) toow) f.now p q (length out.old)) × (ow ≤ 8) × (toow ≤ 8) }
    ensures { RecordsPut tagged (order_by msf) ow (order_by tomsf) toow f.now p q out.old out.new result }
{
    let mut from = p;
    let mut to: usize = 0;
    while from < q {
        let n = number::number(f, from + (8 + ow), 4, msf) as usize;
        put_record(&mut out[to..], f, from, n, msf, ow, tomsf, toow);
        from += 12 + ow + n;
        to += 12 + toow + n;
    }
    to
}
