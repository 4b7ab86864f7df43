#![tactic(auto)]

ghost use Rattle.std.specs.Prelude.{◌≡◌};
ghost use Rattle.format.specs.Edition.{code_width};
ghost use Rattle.codes.specs.Fields.{field_of};

// The kind of a variable's cells.
#[derive(Clone, Copy)]
pub enum Kind {
    Text,
    StrL,
    Byte,
    Int,
    Long,
    Float,
    Double,
    Unknown,
}

// What a type code says: the kind of the cells, and how many bytes each has.
#[derive(Clone, Copy)]
pub struct Field {
    pub kind: Kind,
    pub width: usize,
}

// The field of a code: its kind and width, or `Unknown` and 0 where the edition does not know the code. A match on the pair of both would
// be one test after another, which is slower.
pub fn field_of(tagged: bool, code: u16) -> Field
    ensures { result ≡ field_of tagged code }
{
    let (kind, width) = if tagged {
        match code {
            1..=2045 => (Kind::Text, code as usize),
            32768 => (Kind::StrL, 8),
            65526 => (Kind::Double, 8),
            65527 => (Kind::Float, 4),
            65528 => (Kind::Long, 4),
            65529 => (Kind::Int, 2),
            65530 => (Kind::Byte, 1),
            _ => (Kind::Unknown, 0),
        }
    } else {
        match code {
            1..=244 => (Kind::Text, code as usize),
            251 => (Kind::Byte, 1),
            252 => (Kind::Int, 2),
            253 => (Kind::Long, 4),
            254 => (Kind::Float, 4),
            255 => (Kind::Double, 8),
            _ => (Kind::Unknown, 0),
        }
    };
    Field { kind, width }
}

// How many bytes a type code has.
pub fn code_width(tagged: bool) -> usize
    ensures { result ≡ code_width tagged }
{
    if tagged { 2 } else { 1 }
}
