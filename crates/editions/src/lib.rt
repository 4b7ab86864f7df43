#![tactic(auto)]

ghost use Rattle.std.specs.Prelude.{◌≡◌, true, cond, Some, None};
ghost use Rattle.format.specs.Grammar.{no_zero, same_at};
ghost use Rattle.format.specs.Edition.{r117, r118, edition, is_release, release_by};
ghost use Rattle.format.specs.Dta.{begins, known, release_of, is_msf};
ghost use Rattle.editions.specs.Editions.{numbers_of, release_as, read_as};

use refusal::Refusal;

// The numbers that an edition's layout depends on.
#[derive(Clone, Copy)]
pub struct Edition {
    pub number: u8,
    pub tagged: bool,
    pub n_width: usize,
    pub label_max: usize,
    pub label_length: usize,
    pub name_width: usize,
    pub format_width: usize,
    pub var_label_width: usize,
    pub v_width: usize,
    pub o_width: usize,
    pub record_width: usize,
}

// Whether a file begins with the tags `t`.
fn begins_with(f: &[u8], t: &[u8]) -> bool
    requires { no_zero t.now ≡ true }
    ensures { result ≡ same_at t.now f.now 0 }
{
    text::tag_or(f, 0, t, Refusal::UnknownBeginning).is_ok()
}

// The numbers of 118.
fn numbers_118() -> Edition
    ensures { numbers_of result ≡ edition r118 }
{
    Edition {
        number: 118,
        tagged: true,
        n_width: 8,
        label_max: 320,
        label_length: 2,
        name_width: 129,
        format_width: 57,
        var_label_width: 321,
        v_width: 2,
        o_width: 6,
        record_width: 8,
    }
}

// An edition that is read, by its number.
#[derive(Clone, Copy)]
pub enum Release {
    R113 = 113,
    R114 = 114,
    R115 = 115,
    R117 = 117,
    R118 = 118,
}

impl Release {
    // Its number.
    pub fn number(self) -> u8
        ensures { result ≡ (edition (release_as self)).number }
    {
        self as u8
    }

    // The numbers of its layout.
    pub fn numbers(self) -> Edition
        ensures { numbers_of result ≡ edition (release_as self) }
    {
        let old = Edition {
            number: 115,
            tagged: false,
            n_width: 4,
            label_max: 80,
            label_length: 1,
            name_width: 33,
            format_width: 49,
            var_label_width: 81,
            v_width: 4,
            o_width: 4,
            record_width: 4,
        };
        match self {
            Release::R113 => Edition {
                number: 113,
                format_width: 12,
                ..old
            },
            Release::R114 => Edition { number: 114, ..old },
            Release::R115 => old,
            Release::R117 => Edition {
                number: 117,
                tagged: true,
                ..old
            },
            Release::R118 => numbers_118(),
        }
    }

    // The edition of a number, if it is one that is read.
    pub fn by_number(number: u64) -> Option<Release>
        ensures { read_as result ≡ cond (is_release number) (Some (release_by number)) None }
    {
        match number {
            113 => Some(Release::R113),
            114 => Some(Release::R114),
            115 => Some(Release::R115),
            117 => Some(Release::R117),
            118 => Some(Release::R118),
            _ => None,
        }
    }

    // The tagged edition as which a file begins.
    fn of_tagged(f: &[u8]) -> Option<Release>
        ensures { read_as result ≡ cond (begins r117 f.now) (Some r117) (cond (begins r118 f.now) (Some r118) None) }
    {
        if begins_with(f, b"<stata_dta><header><release>117</release>") {
            Some(Release::R117)
        } else if begins_with(f, b"<stata_dta><header><release>118</release>") {
            Some(Release::R118)
        } else {
            None
        }
    }

    // The edition as which a file begins.
    pub fn of(f: &[u8]) -> Option<Release>
        ensures { read_as result ≡ cond (known f.now) (Some (release_of f.now)) None }
    {
        match f {
            [113, ..] => Some(Release::R113),
            [114, ..] => Some(Release::R114),
            [115, ..] => Some(Release::R115),
            _ => Release::of_tagged(f),
        }
    }
}

// The numbers of the edition `number`, of 118 where it is none.
pub fn numbers_of(number: u64) -> Edition
    ensures { numbers_of result ≡ edition (release_by number) }
{
    Release::by_number(number)
        .unwrap_or(Release::R118)
        .numbers()
}

// Whether `number` is an edition that is read.
pub fn is_release(number: u64) -> bool
    ensures { result ≡ is_release number }
{
    Release::by_number(number).is_some()
}

// Whether the byte order is MSF: by the three bytes after <byteorder> in a tagged edition, else by byte 1.
pub fn is_msf(f: &[u8], tagged: bool) -> bool
    ensures { result ≡ is_msf tagged f.now }
{
    if tagged {
        f.len() >= 55 && text::same_at(f, 52, b"MSF")
    } else {
        f.len() >= 2 && f[1] == 1
    }
}
