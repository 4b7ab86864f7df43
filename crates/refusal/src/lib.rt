// Why a call is refused.

#![tactic(auto)]

ghost use Rattle.std.specs.Prelude.{◌≡◌, ℕ};
ghost use Rattle.refusal.specs.Refusals.{number_of, retold};

// A refusal. Its number is what a caller is told: 1 to 13 of a file, in the order in which a file is judged; 14 and 15 of a rewriting;
// 16 and 17 of a question.
#[derive(Clone, Copy, Debug, PartialEq, Eq)]
pub enum Refusal {
    // the file is longer than 2,147,483,647 bytes
    TooLong = 1,
    // it begins as no edition that is read
    UnknownBeginning = 2,
    // it ends before a section does
    CutShort = 3,
    // a tag is not where it must be
    WrongTag = 4,
    WrongHeader = 5,
    UnknownType = 6,
    // a text field has no zero, or a name is empty
    WrongText = 7,
    WrongSortList = 8,
    WrongExpansion = 9,
    WrongMap = 10,
    WrongLongString = 11,
    WrongLabelTable = 12,
    BytesAfterEnd = 13,
    // the output is too short
    NoRoom = 14,
    // the edition that was asked for cannot hold the dataset, or is none
    NotHeld = 15,
    // there is no such variable or observation
    NotThere = 16,
    // the layout names an edition, a byte order or a place that cannot be read
    NotReadable = 17,
}

// What an answer is refused with: a refusal of the table, or a number, which may be any.
pub trait Told: Copy {
    ghost use Rattle.refusal.specs.declared.Refusal.{Refusal};

    // A refusal of the table, so told.
    ghost told: { Refusal → Self };

    // Its number.
    ghost own: { Self → ℕ };

    fn tell(refusal: Refusal) -> Self
        ensures { result ≡ told refusal };

    fn own(self) -> u8
        ensures { result ≡ own self };
}

impl Told for Refusal {
    ghost told = { λ r. r };

    ghost own = { number_of };

    fn tell(refusal: Refusal) -> Refusal {
        refusal
    }

    fn own(self) -> u8 {
        self.number()
    }
}

impl Told for u8 {
    ghost told = { number_of };

    ghost own = { λ n. n };

    fn tell(refusal: Refusal) -> u8 {
        refusal.number()
    }

    fn own(self) -> u8 {
        self
    }
}

impl Refusal {
    // Its number.
    pub fn number(self) -> u8
        ensures { result ≡ number_of self }
    {
        self as u8
    }
}

// An answer, its refusal told in another way.
pub fn retell<A: Copy, E: Told>(r: Result<A, Refusal>) -> Result<A, E>
    ensures { result ≡ retold E.told r }
{
    match r {
        Ok(x) => Ok(x),
        Err(refusal) => Err(E::tell(refusal)),
    }
}
