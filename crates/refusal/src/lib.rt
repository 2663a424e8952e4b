// The refusals of document 01 as one enum: a case for each number, holding the slot, level or sample that it names.
#![tactic(auto)]

ghost use Rattle.std.specs.Prelude.{◌≡◌, Some};
ghost use Rattle.refusal.specs.Number.{number_of};
ghost use Rattle.refusal.specs.Printed.{printed};

use std::error::Error;
use std::fmt;

#[derive(Clone, Copy, Debug, PartialEq, Eq)]
pub enum Refusal {
    // 1: n is not 1..6, or an assembler has such an n or more than N slots filled
    Size,
    // 2: a lent level slice is not N long
    Length,
    // 3: the frozen mask has a one at or above N
    Mask,
    // 4: the folding has a one at or above n
    Folding,
    // 5: the folding has more than three ones
    WideFolding,
    // 6: a level is out of range; the first such slot
    Range(usize),
    // 7: a level of the tree has no candidate; the first such level
    NoCandidate(usize),
    // 8: the allowance is too small
    Allowance,
    // 9: the message has a one at or above K
    Message,
    // 10: the reading needs more slots than are left
    NoRoom,
    // 11: a sample is NaN or infinite; the first such sample of the reading
    NotFinite(usize),
    // 12: bytes 2 and 3 of a record or a request, or a level of a record beyond N, are not zero
    NotZero,
    // 13: a record has fewer than 144 bytes, or a request fewer than 24
    Short,
    // 14: levels were asked of an assembler that is not full
    NotFull,
}

impl Refusal {
    // Document 01's number of a refusal.
    pub fn number(self) -> u32
        ensures { result ≡ number_of self }
    {
        match self {
            Refusal::Size => 1,
            Refusal::Length => 2,
            Refusal::Mask => 3,
            Refusal::Folding => 4,
            Refusal::WideFolding => 5,
            Refusal::Range(_) => 6,
            Refusal::NoCandidate(_) => 7,
            Refusal::Allowance => 8,
            Refusal::Message => 9,
            Refusal::NoRoom => 10,
            Refusal::NotFinite(_) => 11,
            Refusal::NotZero => 12,
            Refusal::Short => 13,
            Refusal::NotFull => 14,
        }
    }
}

// A refusal by its number, and the slot, level or sample that it names.
impl fmt::Display for Refusal {
    ghost output = { λ r. Some (printed r) };

    fn fmt<W: fmt::Write>(&self, f: &mut fmt::Formatter<W>) -> fmt::Result {
        let number = self.number();
        match self {
            Refusal::Range(slot) => write!(f, "refused {number} slot {slot}"),
            Refusal::NoCandidate(level) => write!(f, "refused {number} level {level}"),
            Refusal::NotFinite(sample) => write!(f, "refused {number} sample {sample}"),
            _ => write!(f, "refused {number}"),
        }
    }
}

impl Error for Refusal {}
