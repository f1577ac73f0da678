// What a call or a reading is refused for, and where: the numbers of the documents' tables stand here and nowhere else.
#![tactic(auto)]

ghost use Rattle.std.specs.Prelude.{◌≡◌, ◌+◌, ◌<◌, ◌^◌};
ghost use Rattle.refusals.specs.Numbers.{refusal_number, moved_by};

use std::error::Error;
use std::fmt;

// The refusals, in the order of their numbers, which begin with 1.
#[derive(Clone, Copy, Debug, PartialEq, Eq)]
pub enum Refusal {
    // The bytes end before a number does.
    Cut,
    // A fifth group has its top bit set or is above 15.
    TooWide,
    // A number of two or more groups ends in a zero group.
    NotShortest,
    // A field is outside its range.
    OutOfRange,
    // k is outside 1..60.
    NoSuchRun,
    // The segment number is outside 1..NS.
    NoSuchSegment,
    // The buffer from the named place on is shorter than what is written, or the place is past its end.
    NoRoom,
    // The length of the carryover slice isn't the section count.
    CarryoverLength,
    // The facility is the empty one.
    EmptyFacility,
    // No period is taken yet.
    NoPeriod,
    // Fewer than k steps remain in the period.
    TooFewSteps,
    // The period in force isn't run out.
    Unfinished,
    // 96 periods are taken.
    TooManyPeriods,
    // A period sheet's NS isn't the road's.
    OtherRoad,
    // A planning demand is below 0 or above 1,000,000.
    DemandOutside,
    // A lane is closed, which the first layout of a period cannot say.
    LaneClosed,
}

impl Refusal {
    // Its number in the tables.
    pub fn number(self) -> u8
        ensures { result ≡ refusal_number self }
    {
        match self {
            Refusal::Cut => 1,
            Refusal::TooWide => 2,
            Refusal::NotShortest => 3,
            Refusal::OutOfRange => 4,
            Refusal::NoSuchRun => 5,
            Refusal::NoSuchSegment => 6,
            Refusal::NoRoom => 7,
            Refusal::CarryoverLength => 8,
            Refusal::EmptyFacility => 9,
            Refusal::NoPeriod => 10,
            Refusal::TooFewSteps => 11,
            Refusal::Unfinished => 12,
            Refusal::TooManyPeriods => 13,
            Refusal::OtherRoad => 14,
            Refusal::DemandOutside => 15,
            Refusal::LaneClosed => 16,
        }
    }
}

impl fmt::Display for Refusal {
    fn fmt<W: fmt::Write>(&self, f: &mut fmt::Formatter<W>) -> fmt::Result {
        let number = self.number();
        write!(f, "{number}")
    }
}

impl Error for Refusal {}

// A refusal and where it stands in the bytes that were read; those that have no place have 0.
#[derive(Clone, Copy, Debug, PartialEq, Eq)]
pub struct Refused {
    pub refusal: Refusal,
    pub offset: usize,
}

impl Refused {
    // The same, seen from so many bytes before.
    pub fn moved_by(self, bytes: usize) -> Refused
        requires { bytes + self.offset < 2 ^ 64 }
        ensures { result ≡ moved_by bytes self }
    {
        Refused {
            offset: bytes + self.offset,
            ..self
        }
    }
}

// A refusal that has no offset.
impl From<Refusal> for Refused {
    ghost from_gives = { λ e r. r ≡ record { refusal = e; offset = 0 } };

    fn from(refusal: Refusal) -> Refused {
        Refused { refusal, offset: 0 }
    }
}

// The line that tells it.
impl fmt::Display for Refused {
    fn fmt<W: fmt::Write>(&self, f: &mut fmt::Formatter<W>) -> fmt::Result {
        let refusal = self.refusal;
        let offset = self.offset;
        write!(f, "refused {refusal} {offset}")
    }
}

impl Error for Refused {}
