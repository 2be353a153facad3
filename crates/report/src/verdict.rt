// The verdicts that refuse a record: document 01's names, with its numbers (specs/Verdict.antt).
ghost use Rattle.std.specs.Prelude.{◌≡◌};
ghost use Rattle.report.specs.Verdict.{verdict_number};
ghost use Rattle.report.specs.Outcome.{fault_of};

use crate::Numbered;

#[derive(Clone, Copy, Debug, PartialEq, Eq, Hash)]
pub enum Verdict {
    // A record, by the lines around it.
    Stray = 10,
    Short = 12,
    Surplus = 22,
    // A row.
    Long = 11,
    WrongCode = 13,
    WrongCount = 14,
    Misfit = 15,
    NotBelow = 16,
    NotOneDay = 17,
    WrongStatus = 18,
    Negative = 19,
    TooFine = 20,
    NoValue = 21,
    // A record, by the registry.
    UnknownMeter = 30,
    NotOwner = 31,
    ReadByErcot = 32,
    NoIntervalData = 33,
    NotIdr = 34,
    OutsideWindow = 35,
}

impl Numbered for Verdict {
    ghost number = { verdict_number };
}

impl From<Verdict> for u32 {
    ghost from_gives = { λ v n. n ≡ verdict_number v };

    fn from(v: Verdict) -> u32 {
        v as u32
    }
}

// Why a record is refused: the verdict, and the meter as the report numbers it, from 1; 0 where it is unknown, as in the entry, which is
// all that it is for.
#[derive(Clone, Copy, Debug, PartialEq, Eq)]
pub struct Fault {
    pub verdict: Verdict,
    pub meter: u32,
}

impl From<Verdict> for Fault {
    ghost from_gives = { λ v f. f ≡ fault_of v };

    fn from(verdict: Verdict) -> Fault {
        Fault { verdict, meter: 0 }
    }
}

// The number in the place of a verdict in the entry of a record that was loaded. It is no verdict: none refuses with it.
pub const LOADED: u32 = 0;
