// Why a call is refused: document 01's names, with its numbers (specs/Refusal.antt).
ghost use Rattle.std.specs.Prelude.{◌≡◌};
ghost use Rattle.report.specs.Refusal.{refusal_number};

use crate::Numbered;

#[derive(Clone, Copy, Debug, PartialEq, Eq, Hash)]
pub enum Refusal {
    BadState = 1,
    BadRegistry = 2,
    ShortTable = 3,
    ShortReport = 4,
    TooManyBytes = 5,
    NoCell = 6,
    EmptyCell = 7,
    UnsoundCell = 8,
    BadDescriptor = 9,
    ShortOutput = 10,
    ShortPages = 11,
    TooManyPages = 12,
}

impl Numbered for Refusal {
    ghost number = { refusal_number };
}

impl From<Refusal> for u32 {
    ghost from_gives = { λ r n. n ≡ refusal_number r };

    fn from(r: Refusal) -> u32 {
        r as u32
    }
}

// The number of a call that is done. It is no refusal.
pub const DONE: u32 = 0;
