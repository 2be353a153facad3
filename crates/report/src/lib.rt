// What the loader answers with: the entries of the report, their verdicts, and the numbers that a call returns. Nothing here knows how they come about.
//
// A report is a lent run of entries, or of words, five an entry (`words`): `put_entry` puts an entry behind those that are there, `entry_at` reads one.
//
// For whoever changes it: a new verdict or refusal gets a name in specs/Verdict.antt or specs/Refusal.antt and a variant in `verdict` or `refusal`; nobody
// else writes their numbers, but that crate `pagetext` has what is said of a verdict in the place of its number.
#![tactic(auto)]

ghost use Rattle.std.specs.Prelude.{◌≡◌, ℕ};
ghost use Rattle.report.specs.Outcome.{numbered, require as required};

pub mod listed;
pub mod refusal;
pub mod verdict;
pub mod words;

// One unit's verdict in the report: its first line, the verdict, the deciding line, the meter (1 upward; 0 unknown), the day as YYYYMMDD (0 unknown). Its
// fields are numbers, as document 01 has them: an entry may be read back from any words. C has it as a struct of the same fields.
#[derive(Clone, Copy, Debug, PartialEq, Eq)]
#[repr(C)]
pub struct Entry {
    pub first: u32,
    pub verdict: u32,
    pub at: u32,
    pub meter: u32,
    pub day: u32,
}

// What refuses, a verdict or a refusal: it has a number of document 01's.
pub trait Numbered: Drop {
    ghost number: { Self → ℕ };
}

// Refused unless the test holds.
pub fn require<E: Numbered>(holds: bool, error: E) -> Result<(), E>
    ensures { numbered E.number result ≡ required holds (E.number error) }
{
    if holds { Ok(()) } else { Err(error) }
}
