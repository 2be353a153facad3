// What a call returns: refusal 1 by what the state holds, 2 to 5 by the registry and the lengths.
ghost use Rattle.std.specs.Prelude.{◌≡◌, length};
ghost use Rattle.lines.specs.Line.{kept_limit};
ghost use Rattle.report.specs.Outcome.{answers, number_of};
ghost use Rattle.plain.specs.Promise.{details_in, overfull};
ghost use Rattle.records.specs.declared.Parts.{Parts};
ghost use Rattle.units.specs.Answer.{unit_of};
ghost use Rattle.state.specs.View.{view_of};
ghost use Rattle.state.specs.Refused.{number_for};

use crate::{BYTE_LIMIT, State};
use cells::for_table;
use pieces::Scan;
use records::{HEADER_ROWS, MAX_DETAILS};
use registry::Index;
use report::refusal::Refusal;
use report::require;
use units::Unit;

// The detail rows that a unit holds.
fn details_in(unit: Unit) -> u32
    ensures { (r : Parts) → result ≡ details_in (unit_of unit r) }
{
    match unit {
        Unit::Takes(_, p) => p.read.saturating_sub(HEADER_ROWS),
        _ => 0,
    }
}

// 1: more than a state can hold. It takes the scan by itself: a proof knows how long a parameter's own array is, and nothing of `state.scan.kept`, here or
// in the calls. So this says it to `admit`, and `admit` to them.
fn is_overfull(scan: &Scan, taken: usize) -> bool
    ensures overfull { result ≡ overfull (view_of (record { scan = scan.now; taken = taken })) }
    ensures kept { length scan.now.kept ≡ kept_limit }
{
    (scan.kept.len() < scan.held)
        | (BYTE_LIMIT < taken)
        | (MAX_DETAILS < details_in(scan.unit))
        | (taken < scan.lines as usize)
}

// Why a call is refused, 1 to 5 in this order. A call has the registry of this index, a table of `size` words, a report with room for so many entries, and
// a piece of n bytes.
pub fn admit(
    state: &State,
    index: &Index<'_>,
    size: usize,
    room: usize,
    n: usize,
) -> Result<(), Refusal>
    ensures number { number_of (answers result) ≡ number_for state.now index.now.registry.now size room n }
    ensures kept { length state.now.scan.kept ≡ kept_limit }
{
    require(!is_overfull(&state.scan, state.taken), Refusal::BadState)?;
    for_table(index, size)?;
    require(2 + n / 2 <= room, Refusal::ShortReport)?;
    require(n <= BYTE_LIMIT - state.taken, Refusal::TooManyBytes)
}
