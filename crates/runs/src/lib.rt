// Runs of lines that stand whole in a piece and of which nothing is said: the rows of a record, as they should be, and the lines that a unit skips.
// They go by without a step of the unit for each, and need neither registry nor table.
//
//     let r = run_over(unit, lines, held, piece, at, parts);
//     // r.at is the place behind the run; r.all says that the day's last row is in, and the registry checks follow
//
// A run ends before a line that is for the plain way: one that is refused, or an opener, or one that does not end in the piece. It may be of no line at all.
//
// For whoever changes it: what a run owes is specs/Run.antt, which goes by the plain loader's scan; a run that ends early is slower and still right.
// The loops over rows are where most of a load's time goes (docs/SPEED.md).
#![tactic(auto)]

ghost use Rattle.std.specs.Prelude.{◌≡◌};
ghost use Rattle.runs.specs.Run.{passed_rows, went_by, Asks, Passes};

use crate::rows::record_rows;
use crate::skip::skip_lines;
use records::{Parts, Progress};
use units::Unit;

pub mod rows;
mod skip;

// What lines that went by leave: the unit, or the record that it is; the line count; the place behind the last line; and whether the day's last row is in.
// `all` stands beside them: an enum of two variants would hold the same fields in both, and the unit does not tell it, since a state of any words may hold
// a record whose rows are all in.
#[derive(Clone, Copy)]
pub struct Passed<T> {
    pub unit: T,
    pub lines: u32,
    pub at: usize,
    pub all: bool,
}

// Behind lines of which none is the day's last row; or there is no line.
fn gone_by<T>(unit: T, lines: u32, at: usize) -> Passed<T>
    ensures { result ≡ went_by unit lines at }
{
    Passed {
        unit,
        lines,
        at,
        all: false,
    }
}

// Behind the rows of a record that began at line `first`.
fn behind_rows(first: u32, r: Passed<Progress>) -> Passed<Unit>
    ensures { result ≡ passed_rows first r }
{
    Passed {
        unit: Unit::Takes(first, r.unit),
        lines: r.lines,
        at: r.at,
        all: r.all,
    }
}

// The lines from a place of the piece on that go by in a run; of the line there, so many bytes are held. Unit, line count and place come one by one, and
// leave as `Passed`: what comes in has no `all`.
pub fn run_over(
    unit: Unit,
    lines: u32,
    held: usize,
    piece: &[u8],
    at: usize,
    parts: &mut Parts,
) -> Passed<Unit>
    requires { Asks unit lines piece.now at parts.old }
    ensures { Passes unit lines held piece.now at parts.old result parts.new }
{
    if held == 0 {
        if let Unit::Takes(first, p) = unit {
            return behind_rows(first, record_rows(p, lines, piece, at, parts));
        }
        if let Unit::Skips = unit {
            return skip_lines(lines, piece, at);
        }
    }
    gone_by(unit, lines, at)
}
