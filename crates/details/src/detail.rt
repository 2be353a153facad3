// The detail row: four intervals.
ghost use Rattle.std.specs.Prelude.{◌≡◌, ◌∷◌, ◌≤◌, length};
ghost use Rattle.lines.specs.Row.{◌!◌};
ghost use Rattle.report.specs.Outcome.{says};
ghost use Rattle.details.specs.Detail.{status_of, interval_of, row_detail};
ghost use Rattle.lines.specs.Answer.{line_of};

use crate::value::read_value;
use digits::put_digits;
use lines::line::Line;
use lines::row::begin;
use report::require;
use report::verdict::Verdict;
use text::bytes::{is_empty, same};
use text::cutting::Fields;

// The intervals of a row.
pub const PER_ROW: u32 = 4;

// Watt hours, and whether they are estimated.
#[derive(Clone, Copy, Debug, Default, PartialEq, Eq)]
pub struct Interval {
    pub wh: u32,
    pub estimated: bool,
}

// From left to right.
pub type Row = [Interval; PER_ROW as usize];

// Whether a value is estimated. Two tests, and no `match` on the field's bytes: there each case wants a lemma for its length and its byte, forty lines for
// sixteen.
fn read_status(f: &[u8]) -> Result<bool, Verdict>
    ensures { says result ≡ status_of f.now }
{
    if same(f, b"A") {
        return Ok(false);
    }
    if same(f, b"E") {
        return Ok(true);
    }
    Err(Verdict::WrongStatus)
}

// Value, status and empty. All three are taken, also where one is refused.
fn read_interval(fields: &mut Fields<'_>) -> Result<Interval, Verdict>
    requires { 3 ≤ length fields.old }
    ensures says { says result ≡ interval_of (fields.old ! 1) (fields.old ! 2) (fields.old ! 3) }
    ensures taken { fields.old ≡ (fields.old ! 1) ∷ (fields.old ! 2) ∷ (fields.old ! 3) ∷ fields.new }
{
    let value = fields.next();
    let status = fields.next();
    let empty = fields.next();
    let wh = read_value(value)?;
    let estimated = read_status(status)?;
    require(is_empty(empty), Verdict::Misfit)?;
    Ok(Interval { wh, estimated })
}

// Detail row k, from 0. Its code ends with k's last two digits.
#[tactic(auto, using(lines::proofs::Begin::fields_counted))]
pub fn read_detail(line: Line<'_>, k: u32) -> Result<Row, Verdict>
    ensures { says result ≡ row_detail k (line_of line.entry) }
{
    let mut code = *b"10000000";
    put_digits(&mut code[6..], k);
    let mut fields = begin(line, &code, 14)?;
    fields.next();
    // Four lines, and no loop: it would need an invariant over the answer that ended it, and be longer.
    let first = read_interval(&mut fields)?;
    let second = read_interval(&mut fields)?;
    let third = read_interval(&mut fields)?;
    let fourth = read_interval(&mut fields)?;
    require(is_empty(fields.next()), Verdict::Misfit)?;
    Ok([first, second, third, fourth])
}
