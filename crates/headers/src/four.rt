// Row four: the read's timestamp and its origin.
ghost use Rattle.std.specs.Prelude.{◌≡◌};
ghost use Rattle.report.specs.Outcome.{says};
ghost use Rattle.headers.specs.Four.{row_four};
ghost use Rattle.lines.specs.Answer.{line_of};

use crate::time::{Stamp, read_time};
use lines::line::Line;
use lines::row::begin;
use report::require;
use report::verdict::Verdict;
use text::bytes::same;

#[tactic(auto, using(lines::proofs::Begin::fields_counted))]
pub fn read_four(line: Line<'_>) -> Result<Stamp, Verdict>
    ensures { says result ≡ row_four (line_of line.entry) }
{
    let mut fields = begin(line, b"00000004", 3)?;
    fields.next();
    let stamp = fields.next();
    let origin = fields.next();
    let time = read_time(stamp)?;
    require(same(origin, b"M"), Verdict::Misfit)?;
    Ok(Stamp::from(time))
}
