// The usual row four.
ghost use Rattle.std.specs.Prelude.{◌≡◌, Bool};
ghost use Rattle.report.specs.Outcome.{says};
ghost use Rattle.lines.specs.Answer.{line_of, line_with};
ghost use Rattle.headers.specs.Four.{row_four};
ghost use Rattle.usual.specs.Answer.{UsualFourSays};

use headers::time::{Stamp, read_time};
use lines::line::Line;
use report::verdict::Verdict;

// Row four as nearly every file has it: `00000004,YYYYMMDDHHMMSS,M`. All between these two is the stamp.
const USUAL_HEAD: [u8; 9] = *b"00000004,";

const USUAL_TAIL: [u8; 2] = *b",M";

// The stamp of a usual row four; any other line is for `headers`.
fn usual_four(line: &[u8]) -> Option<Stamp>
    ensures { (cr : Bool) → UsualFourSays result (line_with line.now cr) }
{
    let stamp = line.strip_prefix(&USUAL_HEAD)?.strip_suffix(&USUAL_TAIL)?;
    let time = read_time(stamp).ok()?;
    Some(Stamp::from(time))
}

pub fn read_four(line: Line<'_>) -> Result<Stamp, Verdict>
    ensures { says result ≡ row_four (line_of line.entry) }
{
    if let Some(stamp) = usual_four(line.body) {
        return Ok(stamp);
    }
    headers::four::read_four(line)
}
