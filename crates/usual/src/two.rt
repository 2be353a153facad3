// The usual row two.
ghost use Rattle.std.specs.Prelude.{◌≡◌};
ghost use Rattle.report.specs.Outcome.{says};
ghost use Rattle.lines.specs.Answer.{line_of};
ghost use Rattle.headers.specs.Two.{row_two};

use lines::line::Line;
use report::verdict::Verdict;
use text::bytes::same;

// Row two as nearly every file has it: a line that is the same passes at once, without a walk along its fields.
const USUAL: [u8; 42] = *b"00000002,0,0,0,,0,,900,01,1,-1,0.0,0.0,CST";

pub fn read_two(line: Line<'_>) -> Result<(), Verdict>
    ensures { says result ≡ row_two (line_of line.entry) }
{
    if same(line.body, &USUAL) {
        return Ok(());
    }
    headers::two::read_two(line)
}
