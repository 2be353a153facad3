// The usual row three.
ghost use Rattle.std.specs.Prelude.{◌≡◌, Bool, true};
ghost use Rattle.report.specs.Outcome.{passed, says};
ghost use Rattle.lines.specs.Answer.{line_of, line_with};
ghost use Rattle.headers.specs.Three.{row_three};

use lines::line::Line;
use report::verdict::Verdict;
use text::names::is_descriptor;

// Row three as nearly every file has it: its code, and all behind the comma is the descriptor.
const USUAL_HEAD: [u8; 9] = *b"00000003,";

// Whether a line is a usual row three, which passes without a walk along its fields.
fn usual_three(line: &[u8]) -> bool
    ensures { result ≡ true → (cr : Bool) → passed tt ≡ row_three (line_with line.now cr) }
{
    line.strip_prefix(&USUAL_HEAD).is_some_and(is_descriptor)
}

pub fn read_three(line: Line<'_>) -> Result<(), Verdict>
    ensures { says result ≡ row_three (line_of line.entry) }
{
    if usual_three(line.body) {
        return Ok(());
    }
    headers::three::read_three(line)
}
