// Row three: the descriptor.
ghost use Rattle.std.specs.Prelude.{◌≡◌};
ghost use Rattle.report.specs.Outcome.{says};
ghost use Rattle.headers.specs.Three.{row_three};
ghost use Rattle.lines.specs.Answer.{line_of};

use lines::line::Line;
use lines::row::begin;
use report::require;
use report::verdict::Verdict;
use text::names::is_descriptor;

#[tactic(auto, using(lines::proofs::Begin::fields_counted))]
pub fn read_three(line: Line<'_>) -> Result<(), Verdict>
    ensures { says result ≡ row_three (line_of line.entry) }
{
    let mut fields = begin(line, b"00000003", 2)?;
    fields.next();
    require(is_descriptor(fields.next()), Verdict::Misfit)
}
