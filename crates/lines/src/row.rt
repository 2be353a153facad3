// What the readers of all rows share: the tests 11, 13 and 14.
ghost use Rattle.std.specs.Prelude.{◌≡◌};
ghost use Rattle.report.specs.Outcome.{says};
ghost use Rattle.lines.specs.Row.{fields_of};
ghost use Rattle.lines.specs.Answer.{line_of};

use crate::line::{Line, is_long};
use report::require;
use report::verdict::Verdict;
use text::bytes::same;
use text::cutting::Fields;
use text::fields::{field, field_count};

// The fields of a row, from its code on, behind the tests that come before them: 11, 13, 14.
pub fn begin<'a>(line: Line<'a>, code: &[u8], count: u8) -> Result<Fields<'a>, Verdict>
    ensures { says result ≡ fields_of code.now count (line_of line.entry) }
{
    require(!is_long(line), Verdict::Long)?;
    require(same(field(line.body), code), Verdict::WrongCode)?;
    require(field_count(line.body) == count, Verdict::WrongCount)?;
    Ok(Fields::of(line.body))
}
