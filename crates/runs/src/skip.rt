// Lines that a unit skips: all up to the next opener. They go by without a step of the unit for each.
ghost use Rattle.std.specs.Prelude.{◌≡◌};
ghost use Rattle.lines.specs.Line.{drop_cr, kind_of};
ghost use Rattle.runs.specs.Run.{is_skipped, FitsFrom, SkipsTo};

use crate::{Passed, gone_by};
use lines::end::line_end;
use lines::line::{Kind, kind_of, without_cr};
use units::Unit;

// Whether a line, given by the bytes before its LF, is skipped: any but an opener.
fn is_skipped(raw: &[u8]) -> bool
    ensures { result ≡ is_skipped (kind_of (drop_cr raw.now)) }
{
    kind_of(without_cr(raw)) != Kind::Opener
}

// Lines from the place where one begins, up to an opener, or to one that does not end in the piece.
pub fn skip_lines(lines: u32, piece: &[u8], at: usize) -> Passed<Unit>
    requires { FitsFrom lines piece.now at }
    ensures { SkipsTo lines piece.now at result }
{
    let mut n = lines;
    let mut e = at;
    while let Some(end) = line_end(piece, e) {
        if !is_skipped(&piece[e..end]) {
            break;
        }
        e = end + 1;
        n += 1;
    }
    gone_by(Unit::Skips, n, e)
}
