// The bytes of a line whose LF has not come: at most 201 of them, which tell the line's kind, and that it is long.
ghost use Rattle.std.specs.Prelude.{◌≡◌, ◌++◌, ◌≤◌, length, take};
ghost use Rattle.lines.specs.Line.{kept_limit};

use crate::line::LINE_LIMIT;
use text::bytes::copy;

pub const KEPT_LIMIT: usize = LINE_LIMIT + 1;

// Puts a part of the line behind the bytes that are held, as far as there is room; how many are held then. That number stands beside the bytes, and no
// type ties them: a state has both as words, of which any may come.
pub fn keep(kept: &mut [u8; KEPT_LIMIT], held: usize, part: &[u8]) -> usize
    requires { held ≤ kept_limit }
    ensures { (take result kept.new ≡ take kept_limit (take held kept.old ++ part.now)) × (result ≤ kept_limit) × (length kept.new ≡ kept_limit) }
{
    let end = held + (KEPT_LIMIT - held).min(part.len());
    copy(&mut kept[held..end], &part[..end - held]);
    end
}
