// Where a line of a piece ends. A place is one of the whole piece, since what calls these is told of the bytes between two of its places.
ghost use Rattle.std.specs.Prelude.{◌≡◌, cond, ◌≤◌, eqb, length, IfSome};
ghost use Rattle.text.specs.Byte.{every};
ghost use Rattle.lines.specs.Line.{not_lf};
ghost use Rattle.lines.specs.End.{NoneTo, EndIn, EmptyAt};

use crate::line::{CR, LF};
use text::bytes::every;

// As many bytes as one test looks at.
const STRIDE: usize = 16;

// Whether no byte is an LF.
fn is_clean(s: &[u8]) -> bool
    ensures { result ≡ every not_lf s.now }
{
    every(s, |b| b != LF)
}

// Over whole strides without an LF. Tried: so many strides as `take_while(..).count()` gives. That counts and multiplies where the loop adds, and a file
// of short lines loads a twelfth slower.
fn stride(piece: &[u8], at: usize) -> usize
    requires { at ≤ length piece.now }
    ensures { NoneTo piece.now at result }
{
    let mut e = at;
    for part in piece[at..].chunks_exact(STRIDE) {
        if !is_clean(part) {
            return e;
        }
        e += STRIDE;
    }
    e
}

// The place of the first LF at or behind a place, if the piece has one there.
pub fn line_end(piece: &[u8], at: usize) -> Option<usize>
    requires { at ≤ length piece.now }
    ensures { EndIn piece.now at result }
{
    let e = stride(piece, at);
    let n = piece[e..].iter().position(|b| *b == LF)?;
    Some(e + n)
}

// How many bytes an empty line at a place has, with its LF: an LF, or a CR and an LF. None, if there is another line, or what the piece has is not
// enough to tell.
pub fn empty_line(piece: &[u8], at: usize) -> Option<usize>
    ensures { IfSome result (EmptyAt piece.now at) }
{
    match piece.get(at..)? {
        [LF, ..] => Some(1),
        [CR, LF, ..] => Some(2),
        _ => None,
    }
}

// The bytes of a line: those that were kept of it, with its end behind them, or a part of the piece, where none was held.
pub fn line_of<'a>(held: usize, kept: &'a [u8], part: &'a [u8]) -> &'a [u8]
    ensures { result.now ≡ cond (eqb held 0) part.now kept.now }
{
    if held == 0 {
        return part;
    }
    kept
}
