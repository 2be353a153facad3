// The fast way through a detail line: the whole line is read straight on the piece, with no search for its LF and no cutting into fields.
//
// It takes lines with and without a CR, and wants as many bytes of the piece as the longest such line has. For any other, right or wrong, it
// answers nothing, and the plain reader of `details` decides:
//
//     match direct::read_direct(piece, at, k) {
//         Some(line) => ..   // line.size bytes at `at`, then LF: detail line k with the intervals line.row
//         None => ..         // nothing is known of the line, nor that there is one
//     }
//
// For whoever changes it: what a line owes is specs/Direct.antt, which cites the row's rule in details; `None` owes nothing, so a reader that
// takes fewer lines is slower and still right. The shape was chosen by measuring: bytes tested and digits read several at once, in a word,
// and a span of fixed size, of which every index is proved to be inside. All that a common line takes stands in its caller's loop: without
// `inline(always)` the compiler leaves calls in it, and common lines load an eighth slower.
#![tactic(auto)]

ghost use Rattle.std.specs.Prelude.{◌≡◌, ◌+◌, ◌<◌, true, [], ◌∷◌, ◌++◌, take, drop, IfSome};
ghost use Rattle.text.specs.Field.{comma};
ghost use Rattle.details.specs.Detail.{detail_code};
ghost use Rattle.direct.specs.Direct.{direct_says};
ghost use Rattle.direct.specs.Guess.{span_size, code_size, EndsAt};

use crate::triple::{TAIL, read_triple};
use details::detail::{Interval, PER_ROW, Row};
use details::value::{PART_DIGITS, WHOLE_DIGITS};
use lines::line::{CR, LF};

mod guess;
mod triple;
mod word;

// A detail line: its intervals, and how many bytes it has before its LF.
#[derive(Clone, Copy)]
pub struct Line {
    pub row: Row,
    pub size: usize,
}

// A detail line's code with its comma.
const CODE: usize = 9;

// The longest value.
const VALUE: usize = WHOLE_DIGITS + 1 + PART_DIGITS;

// The longest interval, with its commas.
const TRIPLE: usize = VALUE + TAIL;

// The longest line that is taken, with CR and LF.
const SPAN: usize = CODE + PER_ROW as usize * TRIPLE + 2;

// Whether the span begins with the code of detail row k and a comma. Tried: `t.starts_with` of an array of these bytes. It is written byte by byte and
// read at once as a word, for which the processor waits, and a realistic file loads 5 percent slower.
fn begins_code(t: &[u8; SPAN], k: u32) -> bool
    ensures { result ≡ true → take code_size t.now ≡ detail_code k ++ comma ∷ [] }
{
    let tens = b'0' + (k / 10 % 10) as u8;
    let ones = b'0' + (k % 10) as u8;
    (t[0] == b'1')
        & (t[1] == b'0')
        & (t[2] == b'0')
        & (t[3] == b'0')
        & (t[4] == b'0')
        & (t[5] == b'0')
        & (t[6] == tens)
        & (t[7] == ones)
        & (t[8] == b',')
}

// Where the line has its LF whose intervals end at a place: there, or behind a CR; none, if it goes on. Tried: `lines::end::empty_line`, which finds the
// same end. It tests for the end of the bytes too, and a realistic file loads 2 to 3 percent slower.
fn row_end(t: &[u8; SPAN], at: usize) -> Option<usize>
    requires { at + 1 < span_size }
    ensures { IfSome result (EndsAt t.now at) }
{
    if t[at] == LF {
        return Some(at);
    }
    if (t[at] == CR) & (t[at + 1] == LF) {
        return Some(at + 1);
    }
    None
}

// Detail line k, with its LF, at the front of the span.
fn read_line(t: &[u8; SPAN], k: u32) -> Option<Line>
    ensures { direct_says result k t.now }
{
    if !begins_code(t, k) {
        return None;
    }
    let mut row = [Interval::default(); PER_ROW as usize];
    let mut at = CODE;
    for interval in row.iter_mut() {
        let (read, size) = read_triple(t[at..at + TRIPLE].as_array().unwrap())?;
        *interval = read;
        at += size;
    }
    let size = row_end(t, at)?;
    Some(Line { row, size })
}

// Detail line k, with its LF, at a place of the piece.
#[inline(always)]
pub fn read_direct(piece: &[u8], at: usize, k: u32) -> Option<Line>
    ensures { direct_says result k (drop at piece.now) }
{
    let span = piece.get(at..)?.first_chunk()?;
    read_line(span, k)
}
