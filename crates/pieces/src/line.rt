// One line of a piece, or what the piece has of it.
ghost use Rattle.std.specs.Prelude.{◌≡◌, ◌++◌, ◌-◌, ◌≤◌, length, take};
ghost use Rattle.lines.specs.Line.{kept_limit};
ghost use Rattle.units.specs.Answer.{HasRoom};
ghost use Rattle.pieces.specs.Ran.{scan_of, Holds, Moves};

use crate::Scan;
use lines::end::{line_end, line_of};
use lines::keep::{KEPT_LIMIT, keep};
use lines::line::Line;
use registry::Index;
use report::Entry;
use units::read_line;

// The place behind what was read, and the verdicts that fell, in order. A line's own (`LineRead` of units) has the unit in the place of the place: one type
// for both would have a field that is neither.
#[derive(Clone, Copy, Debug, PartialEq, Eq)]
pub struct Moved {
    pub at: usize,
    pub first: Option<Entry>,
    pub second: Option<Entry>,
}

// Puts the end of a line behind the bytes that are held of it; where none is held, nothing is kept.
fn keep_end(kept: &mut [u8; KEPT_LIMIT], held: usize, part: &[u8]) -> usize
    requires { held ≤ kept_limit }
    ensures { (result ≤ kept_limit) × (¬ (held ≡ 0) → take result kept.new ≡ take kept_limit (take held kept.old ++ part.now)) }
{
    if held == 0 {
        return 0;
    }
    keep(kept, held, part)
}

// The line at a place of the piece, by a look for its end: it is read, or what there is of it is kept.
pub fn next_line(
    scan: &mut Scan,
    piece: &[u8],
    at: usize,
    index: &Index<'_>,
    table: &mut [u32],
) -> Moved
    requires room { HasRoom index.now.registry.now table.old }
    requires holds { Holds scan.old (length piece.now - at) }
    requires within { at ≤ length piece.now }
    ensures { Moves index.now.registry.now (scan_of scan.old) piece.now at result scan.new table.old table.new }
{
    let Some(end) = line_end(piece, at) else {
        scan.held = keep(&mut scan.kept, scan.held, &piece[at..]);
        return Moved {
            at: piece.len(),
            first: None,
            second: None,
        };
    };
    let part = &piece[at..end];
    let n = keep_end(&mut scan.kept, scan.held, part);
    let raw = line_of(scan.held, &scan.kept[..n], part);
    scan.lines += 1;
    let read = read_line(
        scan.unit,
        scan.lines,
        Line::ended(raw),
        index,
        &mut scan.parts,
        table,
    );
    scan.held = 0;
    scan.unit = read.unit;
    Moved {
        at: end + 1,
        first: read.first,
        second: read.second,
    }
}
