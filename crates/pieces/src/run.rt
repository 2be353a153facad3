// Lines of a piece, one run and one line after the other, with the entries of their verdicts put into a batch.
ghost use Rattle.std.specs.Prelude.{◌≡◌, ◌&&◌, ◌+◌, ◌-◌, ◌<◌, ◌≤◌, leb, ltb, length};
ghost use Rattle.units.specs.Answer.{HasRoom};
ghost use Rattle.pieces.specs.Ran.{scan_of, Holds, batch_size, most_said, Runs};

use crate::Scan;
use crate::batch::Batch;
pub use crate::batch::{BATCH_SIZE, BATCH_WORDS};
use crate::line::next_line;
use registry::Index;
use runs::run_over;
use units::{Unit, judged};

// The most verdicts that fall between two looks at the room: one behind a run of rows, two at a line.
const MOST: usize = 3;

// Whether there are bytes to read, and room for the verdicts that may fall.
fn goes_on(at: usize, len: usize, count: usize) -> bool
    requires { count ≤ batch_size }
    ensures { result ≡ (ltb at len && leb (count + most_said) batch_size) }
{
    (at < len) & (count + MOST <= BATCH_SIZE)
}

// A record that waits leaves its meter as the one to try first: files are mostly in order of their meters, so that the next record has it too.
fn leave_hint(index: &mut Index<'_>, unit: Unit)
    ensures { index.new.registry.now ≡ index.old.registry.now }
{
    if let Unit::Waits(_, _, ready) = unit {
        index.try_first(usize::from(ready.meter));
    }
}

// Lines from a place of the piece on, as many as a batch has room for: the place behind them, and the entries of their verdicts.
pub fn read_lines(
    scan: &mut Scan,
    piece: &[u8],
    at: usize,
    index: &mut Index<'_>,
    table: &mut [u32],
) -> (usize, Batch)
    requires room { HasRoom index.old.registry.now table.old }
    requires holds { Holds scan.old (length piece.now - at) }
    requires within { at ≤ length piece.now }
    ensures index { index.new.registry.now ≡ index.old.registry.now }
    ensures ran { Runs index.old.registry.now (scan_of scan.old) piece.now at result.0 scan.new table.old table.new result.1 }
{
    let mut batch = Batch::new();
    let mut e = at;
    while goes_on(e, piece.len(), batch.count()) {
        let passed = run_over(scan.unit, scan.lines, scan.held, piece, e, &mut scan.parts);
        let next = judged(passed.unit, passed.all, passed.lines, index, &scan.parts);
        batch.put(next.said);
        leave_hint(index, next.unit);
        scan.lines = passed.lines;
        scan.unit = next.unit;
        let moved = next_line(scan, piece, passed.at, index, table);
        batch.put(moved.first);
        batch.put(moved.second);
        e = moved.at;
    }
    (e, batch)
}
