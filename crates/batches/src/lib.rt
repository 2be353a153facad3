// What a finish works in: the file ends, and the entries of the verdicts that still fall are a batch, as those of a feed's lines are (pieces).
//
//     let batch = end_file(&mut state.scan, &index, table);
//
// What it leaves is specs/Batch.antt.
#![tactic(auto)]

ghost use Rattle.std.specs.Prelude.{◌≡◌, ◌≤◌};
ghost use Rattle.units.specs.Answer.{HasRoom};
ghost use Rattle.pieces.specs.Ran.{scan_of, Holds};
ghost use Rattle.batches.specs.Batch.{Last, lines_in};
ghost use Rattle.plain.specs.Call.{byte_limit};

use lines::line::Line;
use pieces::Scan;
use pieces::batch::Batch;
use registry::Index;
use units::{closing, load_waiting, read_line};

// How many lines a file has: bytes that are held are one more.
fn lines_in(lines: u32, held: usize) -> u32
    requires { lines ≤ byte_limit }
    ensures { result ≡ lines_in lines held }
{
    if held == 0 {
        return lines;
    }
    lines + 1
}

// The end of the file: its last line, if any, and the unit that is open. What is left of the scan is of no use.
pub fn end_file(scan: &mut Scan, index: &Index<'_>, table: &mut [u32]) -> Batch
    requires room { HasRoom index.now.registry.now table.old }
    requires holds { Holds scan.old 0 }
    ensures { Last index.now.registry.now (scan_of scan.old) result table.old table.new }
{
    // where none is held, the line is empty, and does nothing
    let line = Line {
        body: &scan.kept[..scan.held],
        cr: false,
    };
    let read = read_line(
        scan.unit,
        scan.lines + 1,
        line,
        index,
        &mut scan.parts,
        table,
    );
    load_waiting(read.unit, index, &scan.parts, table);
    let last = closing(read.unit, lines_in(scan.lines, scan.held) + 1);
    let mut batch = Batch::new();
    batch.put(read.first);
    batch.put(read.second);
    batch.put(last);
    batch
}
