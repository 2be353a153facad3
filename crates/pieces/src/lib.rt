// A piece of the file, line by line: lines of which nothing is said go by in runs, each other line goes to the unit, and bytes of a line are kept until
// its LF comes.
//
//     let (next, batch) = read_lines(&mut scan, piece, at, &mut index, table);     // from place `at` on, as many lines as a batch has room for
//     // `next` is the place behind them; the entries of their verdicts are in the batch
//
// For whoever changes it: what a line does is in units, what goes by in a run in runs; what bytes do to a scan is `scan_to` of plain/specs/Loader.antt.
// A piece and a place in it are two parameters: a place is what each function gives back, and what is owed is told of the bytes between two places of one
// piece (`between`). A part of the piece in their stead would make each promise speak of bytes of its own.
#![tactic(auto)]

use lines::keep::KEPT_LIMIT;
use records::Parts;
use units::Unit;

pub mod batch;
pub mod line;
pub mod run;

// What is kept between bytes: those of a line whose LF has not come, the line count, and the unit with what is lent of its record.
// `kept` and `held` stand side by side, with no invariant: they come from C as words, so that `held` may be any number.
#[derive(Clone, Copy)]
pub struct Scan {
    pub kept: [u8; KEPT_LIMIT],
    pub held: usize,
    pub lines: u32,
    pub unit: Unit,
    pub parts: Parts,
}
