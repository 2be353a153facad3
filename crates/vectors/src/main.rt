// Replays the cases of data/: the file of each is fed in pieces and finished, with a cleared table of 64 cells. It prints what lseload prints, and
// then each cell that holds a read: its number, words 0 to 6, and the sum of its watt hours.
#![tactic(auto)]

use cases::{Case, Cases};
use cell::Cell;
use input::read_file;
use loader::{feed, finish};
use print::{Stop, columns, ended, entries};
use report::words::PER_ENTRY;
use show::cell_line;
use state::fresh;
use std::io;
use std::rt::Files;

mod cases;
mod show;

// As in lseload: two programs, each with a table of a size of its own choice.
const CELLS: usize = 64;

const TABLE_WORDS: usize = CELLS * Cell::WIDTH;

// The longest piece of the cases, and the words that its report must hold, by hand as in lseload.
const PIECE_SIZE: usize = 4_096;

const REPORT_WORDS: usize = PER_ENTRY * (2 + PIECE_SIZE / 2);

const FILE_SIZE: usize = 262_144;

// Each cell that holds a read.
fn cells_of(rt: &impl Print, table: &[u32; TABLE_WORDS]) -> io::Result<()> {
    let (cells, _) = table.as_chunks::<{ Cell::WIDTH }>();
    for (c, words) in cells.iter().enumerate() {
        cell_line(rt, c, words)?;
    }
    Ok(())
}

// Feeds a case's file in pieces, and finishes. So do lseload and reexport, each with pieces that come otherwise; print, which all stand on, knows no
// loader, and a crate between for six lines would be no shorter.
fn replay(rt: &impl Print, case: Case<'_>) -> Result<(), Stop> {
    let mut table = [0; TABLE_WORDS];
    let mut report = [0; REPORT_WORDS];
    let mut state = fresh();
    // no piece of a file is empty: with a cut of 0 there is nothing to feed, and the file has no end
    if case.cut == 0 && !case.file.is_empty() {
        return Ok(());
    }
    for piece in case.file.chunks(case.cut.max(1)) {
        let count = feed(&mut state, piece, case.registry, &mut table, &mut report)?;
        entries(rt, &report, count)?;
    }
    let count = finish(&mut state, case.registry, &mut table, &mut report)?;
    entries(rt, &report, count)?;
    cells_of(rt, &table)?;
    Ok(())
}

fn replay_all(rt: &impl Print, cases: &[u8]) -> io::Result<()> {
    for (n, case) in (1..).zip(Cases(cases)) {
        println!(rt; "case {n}")?;
        columns(rt)?;
        ended(rt, replay(rt, case))?;
    }
    Ok(())
}

fn read_cases(rt: &(impl Files + Print), name: &str) -> io::Result<()> {
    let mut cases = [0; FILE_SIZE];
    let n = read_file(rt, name, &mut cases)?;
    replay_all(rt, &cases[..n])
}

// Document 01's cases, and then those of document 02's requests, each of which is aimed at what one request changes.
fn main(rt: HostRuntime) -> io::Result<()> {
    read_cases(&rt, "files.cases")?;
    read_cases(&rt, "fields.cases")?;
    read_cases(&rt, "s01.cases")
}
