// Loads an LSE file: registry.dat and standard input in, the report out.
//
//     lseload < FILE
//
// It prints a header, then each entry's five numbers: first line, verdict, deciding line, meter, day. A call that is refused prints `refused` and
// its number, and ends it. A missing registry.dat counts as empty; one that is longer than the program has room for is said so on standard
// error, and nothing is loaded. So is a read or a write that fails: it ends the load there, without a finish. The table has 64 cells, cleared.
#![tactic(auto)]

use cell::Cell;
use input::{REGISTRY_SIZE, named, read_full, read_registry};
use loader::{feed, finish};
use print::{Stop, columns, ended, entries};
use report::words::PER_ENTRY;
use state::{BYTE_LIMIT, fresh};
use std::io;

const CELLS: usize = 64;

const TABLE_WORDS: usize = CELLS * Cell::WIDTH;

// The bytes of one feed, and the words that its report must hold: two entries and one for each two bytes. A constant's value can't call a function that
// says so for all programs (tried).
const PIECE_SIZE: usize = 262_144;

const REPORT_WORDS: usize = PER_ENTRY * (2 + PIECE_SIZE / 2);

// No more pieces than this are taken before a call is refused, since there are too many bytes.
const MOST_PIECES: usize = 1 + BYTE_LIMIT / PIECE_SIZE;

// Feeds standard input piece by piece, and finishes, as vectors does with its cases. The piece that is not full is the last, and may be empty.
fn load(rt: &(impl Input + Print + Eprint), registry: &[u8]) -> Result<(), Stop> {
    let mut reader = rt.reader();
    let mut table = [0; TABLE_WORDS];
    let mut report = [0; REPORT_WORDS];
    let mut piece = [0; PIECE_SIZE];
    let mut state = fresh();
    for _ in 0..=MOST_PIECES {
        let n = named(rt, "standard input", read_full(&mut reader, &mut piece))?;
        let count = feed(&mut state, &piece[..n], registry, &mut table, &mut report)?;
        entries(rt, &report, count)?;
        if n < PIECE_SIZE {
            break;
        }
    }
    let count = finish(&mut state, registry, &mut table, &mut report)?;
    entries(rt, &report, count)?;
    Ok(())
}

fn main(rt: HostRuntime) -> io::Result<()> {
    columns(&rt)?;
    let mut registry = [0; REGISTRY_SIZE + 1];
    let n = read_registry(&rt, &mut registry)?;
    ended(&rt, load(&rt, &registry[..n]))
}
