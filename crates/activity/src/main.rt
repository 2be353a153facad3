// Prints the activity pages of an LSE file: registry.dat and standard input in, the pages of the report out.
//
//     activity < FILE
//
// The file is loaded as lseload does it, into a cleared table of 64 cells, but at once: it may have 16,384 bytes, and its report 20 pages. A call that is refused
// prints `refused` and its number; a read that fails, a file or a registry that is too long are said so on standard error, and nothing is printed.
#![tactic(auto)]

ghost use Rattle.std.specs.Prelude.{◌≤◌, length, IfOk};

use cell::Cell;
use input::{REGISTRY_SIZE, at_most, read_full, read_registry};
use loader::{feed, finish};
use page::{PAGE_SIZE, page};
use print::{Stop, ended};
use report::words::PER_ENTRY;
use state::fresh;
use std::io;

const TABLE_WORDS: usize = 64 * Cell::WIDTH;

const FILE_SIZE: usize = 16_384;

// What a feed of so many bytes asks for, and behind it what a finish does.
const ENTRIES: usize = (2 + FILE_SIZE / 2) + 2;

// A report that takes more is refused.
const PAGES: usize = 20;

// The words of so many entries, as far as a report has them.
fn words_of(report: &[u32], entries: usize) -> usize
    ensures { result ≤ length report.now }
{
    entries.min(report.len() / PER_ENTRY) * PER_ENTRY
}

// The report of a file, from the first word on: how many words it has.
fn load(file: &[u8], registry: &[u8], report: &mut [u32]) -> Result<usize, Stop>
    ensures { IfOk result (λ n. n ≤ length report.new) }
{
    let mut table = [0; TABLE_WORDS];
    let mut state = fresh();
    let count = feed(&mut state, file, registry, &mut table, report)?;
    let fed = words_of(report, count);
    let behind = &mut report[fed..];
    let count = finish(&mut state, registry, &mut table, behind)?;
    Ok(fed + words_of(behind, count))
}

// The buffers are lent: a proof that has their very words in reach would write them out.
fn print_pages(
    rt: &impl Print,
    file: &[u8],
    registry: &[u8],
    report: &mut [u32],
    output: &mut [u8],
) -> Result<(), Stop> {
    let words = load(file, registry, report)?;
    let pages = page(&report[..words], output)?;
    let bytes = (pages.min(PAGES) * PAGE_SIZE).min(output.len());
    rt.write_all(&output[..bytes])?;
    Ok(())
}

fn main(rt: HostRuntime) -> io::Result<()> {
    let mut registry = [0; REGISTRY_SIZE + 1];
    let n = read_registry(&rt, &mut registry)?;
    let mut file = [0; FILE_SIZE + 1];
    let read = read_full(&mut rt.reader(), &mut file);
    let m = at_most(&rt, "standard input", FILE_SIZE, read)?;
    let mut report = [0; ENTRIES * PER_ENTRY];
    let mut output = [0; PAGES * PAGE_SIZE];
    let printed = print_pages(&rt, &file[..m], &registry[..n], &mut report, &mut output);
    ended(&rt, printed)
}
