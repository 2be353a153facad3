// What the programs print, on standard output: headings, the answers of calls, the entries of a report, and the refusal that ends a load.
#![tactic(auto)]

ghost use Rattle.std.specs.Prelude.{◌≡◌, ◌+◌, ◌*◌, ◌<◌, ◌≤◌, length};
ghost use Rattle.report.specs.Words.{per_entry};
ghost use Rattle.print.specs.declared.Stop.TheVariants.{Refused, Failed};

use digits::Text;
use entrytext::put_entries;
use report::refusal::{DONE, Refusal};
use report::words::PER_ENTRY;
use std::{fmt, io};

// The bytes that are gathered before they go out in one write.
const OUT: usize = 16_384;

// A heading over the cases that follow.
pub fn heading(rt: &impl Print, name: &str) -> io::Result<()> {
    println!(rt; "# {name}")
}

// What a call answers: its number, and what it counted, 0 where it is refused. A refusal has no Display: it is printed in two places,
// here and in `ended`, each by `From`.
#[derive(Drop)]
pub struct Answer<T>(pub Result<T, Refusal>);

impl<T: fmt::Display> fmt::Display for Answer<T> {
    fn fmt<W: fmt::Write>(&self, f: &mut fmt::Formatter<W>) -> fmt::Result {
        match &self.0 {
            Ok(count) => write!(f, "{DONE} {count}"),
            Err(refusal) => write!(f, "{} 0", u32::from(*refusal)),
        }
    }
}

// The answer of a case, and its name.
pub fn answered<T: fmt::Display + Drop>(
    rt: &impl Print,
    name: &str,
    answer: Result<T, Refusal>,
) -> io::Result<()> {
    println!(rt; "{}: {name}", Answer(answer))
}

// How many of so many entries a report has words for.
fn entries_in(report: &[u32], count: usize) -> usize
    ensures asked { result ≤ count }
    ensures within { result * per_entry ≤ length report.now }
    ensures all { result < count → length report.now < (result + 1) * per_entry }
{
    count.min(report.len() / PER_ENTRY)
}

// The columns of an entry's line.
pub fn columns(rt: &impl Print) -> io::Result<()> {
    println!(rt; "line verdict at meter day")
}

// The first entries of a report, a line each. A `while`: each step takes as many entries as the text has room for.
pub fn entries(rt: &impl Print, report: &[u32], count: usize) -> io::Result<()> {
    let mut text = Text::<OUT>::new();
    let n = entries_in(report, count);
    let mut i: usize = 0;
    while i < n {
        text.clear();
        i += put_entries(&mut text, report, i, n);
        rt.write_all(text.bytes())?;
    }
    Ok(())
}

// Why a load ends early: a call was refused, or the program could not read or print.
#[derive(Debug, Drop)]
pub enum Stop {
    Refused(Refusal),
    Failed(io::Error),
}

impl From<Refusal> for Stop {
    ghost from_gives = { λ r stop. stop ≡ Refused r };

    fn from(refusal: Refusal) -> Stop {
        Stop::Refused(refusal)
    }
}

impl From<io::Error> for Stop {
    ghost from_gives = { λ e stop. stop ≡ Failed e };

    fn from(error: io::Error) -> Stop {
        Stop::Failed(error)
    }
}

// Prints the refusal that ended a load, if one did.
pub fn ended(rt: &impl Print, load: Result<(), Stop>) -> io::Result<()> {
    match load {
        Ok(()) => Ok(()),
        Err(Stop::Refused(refusal)) => println!(rt; "refused {}", u32::from(refusal)),
        Err(Stop::Failed(error)) => Err(error),
    }
}
