// What the program prints of a cell.
ghost use Rattle.std.specs.Prelude.{◌≡◌, ◌≤◌, length, sum};
ghost use Rattle.cell.specs.Layout.{max_intervals};

use cell::{Cell, Words};
use reads::holds_none;
use std::io;

// The watt hours of a cell, added up. A cell has no more intervals than that, so the sum fits.
fn total(values: &[u32]) -> u64
    requires { length values.now ≤ max_intervals }
    ensures { result ≡ sum values.now }
{
    values.iter().map(|v| u64::from(*v)).sum()
}

// The line of cell number c, given by its words, if it holds a read.
pub fn cell_line(rt: &impl Print, c: usize, words: &Words) -> io::Result<()> {
    if holds_none(words) {
        return Ok(());
    }
    print!(rt; "cell {c}")?;
    for word in &words[..Cell::VALUES] {
        print!(rt; " {word}")?;
    }
    println!(rt; " {}", total(&words[Cell::VALUES..]))
}
