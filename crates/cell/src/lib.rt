// One cell of the settlement table: the words of a meter's read for a day.
//
// A cell is `Cell::WIDTH` words: interval count, stamp (date, clock), estimate marks (a bit for each interval), watt hours. A cell whose
// first word is 0 holds no read. A read is built row by row:
//
//     let mut words = Cell::begun(count).words;       // row one: the day, which has so many intervals
//     put_stamp(&mut words, stamp);                   // row four
//     put_interval(&mut words, i, interval);          // detail rows: intervals 0, 1, ..
//
// Which read a cell of the table then holds is the crate reads'.
//
// For whoever changes it: the layout is `Cell`'s constants here, `mark::WORD_BITS` and specs/Layout.antt, and no number of it stands
// elsewhere, in code or in a proof; what a built read says is `Holds` of specs/Read.antt, which a new part of the cell must join.
#![tactic(auto)]

ghost use Rattle.std.specs.Prelude.{◌≡◌, ◌<◌};
ghost use Rattle.cell.specs.Layout.{max_intervals};
ghost use Rattle.cell.specs.Read.{cleared, begun, with_stamp, with_interval, interval_in, stamp_in};

use crate::mark::{is_marked, set_mark};
use details::detail::Interval;
use headers::time::Stamp;

pub mod mark;

// The words of a cell, of the table or of a read that is built: document 01 says which word is what, and C has them so.
pub type Words = [u32; Cell::WIDTH];

// One cell, to be built up and then loaded.
#[derive(Clone, Copy)]
pub struct Cell {
    pub words: Words,
}

impl Cell {
    pub const WIDTH: usize = 107;

    // The place of each part.
    pub const COUNT: usize = 0;

    pub const DATE: usize = 1;

    pub const CLOCK: usize = 2;

    pub const MARKS: usize = 3;

    pub const VALUES: usize = 7;

    // The most intervals that a cell has room for.
    pub const INTERVALS: usize = Cell::WIDTH - Cell::VALUES;

    // A cell that holds no read.
    pub fn cleared() -> Cell
        ensures { result.words ≡ cleared }
    {
        Cell {
            words: [0; Cell::WIDTH],
        }
    }

    // A read of so many intervals, none given yet, and no stamp. Row one begins a record's read so.
    pub fn begun(count: u32) -> Cell
        ensures { result.words ≡ begun count }
    {
        let mut cell = Cell::cleared();
        cell.words[Cell::COUNT] = count;
        cell
    }
}

pub fn put_stamp(words: &mut Words, stamp: Stamp)
    ensures { words.new ≡ with_stamp words.old stamp }
{
    words[Cell::DATE] = stamp.date;
    words[Cell::CLOCK] = stamp.clock;
}

pub fn stamp_in(words: &Words) -> Stamp
    ensures { result ≡ stamp_in words.now }
{
    Stamp {
        date: words[Cell::DATE],
        clock: words[Cell::CLOCK],
    }
}

// Puts interval i.
pub fn put_interval(words: &mut Words, i: usize, interval: Interval)
    requires { i < max_intervals }
    ensures { words.new ≡ with_interval words.old i interval }
{
    words[Cell::VALUES + i] = interval.wh;
    if interval.estimated {
        set_mark(words, i);
    }
}

// Interval i of a read.
pub fn interval_in(words: &Words, i: usize) -> Interval
    requires { i < max_intervals }
    ensures { result ≡ interval_in words.now i }
{
    Interval {
        wh: words[Cell::VALUES + i],
        estimated: is_marked(words, i),
    }
}
