// The entries of a report as lines of text, for programs that print them.
//
//     i += put_entries(&mut text, &report, i, count);      // the lines of entries from i on, as many as there is room for
//     rt.write_all(text.bytes())?;
//
// For whoever changes it: a line is `line_of` of specs/Listing.antt. Nothing here writes anywhere but into the text, or in module `lent` into the lent bytes.
#![tactic(auto)]

ghost use Rattle.std.specs.Prelude.{◌≡◌, ◌++◌, ◌+◌, ◌*◌, ◌<◌, ◌≤◌, length};
ghost use Rattle.report.specs.Words.{per_entry};
ghost use Rattle.entrytext.specs.Listing.{number_then, widest, line_of, longest, lines_from};

pub mod lent;

use digits::{MOST_DIGITS, Text};
use report::Entry;
use report::words::{PER_ENTRY, entry_at};

// No number with the byte behind it is wider, and no line is longer.
const WIDEST: usize = MOST_DIGITS + 1;

pub const LONGEST: usize = PER_ENTRY * WIDEST;

// How many entries were put into lent bytes, and the place behind them.
#[derive(Clone, Copy)]
pub struct Listed {
    pub entries: usize,
    pub end: usize,
}

// Puts a number and the byte behind it.
#[tactic(auto, using(crate::proofs::Listing::numbers))]
fn put_then<const N: usize>(text: &mut Text<N>, n: u32, behind: u8)
    requires { length text.old + widest ≤ N }
    ensures { text.new ≡ text.old ++ number_then n behind }
{
    text.put_decimal(n);
    text.put(&[behind]);
}

// Puts an entry's line. No loop: behind the last number stands another byte.
#[tactic(auto, using(crate::proofs::Listing::numbers), unfolding(crate::specs::Listing::line_of))]
fn put_line<const N: usize>(text: &mut Text<N>, e: Entry)
    requires { length text.old + longest ≤ N }
    ensures { text.new ≡ text.old ++ line_of e }
{
    put_then(text, e.first, b' ');
    put_then(text, e.verdict, b' ');
    put_then(text, e.at, b' ');
    put_then(text, e.meter, b' ');
    put_then(text, e.day, b'\n');
}

// Puts the lines of a report's entries, from one of them on up to `count`, as long as there is room for a longest line; gives how many.
// The report is words, as for C: with its parts of five in their place, a law would have to tie each to `entry_at`, for the same loop.
pub fn put_entries<const N: usize>(
    text: &mut Text<N>,
    report: &[u32],
    from: usize,
    count: usize,
) -> usize
    requires { (length text.old + longest ≤ N) × (from ≤ count) × (count * per_entry ≤ length report.now) }
    ensures lines { text.new ≡ text.old ++ lines_from report.now from result }
    ensures within { from + result ≤ count }
    ensures some { from < count → 0 < result }
{
    for n in from..count {
        if text.room() < LONGEST {
            return n - from;
        }
        put_line(text, entry_at(report, n));
    }
    count - from
}
