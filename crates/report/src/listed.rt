// A report that is read: of entries, or of words, five an entry.
ghost use Rattle.std.specs.Prelude.{◌≡◌, List, ◌∷◌, ◌+◌, ◌<◌, length, drop};
ghost use Rattle.report.specs.declared.Entry.{Entry as Entered};
ghost use Rattle.report.specs.Words.{itself, report_in};

use crate::Entry;
use crate::words::{PER_ENTRY, entry_at};

// `entries` are those that a report is.
pub trait Listed: Drop {
    ghost entries: { List Self → List Entered };

    fn count(report: &[Self]) -> usize
        ensures { result ≡ length (entries report.now) };

    // Entry n, from 0.
    fn entry(report: &[Self], n: usize) -> Entry
        requires { n < length (entries report.now) }
        ensures { drop n (entries report.now) ≡ result ∷ drop (n + 1) (entries report.now) };
}

impl Listed for Entry {
    ghost entries = { itself };

    fn count(report: &[Entry]) -> usize {
        report.len()
    }

    fn entry(report: &[Entry], n: usize) -> Entry {
        report[n]
    }
}

impl Listed for u32 {
    ghost entries = { report_in };

    fn count(report: &[u32]) -> usize {
        report.len() / PER_ENTRY
    }

    fn entry(report: &[u32], n: usize) -> Entry {
        entry_at(report, n)
    }
}
