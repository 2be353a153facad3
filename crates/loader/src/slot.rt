// What a report is made of: entries, or words, five an entry, for programs and for callers in other languages.
ghost use Rattle.std.specs.Prelude.{◌≡◌, ℕ, List, ◌+◌, ◌≤◌, length};
ghost use Rattle.report.specs.declared.Entry.{Entry as Entered};
ghost use Rattle.report.specs.Words.{itself, report_in};
ghost use Rattle.loader.specs.Report.{pasted, left, words_left};

use pieces::batch::Batch;
use report::Entry;
use report::words::{PER_ENTRY, entry_at};
use text::bytes::copy;

// `entries` are those that a report is, `behind` is what it has behind so many.
pub trait Slot: Drop {
    ghost entries: { List Self → List Entered };

    ghost behind: { ℕ → List Self → List Self };

    // How many entries a report has room for.
    fn room(report: &[Self]) -> usize
        ensures { result ≡ length (entries report.now) };

    // Puts a batch's entries behind the first so many.
    fn put(report: &mut [Self], from: usize, batch: &Batch)
        requires { from + length batch.now ≤ length (entries report.old) }
        ensures entered { entries report.new ≡ pasted (entries report.old) from batch.now }
        ensures behind { (n : ℕ) → from + length batch.now ≤ n → behind n report.new ≡ behind n report.old };
}

impl Slot for Entry {
    ghost entries = { itself };

    ghost behind = { left };

    fn room(report: &[Entry]) -> usize {
        report.len()
    }

    fn put(report: &mut [Entry], from: usize, batch: &Batch) {
        let words = batch.words();
        // By an index: over `iter_mut` of a part, what it leaves would need a function and a lemma of its own.
        for i in 0..batch.count() {
            report[from + i] = entry_at(words, i);
        }
    }
}

impl Slot for u32 {
    ghost entries = { report_in };

    ghost behind = { words_left };

    fn room(report: &[u32]) -> usize {
        report.len() / PER_ENTRY
    }

    fn put(report: &mut [u32], from: usize, batch: &Batch) {
        let at = from * PER_ENTRY;
        let words = batch.words();
        copy(&mut report[at..at + words.len()], words);
    }
}
