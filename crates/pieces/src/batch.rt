// The entries of the verdicts that fall in a piece, some at a time.
//
//     let mut batch = Batch::new();
//     batch.put(said);            // the entry of a verdict, if one fell
//     batch.words() ..            // five an entry, in order
//
// In a clause a batch is its entries so far.
ghost use Rattle.std.specs.Prelude.{◌≡◌, [], ◌++◌, ◌*◌, ◌<◌, ◌≤◌, length};
ghost use Rattle.report.specs.Words.{per_entry, first_entries};
ghost use Rattle.units.specs.Answer.{told};
ghost use Rattle.pieces.specs.Ran.{batch_size};

use report::Entry;
use report::words::{PER_ENTRY, put_entry};
use std::marker::Model;

// The entries that one batch has room for.
pub const BATCH_SIZE: usize = 256;

pub const BATCH_WORDS: usize = BATCH_SIZE * PER_ENTRY;

// The entries as words: so many are there. A fixed array with a count, since nothing here is on a heap. The words behind them are zeros, so that the
// entries alone say what the fields are: else a batch would not be `Copy`.
#[derive(Clone, Copy)]
pub struct Batch {
    count: usize,
    words: [u32; BATCH_WORDS],
}

impl Model for Batch {
    ghost use Rattle.std.specs.Prelude.{◌≡◌, List, ◌≤◌, length};
    ghost use Rattle.report.specs.Words.{first_entries};
    ghost use Rattle.report.specs.declared.Entry.{Entry as Entered};
    ghost use Rattle.report.proofs.Entries.{entries-count};
    ghost use Rattle.pieces.specs.Ran.{batch_size, words_held};

    ghost Value = { List Entered };

    ghost view = { λ b. first_entries b.count b.words };

    ghost invariant = { λ b. (b.count ≤ batch_size) × (words_held (first_entries b.count b.words) ≡ b.words) };

    ghost inverse = { λ es. record { count = length es; words = words_held es } };

    ghost inverse_ok = { λ b h i. record { count = entries-count b.count b.words i; words = h.1 i } };
}

impl Batch {
    #[tactic(auto, unfolding(report::specs::Words::first_entries, crate::specs::Ran::words_held))]
    pub fn new() -> Batch
        ensures { result ≡ [] }
    {
        Batch {
            count: 0,
            words: [0; BATCH_WORDS],
        }
    }

    // How many entries it has.
    pub fn count(&self) -> usize
        ensures { (result ≡ length self.now) × (result ≤ batch_size) }
    {
        self.count
    }

    // The words of its entries.
    pub fn words(&self) -> &[u32]
        ensures { (first_entries (length self.now) result.now ≡ self.now) × (length result.now ≡ length self.now * per_entry) }
    {
        &self.words[..self.count * PER_ENTRY]
    }

    // Puts the entry of a verdict, if one fell, behind those that are there.
    pub fn put(&mut self, said: Option<Entry>)
        requires { length self.old < batch_size }
        ensures { self.new ≡ self.old ++ told said }
    {
        if let Some(e) = said {
            let n = self.count;
            // of the words up to its end, so that those behind it stay zeros
            put_entry(&mut self.words[..(n + 1) * PER_ENTRY], n, e);
            self.count += 1;
        }
    }
}
