// Entries as words, five each: so C has them.
ghost use Rattle.std.specs.Prelude.{◌≡◌, [], ◌∷◌, ◌++◌, ◌+◌, ◌*◌, ◌<◌, length};
ghost use Rattle.report.specs.Words.{per_entry, entry_at, first_entries, words_of};

use crate::Entry;

pub const PER_ENTRY: usize = 5;

impl From<Entry> for [u32; PER_ENTRY] {
    ghost from_gives = { λ e words. words ≡ words_of e };

    fn from(e: Entry) -> [u32; PER_ENTRY] {
        [e.first, e.verdict, e.at, e.meter, e.day]
    }
}

impl From<[u32; PER_ENTRY]> for Entry {
    ghost from_gives = { λ words e. e ≡ entry_at words 0 };

    fn from(words: [u32; PER_ENTRY]) -> Entry {
        let [first, verdict, at, meter, day] = words;
        Entry {
            first,
            verdict,
            at,
            meter,
            day,
        }
    }
}

// Puts an entry behind the first n.
pub fn put_entry(out: &mut [u32], n: usize, e: Entry)
    requires { n * per_entry + 4 < length out.old }
    ensures { (first_entries (n + 1) out.new ≡ first_entries n out.old ++ (e ∷ [])) × (length out.new ≡ length out.old) }
{
    let i = n * PER_ENTRY;
    let words = <[u32; PER_ENTRY]>::from(e);
    out[i..i + PER_ENTRY].copy_from_slice(&words);
}

// Entry n, from 0.
pub fn entry_at(words: &[u32], n: usize) -> Entry
    requires { n * per_entry + 4 < length words.now }
    ensures { result ≡ entry_at words.now n }
{
    let i = n * PER_ENTRY;
    Entry::from(*words[i..i + PER_ENTRY].as_array().unwrap())
}
