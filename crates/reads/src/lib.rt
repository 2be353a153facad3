// The read that a cell of the table holds. A loaded read replaces the cell if that holds none, or has an earlier stamp.
//
//     load(table, c, &words);                         // cell number c is then the read that wins
//     cell_at(table, c)                               // its words, as they lie in the table
//
// `sound::is_sound` tests a cell of a table that comes from elsewhere; `sound::count_marks` counts the estimated intervals of a sound one.
//
// For whoever changes it: which read wins is `merge` of specs/Load.antt, by the order of stamps `is_later`; when a cell is sound is specs/Sound.antt.
#![tactic(auto)]

ghost use Rattle.std.specs.Prelude.{◌≡◌, ◌||◌, ◌+◌, ◌*◌, ◌≤◌, length};
ghost use Rattle.cell.specs.Layout.{width};
ghost use Rattle.cell.specs.Read.{stamp_in};
ghost use Rattle.reads.specs.Load.{cell_at, holds_none, is_later, loaded};

use cell::{Cell, Words, stamp_in};
use headers::time::Stamp;
use text::bytes::copy;

pub mod sound;

// Whether a cell holds no read.
pub fn holds_none(words: &Words) -> bool
    ensures { result ≡ holds_none words.now }
{
    words[Cell::COUNT] == 0
}

// Whether a stamp is later than another: equal ones are not.
#[tactic(auto, unfolding(crate::specs::Load::is_later))]
pub fn is_later(new: Stamp, old: Stamp) -> bool
    ensures { result ≡ is_later new old }
{
    new > old
}

fn replaces(new: &Words, old: &Words) -> bool
    ensures { result ≡ (holds_none old.now || is_later (stamp_in new.now) (stamp_in old.now)) }
{
    holds_none(old) | is_later(stamp_in(new), stamp_in(old))
}

// The words of cell number c.
pub fn cell_at(table: &[u32], c: usize) -> &Words
    requires { c * width + width ≤ length table.now }
    ensures { result.now ≡ cell_at table.now c }
{
    let start = c * Cell::WIDTH;
    let end = start + Cell::WIDTH;
    table[start..end].as_array().unwrap()
}

// Loads a read into cell number c. No other word of the table changes.
pub fn load(table: &mut [u32], c: usize, read: &Words)
    requires { c * width + width ≤ length table.old }
    ensures { table.new ≡ loaded table.old c read.now }
{
    if replaces(read, cell_at(table, c)) {
        let at = c * Cell::WIDTH;
        copy(&mut table[at..at + Cell::WIDTH], read);
    }
}
