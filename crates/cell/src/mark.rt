// Estimate marks: a bit for each interval. They need no more words than those before the values.
ghost use Rattle.std.specs.Prelude.{◌≡◌, true, false, ◌<◌, ◌≤◌, length, get_or, set};
ghost use Rattle.cell.specs.Layout.{values_at, mark_bits};
ghost use Rattle.cell.specs.Marks.{is_estimated, statuses, with_mark};

use crate::Cell;

pub const WORD_BITS: usize = 32;

// Marks interval i as estimated.
pub fn set_mark(words: &mut [u32], i: usize)
    requires { (i < mark_bits) × (values_at ≤ length words.old) }
    ensures words { words.new ≡ with_mark words.old i }
    ensures statuses { statuses mark_bits words.new ≡ set (statuses mark_bits words.old) i true }
{
    let at = Cell::MARKS + i / WORD_BITS;
    words[at] |= 1 << (i % WORD_BITS);
}

// Whether interval i is estimated.
pub fn is_marked(words: &[u32], i: usize) -> bool
    requires { (i < mark_bits) × (values_at ≤ length words.now) }
    ensures bit { result ≡ is_estimated words.now i }
    ensures statuses { result ≡ get_or (statuses mark_bits words.now) i false }
{
    let at = Cell::MARKS + i / WORD_BITS;
    (words[at] >> (i % WORD_BITS)) & 1 == 1
}
