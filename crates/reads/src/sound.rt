// When a cell is sound for its day, and how many intervals of a sound cell are estimated.
ghost use Rattle.std.specs.Prelude.{◌≡◌, ◌<◌, ◌≤◌, ◌-◌, length, drop, count_ones};
ghost use Rattle.std.specs.List.{sum_by};
ghost use Rattle.text.specs.Byte.{every};
ghost use Rattle.cell.specs.Layout.{max_intervals, mark_bits, marks_at, values_at};
ghost use Rattle.cell.specs.Marks.{statuses, estimated};
ghost use Rattle.reads.specs.Sound.{is_real_stamp, is_value, is_zero, no_mark, is_sound};

use calendar::{is_clock, is_date};
use cell::mark::WORD_BITS;
use cell::{Cell, Words, stamp_in};
use headers::time::Stamp;
use text::bytes::every;

// The most watt hours that a row can give.
const MAX_VALUE: u32 = 999999999;

fn is_real_stamp(stamp: Stamp) -> bool
    ensures { result ≡ is_real_stamp stamp }
{
    is_date(stamp.date) & is_clock(stamp.clock)
}

fn all_values(values: &[u32]) -> bool
    ensures { result ≡ every is_value values.now }
{
    every(values, |wh| wh <= MAX_VALUE)
}

fn all_zero(words: &[u32]) -> bool
    ensures { result ≡ every is_zero words.now }
{
    every(words, |word| word == 0)
}

// Whether no interval from the n-th on is marked: neither in the n-th's word nor in those behind it.
fn is_clear(words: &Words, n: usize) -> bool
    requires { n < mark_bits }
    ensures { result ≡ no_mark (drop n (statuses mark_bits words.now)) }
{
    let first = Cell::MARKS + n / WORD_BITS;
    let behind = &words[first + 1..Cell::VALUES];
    (words[first] >> (n % WORD_BITS) == 0) & all_zero(behind)
}

// Whether a cell is sound for a day of n intervals.
pub fn is_sound(words: &Words, n: u32) -> bool
    requires { n ≤ max_intervals }
    ensures { result ≡ is_sound n words.now }
{
    let used = n as usize;
    let unused = Cell::VALUES + used;
    let real = is_real_stamp(stamp_in(words));
    let values = all_values(&words[Cell::VALUES..]);
    let zero = all_zero(&words[unused..]);
    (words[Cell::COUNT] == n) & real & values & zero & is_clear(words, used)
}

// The ones of the words, added up. A cell has no more words of marks than that, so the sum fits.
fn count_ones(marks: &[u32]) -> u32
    requires { length marks.now ≤ values_at - marks_at }
    ensures { result ≡ sum_by count_ones marks.now }
{
    marks.iter().map(|m| m.count_ones()).sum()
}

// How many marks a cell has: of a sound cell, how many intervals are estimated.
pub fn count_marks(words: &Words) -> u32
    ensures { result ≡ estimated mark_bits words.now }
{
    count_ones(&words[Cell::MARKS..Cell::VALUES])
}
