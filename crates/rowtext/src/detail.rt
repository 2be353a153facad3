// The detail row: four intervals, each with its value.
ghost use Rattle.std.specs.Prelude.{◌≡◌, ◌∷◌, ◌++◌, ◌+◌, ◌<◌, ◌≤◌, length};
ghost use Rattle.std.specs.List.{All};
ghost use Rattle.text.specs.Field.{comma};
ghost use Rattle.lines.specs.Text.{row};
ghost use Rattle.rowtext.specs.Text.{with_commas, value_text, interval_fields, line_detail};
ghost use Rattle.rowtext.specs.Value.{value_end};

use details::detail::{Interval, Row};
use details::value::PART_DIGITS;
use digits::Text;

// The watt hours of a kWh.
pub(crate) const PER_KWH: u32 = 1000;

// The digits of a row's number in its code.
pub(crate) const ROW_DIGITS: usize = 2;

// A value below 1,000 MWh is asked where it is written, and is no invariant of `Interval`: a cell takes one with any number.
#[tactic(auto, using(crate::proofs::Texts::value_parts))]
pub fn put_value<const N: usize>(text: &mut Text<N>, wh: u32)
    requires wh_lt_value_end { wh < value_end }
    requires room { length text.old + length (value_text wh) ≤ N }
    ensures { text.new ≡ text.old ++ value_text wh }
{
    text.put_decimal(wh / PER_KWH);
    text.put(b".");
    text.put_number(PART_DIGITS, wh % PER_KWH);
}

// Value, status, empty, with the comma before each of the three.
#[tactic(auto, using(crate::proofs::Texts::interval_parts))]
fn put_interval<const N: usize>(text: &mut Text<N>, interval: Interval)
    requires wh_lt_value_end { interval.wh < value_end }
    requires room { length text.old + length (comma ∷ with_commas (interval_fields interval)) ≤ N }
    ensures { text.new ≡ text.old ++ comma ∷ with_commas (interval_fields interval) }
{
    text.put(b",");
    put_value(text, interval.wh);
    text.put(if interval.estimated { b",E," } else { b",A," });
}

// Detail row k, from 0.
#[tactic(auto, using(crate::proofs::Texts::front_parts))]
pub fn put_detail<const N: usize>(text: &mut Text<N>, k: u32, intervals: &Row)
    requires wh_lt_value_end { All (λ v. v.wh < value_end) intervals.now }
    requires room { length text.old + length (row (line_detail k intervals.now)) ≤ N }
    ensures { text.new ≡ text.old ++ row (line_detail k intervals.now) }
{
    text.put(b"100000");
    text.put_number(ROW_DIGITS, k);
    for interval in intervals {
        put_interval(text, *interval);
    }
    text.put(b",\n");
}
