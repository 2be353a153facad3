// Values: kWh with at most three decimals, kept in watt hours.
ghost use Rattle.std.specs.Prelude.{◌≡◌};
ghost use Rattle.text.specs.Number.{Digits};
ghost use Rattle.report.specs.Outcome.{says};
ghost use Rattle.details.specs.Value.{whole_digits, part_digits, watt_hours, value_of};

use report::require;
use report::verdict::Verdict;
use text::bytes::{all_digits, begins};
use text::fields::{behind, front};
use text::numbers::{digits, number_of};

pub const WHOLE_DIGITS: usize = 6;

pub const PART_DIGITS: usize = 3;

// kWh times 1,000, from the digits before the point and those behind it.
fn watt_hours(whole: &[u8], part: &[u8]) -> u32
    requires digits { Digits whole_digits whole.now }
    requires digits_2 { Digits part_digits part.now }
    ensures { result ≡ watt_hours whole.now part.now }
{
    let k = number_of(whole) * 1000;
    let n = number_of(part);
    match part.len() {
        3 => k + n,
        2 => k + n * 10,
        1 => k + n * 100,
        _ => k,
    }
}

// Watt hours.
pub fn read_value(f: &[u8]) -> Result<u32, Verdict>
    ensures { says result ≡ value_of f.now }
{
    require(!begins(f, b"-"), Verdict::Negative)?;
    let w = digits(f);
    let whole = front(f, w);
    match behind(f, w) {
        [] => {
            require((1 <= w) & (w <= WHOLE_DIGITS), Verdict::NoValue)?;
            Ok(watt_hours(whole, &[]))
        }
        [b'.', part @ ..] => {
            require(all_digits(part), Verdict::NoValue)?;
            require(part.len() <= PART_DIGITS, Verdict::TooFine)?;
            require(!part.is_empty() & (w <= WHOLE_DIGITS), Verdict::NoValue)?;
            Ok(watt_hours(whole, part))
        }
        _ => Err(Verdict::NoValue),
    }
}
