// Times of 14 digits, and the day that a start and a stop span.
ghost use Rattle.std.specs.Prelude.{◌≡◌, ◌+◌, ◌*◌};
ghost use Rattle.report.specs.Outcome.{says};
ghost use Rattle.headers.specs.Time.{time_of, stamp_at, moment, is_below, stops_day, is_whole_day};

use calendar::{CLOCK_SIZE, DATE_SIZE, is_clock, is_date};
use report::require;
use report::verdict::Verdict;
use text::bytes::all_digits;
use text::fields::{behind, front};
use text::numbers::number_of;

const TIME_SIZE: usize = DATE_SIZE + CLOCK_SIZE;

// 23:59:00, the stop that row one is written with (rowtext).
pub const DAY_STOP: u32 = 235900;
// 23:59:59, with which row one is read too.
const LAST_SECOND: u32 = 235959;

// A date YYYYMMDD and a time of day HHMMSS. A stamp has the same fields and is another thing: a time is a field of a row, a stamp settles which read wins.
#[derive(Clone, Copy, Debug, PartialEq, Eq)]
pub struct Time {
    pub date: u32,
    pub clock: u32,
}

// When a read was made: of the reads for a cell the one with the latest stamp wins.
#[derive(Clone, Copy, Debug, PartialEq, Eq, PartialOrd, Ord)]
pub struct Stamp {
    pub date: u32,
    pub clock: u32,
}

impl From<Time> for Stamp {
    ghost from_gives = { λ t s. s ≡ stamp_at t };

    fn from(t: Time) -> Stamp {
        Stamp {
            date: t.date,
            clock: t.clock,
        }
    }
}

pub fn read_time(f: &[u8]) -> Result<Time, Verdict>
    ensures { says result ≡ time_of f.now }
{
    require(f.len() == TIME_SIZE, Verdict::Misfit)?;
    require(all_digits(f), Verdict::Misfit)?;
    let date = number_of(front(f, DATE_SIZE));
    let clock = number_of(behind(f, DATE_SIZE));
    require(is_date(date) & is_clock(clock), Verdict::Misfit)?;
    Ok(Time { date, clock })
}

// The 14 digits as one number.
fn moment_of(t: Time) -> u64
    ensures { result ≡ moment t }
{
    u64::from(t.date) * 1_000_000 + u64::from(t.clock)
}

// Whether start is numerically below stop: by one number, since a clock of more than six digits too compares so, where a derived order would not.
pub fn is_below(start: Time, stop: Time) -> bool
    ensures { result ≡ is_below start stop }
{
    moment_of(start) < moment_of(stop)
}

// Whether a time of day stops a day. All of row one's readers ask here, the quick one too.
pub fn stops_day(clock: u32) -> bool
    ensures { result ≡ stops_day clock }
{
    (clock == DAY_STOP) | (clock == LAST_SECOND)
}

// Whether start is the first second of a day and stop the stop of that day.
pub fn is_whole_day(start: Time, stop: Time) -> bool
    ensures { result ≡ is_whole_day start stop }
{
    (start.clock == 0) & (stop.date == start.date) & stops_day(stop.clock)
}
