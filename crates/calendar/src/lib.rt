// Dates, clock times and day numbers from 2007 to 2099, and how many intervals a day has. Any number gets an answer.
#![tactic(auto)]

ghost use Rattle.std.specs.Prelude.{◌≡◌, ◌<◌, ◌≤◌};
ghost use Rattle.calendar.specs.Date.{is_leap, month_length, is_date};
ghost use Rattle.calendar.specs.Clock.{is_clock};
ghost use Rattle.calendar.specs.Day.{months, first_day, last_day, InMonth};
ghost use Rattle.calendar.specs.Answer.{day_is, date_is, intervals_on_date, intervals_of_day};

mod months;

use months::FIRST_DAYS;

// The digits of a date YYYYMMDD, and of a time of day HHMMSS.
pub const DATE_SIZE: usize = 8;

pub const CLOCK_SIZE: usize = 6;

const FIRST_YEAR: u32 = 2007;

const LAST_YEAR: u32 = 2099;

// From January 2007 to December 2099.
const MONTHS: usize = (LAST_YEAR - FIRST_YEAR + 1) as usize * 12;

// 20991231
pub const LAST_DAY: u32 = 33967;

pub fn is_leap(year: u32) -> bool
    ensures { result ≡ is_leap year }
{
    (year % 4 == 0) & ((year % 100 != 0) | (year % 400 == 0))
}

// How many days month 1 to 12 of a year has.
#[tactic(auto, unfolding(crate::specs::Date::month_length))]
pub fn month_length(year: u32, month: u32) -> u32
    ensures { result ≡ month_length year month }
{
    match month {
        2 if is_leap(year) => 29,
        2 => 28,
        4 | 6 | 9 | 11 => 30,
        _ => 31,
    }
}

// Whether a number YYYYMMDD is a real date of 2007 to 2099.
#[tactic(auto, unfolding(crate::specs::Date::is_date))]
pub fn is_date(date: u32) -> bool
    ensures { result ≡ is_date date }
{
    let year = date / 10000;
    let month = date / 100 % 100;
    let day = date % 100;
    (FIRST_YEAR <= year)
        & (year <= LAST_YEAR)
        & (1 <= month)
        & (month <= 12)
        & (1 <= day)
        & (day <= month_length(year, month))
}

// Whether a number HHMMSS is a time of day.
#[tactic(auto, unfolding(crate::specs::Clock::is_clock))]
pub fn is_clock(clock: u32) -> bool
    ensures { result ≡ is_clock clock }
{
    (clock / 10000 <= 23) & (clock / 100 % 100 <= 59) & (clock % 100 <= 59)
}

// The day number of the first day of month k, from January 2007 = 0.
#[tactic(auto, using(crate::proofs::Table::entry_right))]
fn first_day(k: usize) -> u32
    requires { k < months }
    ensures { result ≡ first_day k }
{
    u32::from(FIRST_DAYS[k])
}

// The number of a date's day, from 20070101 = 0.
#[tactic(auto, unfolding(crate::specs::Answer::day_is, crate::specs::Day::day_number, crate::specs::Date::is_date), using(crate::proofs::Laws::in_range))]
pub fn day_number(date: u32) -> Option<u32>
    ensures { result ≡ day_is date }
{
    if !is_date(date) {
        return None;
    }
    let month = (date / 10000 - FIRST_YEAR) * 12 + (date / 100 % 100 - 1);
    Some(first_day(month as usize) + (date % 100 - 1))
}

// The month, from January 2007 = 0, of the day with a number: the last one that does not begin after it.
fn month_of(day: u32) -> usize
    requires { day ≤ last_day }
    ensures { InMonth day result }
{
    FIRST_DAYS.partition_point(|first| u32::from(*first) <= day) - 1
}

// The date YYYYMMDD of the day with a number; 0 past 20991231. No Option, here and in the next two: each caller has a real day and would only unwrap it.
#[tactic(auto, unfolding(crate::specs::Answer::date_is), using(crate::proofs::Laws::date_found))]
pub fn date_of(day: u32) -> u32
    ensures { result ≡ date_is day }
{
    if LAST_DAY < day {
        return 0;
    }
    let month = month_of(day);
    let year = FIRST_YEAR + (month / 12) as u32;
    year * 10000 + ((month % 12) as u32 + 1) * 100 + (day - first_day(month) + 1)
}

// How many intervals the day of a date has; 0 where it is no date.
#[tactic(auto, unfolding(crate::specs::Answer::intervals_on_date, crate::specs::Answer::day_is, crate::specs::Intervals::intervals_on))]
pub fn intervals_on(date: u32) -> u32
    ensures { result ≡ intervals_on_date date }
{
    let Some(n) = day_number(date) else {
        return 0;
    };
    let day = date % 100;
    let sunday = n % 7 == 6;
    match date / 100 % 100 {
        3 if (8 <= day) & (day <= 14) & sunday => 92,
        11 if (day <= 7) & sunday => 100,
        _ => 96,
    }
}

// How many intervals the day with a number has; 0 past 20991231.
#[tactic(auto, unfolding(crate::specs::Answer::intervals_of_day), using(crate::proofs::Laws::intervals_same))]
pub fn intervals_of(day: u32) -> u32
    ensures { result ≡ intervals_of_day day }
{
    if LAST_DAY < day {
        return 0;
    }
    intervals_on(date_of(day))
}
