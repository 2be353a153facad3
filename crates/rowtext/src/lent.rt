// The rows put into lent bytes of any length, each at a place; each function gives the place behind what it put.
//
//     let mut end = put_one(out, 0, id, channel, date);
//     end = put_two(out, end);
//     ..
//     end = put_detail(out, end, k, a, b, c, d);      // detail row k, from 0, with its four intervals
//
// For whoever changes it: the parts are those of `rows` and `detail`. None is made in a `Text` first, which would take twice the time.
#![tactic(auto, using(crate::proofs::Parts::row_sizes))]

ghost use Rattle.std.specs.Prelude.{[], ◌∷◌, ◌<◌};
ghost use Rattle.text.specs.Field.{comma};
ghost use Rattle.digits.specs.Put.{Room, Put};
ghost use Rattle.lines.specs.Text.{row};
ghost use Rattle.rowtext.specs.Text.{with_commas, time_text, channel_text, value_text, interval_fields, line_one, line_two, line_three, line_four, line_thirty, line_detail};
ghost use Rattle.rowtext.specs.Value.{value_end};

use crate::detail::{PER_KWH, ROW_DIGITS};
use calendar::{CLOCK_SIZE, DATE_SIZE};
use details::detail::Interval;
use details::value::PART_DIGITS;
use digits::lent::{put, put_decimal, put_number};
use headers::time::{DAY_STOP, Stamp};

// A time, with the comma before it.
fn put_time(out: &mut [u8], at: usize, date: u32, clock: u32) -> usize
    requires { Room out.old at (comma ∷ time_text date clock) }
    ensures { Put out.old at (comma ∷ time_text date clock) out.new result }
{
    let mut end = put(out, at, b",");
    end = put_number(out, end, DATE_SIZE, date);
    put_number(out, end, CLOCK_SIZE, clock)
}

// A channel by its number, with the comma before it: load is 0, generation 1.
fn put_channel(out: &mut [u8], at: usize, channel: usize) -> usize
    requires { Room out.old at (comma ∷ channel_text channel) }
    ensures { Put out.old at (comma ∷ channel_text channel) out.new result }
{
    put(out, at, if channel == 0 { b",4" } else { b",1" })
}

pub fn put_one(out: &mut [u8], at: usize, id: &[u8], channel: usize, date: u32) -> usize
    requires { Room out.old at (row (line_one id.now channel date)) }
    ensures { Put out.old at (row (line_one id.now channel date)) out.new result }
{
    let mut end = put(out, at, b"00000001,");
    end = put(out, end, id);
    end = put_channel(out, end, channel);
    end = put_time(out, end, date, 0);
    end = put_time(out, end, date, DAY_STOP);
    put(out, end, b",Y,N\n")
}

pub fn put_two(out: &mut [u8], at: usize) -> usize
    requires { Room out.old at (row line_two) }
    ensures { Put out.old at (row line_two) out.new result }
{
    put(out, at, b"00000002,,,,,,,900,01,,,,,CST\n")
}

pub fn put_three(out: &mut [u8], at: usize, descriptor: &[u8]) -> usize
    requires { Room out.old at (row (line_three descriptor.now)) }
    ensures { Put out.old at (row (line_three descriptor.now)) out.new result }
{
    let mut end = put(out, at, b"00000003,");
    end = put(out, end, descriptor);
    put(out, end, b"\n")
}

pub fn put_four(out: &mut [u8], at: usize, stamp: Stamp) -> usize
    requires { Room out.old at (row (line_four stamp)) }
    ensures { Put out.old at (row (line_four stamp)) out.new result }
{
    let mut end = put(out, at, b"00000004");
    end = put_time(out, end, stamp.date, stamp.clock);
    put(out, end, b",M\n")
}

pub fn put_thirty(out: &mut [u8], at: usize, owner: &[u8]) -> usize
    requires { Room out.old at (row (line_thirty owner.now)) }
    ensures { Put out.old at (row (line_thirty owner.now)) out.new result }
{
    let mut end = put(out, at, b"00000030,ATTRIBUTE_VALUE_PAIRS,MRE=");
    end = put(out, end, owner);
    end = put(out, end, b",Sender=");
    end = put(out, end, owner);
    put(out, end, b",Receiver=183529049,REP=\n")
}

#[tactic(auto, using(crate::proofs::Texts::value_parts))]
pub fn put_value(out: &mut [u8], at: usize, wh: u32) -> usize
    requires wh_lt_value_end { wh < value_end }
    requires room { Room out.old at (value_text wh) }
    ensures { Put out.old at (value_text wh) out.new result }
{
    let mut end = put_decimal(out, at, wh / PER_KWH);
    end = put(out, end, b".");
    put_number(out, end, PART_DIGITS, wh % PER_KWH)
}

// Value, status, empty, with the comma before each of the three.
#[tactic(auto, using(crate::proofs::Texts::interval_parts))]
fn put_interval(out: &mut [u8], at: usize, interval: Interval) -> usize
    requires wh_lt_value_end { interval.wh < value_end }
    requires room { Room out.old at (comma ∷ with_commas (interval_fields interval)) }
    ensures { Put out.old at (comma ∷ with_commas (interval_fields interval)) out.new result }
{
    let mut end = put(out, at, b",");
    end = put_value(out, end, interval.wh);
    put(out, end, if interval.estimated { b",E," } else { b",A," })
}

// Detail row k, from 0.
#[tactic(auto, using(crate::proofs::Texts::front_parts))]
pub fn put_detail(
    out: &mut [u8],
    at: usize,
    k: u32,
    a: Interval,
    b: Interval,
    c: Interval,
    d: Interval,
) -> usize
    requires wh_lt_value_end { (a.wh < value_end) × (b.wh < value_end) × (c.wh < value_end) × (d.wh < value_end) }
    requires room { Room out.old at (row (line_detail k (a ∷ b ∷ c ∷ d ∷ []))) }
    ensures { Put out.old at (row (line_detail k (a ∷ b ∷ c ∷ d ∷ []))) out.new result }
{
    let mut end = put(out, at, b"100000");
    end = put_number(out, end, ROW_DIGITS, k);
    end = put_interval(out, end, a);
    end = put_interval(out, end, b);
    end = put_interval(out, end, c);
    end = put_interval(out, end, d);
    put(out, end, b",\n")
}
