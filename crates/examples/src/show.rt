// Printing: a row's verdict, what the row gives, and the row.
use details::detail::{Interval, read_detail};
use headers::four::read_four;
use headers::one::{Channel, read_one};
use headers::thirty::read_thirty;
use headers::three::read_three;
use headers::two::read_two;
use lines::line::Line;
use report::verdict::Verdict;
use std::io;

// What a row's reader answers, to be printed: 0 for a row that passes, else its verdict.
fn answer<T>(read: &Result<T, Verdict>) -> u32 {
    match read {
        Ok(_) => 0,
        Err(verdict) => u32::from(*verdict),
    }
}

// A line that has no CR.
fn whole(body: &[u8]) -> Line<'_> {
    Line { body, cr: false }
}

fn name_of(channel: Channel) -> &'static str {
    match channel {
        Channel::Load => "load",
        Channel::Generation => "generation",
    }
}

// A row: its verdict, what it gives where it passes, and its bytes.
fn row<T: Drop, Gives: FnOnce(T) -> io::Result<()>>(
    rt: &impl Print,
    read: Result<T, Verdict>,
    line: &str,
    gives: Gives,
) -> io::Result<()>
    requires { Gives.IsAlwaysCallable gives }
{
    print!(rt; "{}", answer(&read))?;
    if let Ok(given) = read {
        gives(given)?;
    }
    println!(rt; ": {line}")
}

pub fn one(rt: &impl Print, line: &str) -> io::Result<()> {
    row(rt, read_one(whole(line.as_bytes())), line, |one| {
        print!(rt; " ")?;
        rt.write_all(one.id)?;
        print!(rt; " {} {}", name_of(one.channel), one.day)
    })
}

// A line that can't be printed, as row one.
pub fn odd(rt: &impl Print, line: &[u8]) -> io::Result<()> {
    let read = read_one(whole(line));
    println!(rt; "{}: {} bytes", answer(&read), line.len())
}

pub fn two(rt: &impl Print, line: &str) -> io::Result<()> {
    row(rt, read_two(whole(line.as_bytes())), line, |()| Ok(()))
}

pub fn three(rt: &impl Print, line: &str) -> io::Result<()> {
    row(rt, read_three(whole(line.as_bytes())), line, |()| Ok(()))
}

pub fn four(rt: &impl Print, line: &str) -> io::Result<()> {
    row(rt, read_four(whole(line.as_bytes())), line, |stamp| {
        print!(rt; " {} {}", stamp.date, stamp.clock)
    })
}

pub fn thirty(rt: &impl Print, line: &str) -> io::Result<()> {
    row(rt, read_thirty(whole(line.as_bytes())), line, |sender| {
        print!(rt; " ")?;
        rt.write_all(sender)
    })
}

fn interval(rt: &impl Print, i: Interval) -> io::Result<()> {
    let status = if i.estimated { "E" } else { "A" };
    print!(rt; " {}{status}", i.wh)
}

pub fn detail(rt: &impl Print, k: u32, line: &str) -> io::Result<()> {
    row(
        rt,
        read_detail(whole(line.as_bytes()), k),
        line,
        |intervals| {
            for i in intervals {
                interval(rt, i)?;
            }
            Ok(())
        },
    )
}
