// Writes the cells of a small table out, loads the text into a cleared table, and prints what Write answered, the text, and the report of the load.
// Then what Write refuses.
#![tactic(auto)]

ghost use Rattle.std.specs.Prelude.{◌+◌, ◌*◌, ◌≤◌, length, IfOk};
ghost use Rattle.cell.specs.Layout.{width, max_intervals};

use cell::{Cell, put_interval, put_stamp};
use cells::Address;
use details::detail::Interval;
use headers::time::Stamp;
use loader::{feed, finish};
use print::{Answer, Stop, answered, columns, ended, entries};
use reads::load;
use report::words::PER_ENTRY;
use state::fresh;
use std::io;
use writer::write;

// Two days, the first with 100 intervals, one owner, two meters: eight cells.
const REGISTRY: [u8; 157] =
    *b"\x012008110202\x02666666666    \x0310443720000000001                                               \x06\x03TX2                                                             \x06";

const WORDS: usize = 8 * Cell::WIDTH;

// Room for three records.
const TEXT: usize = 6000;

// The words that a report of it must hold, by hand as in lseload.
const REPORT: usize = PER_ENTRY * (2 + TEXT / 2);

// Meter 0, load, window day 0. In registries too: in `cells` it would serve no caller of the library.
const FIRST: Address = Address {
    meter: 0,
    channel: 0,
    day: 0,
};

fn stamp(date: u32, clock: u32) -> Stamp {
    Stamp { date, clock }
}

// Another value below 1,000 MWh; from 0 on they have all lengths.
fn next_value(v: u32) -> u32 {
    ((u64::from(v) * 7 + 3) % 1_000_000_000) as u32
}

// Loads a read of so many intervals into cell number c, every fifth one estimated.
fn put_read(table: &mut [u32], c: usize, count: usize, stamp: Stamp)
    requires { (c * width + width ≤ length table.old) × (count ≤ max_intervals) }
{
    let mut words = Cell::begun(count as u32).words;
    put_stamp(&mut words, stamp);
    let mut wh = 0;
    for i in 0..count {
        let estimated = i % 5 == 0;
        put_interval(&mut words, i, Interval { wh, estimated });
        wh = next_value(wh);
    }
    load(table, c, &words);
}

// What a cell is written as, put behind the text so far; how long the text then is. By a length beside bytes: Write puts into bytes that are lent.
fn written(
    rt: &impl Print,
    table: &[u32],
    cell: Address,
    out: &mut [u8],
    end: usize,
) -> io::Result<usize>
    requires { end ≤ length out.old }
    ensures { IfOk result (λ n. n ≤ length out.old) }
{
    let room = &mut out[end..];
    let answer = write(&REGISTRY, table, cell, b"KILNSORREL1", room);
    let length = answer.unwrap_or(0).min(room.len());
    print!(rt; "{} {} {} ", cell.meter, cell.channel, cell.day)?;
    println!(rt; "{}", Answer(answer))?;
    Ok(end + length)
}

// Loads a text in two pieces, the second from the middle of a row on. It feeds and finishes as vectors does.
fn load_text(rt: &impl Print, text: &[u8], table: &mut [u32]) -> Result<(), Stop> {
    columns(rt)?;
    let mut report = [0; REPORT];
    let mut state = fresh();
    let (front, behind) = text.split_at(text.len() / 2);
    for piece in [front, behind] {
        let count = feed(&mut state, piece, &REGISTRY, table, &mut report)?;
        entries(rt, &report, count)?;
    }
    let count = finish(&mut state, &REGISTRY, table, &mut report)?;
    entries(rt, &report, count)?;
    Ok(())
}

// Three cells: both kinds of day, both channels, both meters.
fn there_and_back(rt: &impl Print, table: &[u32]) -> io::Result<()> {
    let mut out = [0; TEXT];
    println!(rt; "meter channel day number length")?;
    let mut end = 0;
    for (meter, channel, day) in [(0, 0, 0), (0, 1, 1), (1, 0, 1)] {
        let cell = Address {
            meter,
            channel,
            day,
        };
        end = written(rt, table, cell, &mut out, end)?;
    }
    rt.write_all(&out[..end])?;
    let mut loaded = [0; WORDS];
    ended(rt, load_text(rt, &out[..end], &mut loaded))?;
    if table == &loaded[..] {
        println!(rt; "the tables are the same")
    } else {
        println!(rt; "the tables differ")
    }
}

// What Write answers, with room for a record.
fn writing(
    rt: &impl Print,
    name: &str,
    table: &[u32],
    cell: Address,
    descriptor: &[u8],
) -> io::Result<()> {
    let answer = write(&REGISTRY, table, cell, descriptor, &mut [0; TEXT]);
    answered(rt, name, answer)
}

fn refusals(rt: &impl Print, table: &[u32]) -> io::Result<()>
    requires { 1 ≤ length table.now }
{
    let early = write(&REGISTRY[..90], table, FIRST, b"D", &mut [0; TEXT]);
    answered(rt, "a registry that ends early", early)?;
    writing(rt, "a table one word short", &table[1..], FIRST, b"D")?;
    let meter = Address { meter: 2, ..FIRST };
    writing(rt, "meter 2", table, meter, b"D")?;
    let channel = Address {
        channel: 2,
        ..FIRST
    };
    writing(rt, "channel 2", table, channel, b"D")?;
    let day = Address { day: 2, ..FIRST };
    writing(rt, "day 2", table, day, b"D")?;
    let empty = Address {
        meter: 1,
        channel: 1,
        day: 0,
    };
    writing(rt, "an empty cell", table, empty, b"D")?;
    writing(rt, "a descriptor with a blank", table, FIRST, b"D 1")?;
    writing(rt, "no descriptor", table, FIRST, b"")?;
    // the record has 1,804 bytes
    let short = write(&REGISTRY, table, FIRST, b"D", &mut [0; 1803]);
    answered(rt, "an output one byte short", short)
}

fn main(rt: HostRuntime) -> io::Result<()> {
    let mut table = [0; WORDS];
    put_read(&mut table, 0, 100, stamp(20081103, 1530));
    put_read(&mut table, 3, 96, stamp(20081104, 235959));
    put_read(&mut table, 5, 96, stamp(20081105, 0));
    there_and_back(&rt, &table)?;
    refusals(&rt, &table)?;
    table[Cell::DATE] = 20080230;
    writing(&rt, "a stamp that is no date", &table, FIRST, b"D")
}
