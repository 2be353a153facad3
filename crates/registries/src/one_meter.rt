// Cells, sound and not, of a registry of one day, one owner and one meter.
ghost use Rattle.std.specs.Prelude.{◌<◌};

use crate::FIRST;
use cell::Cell;
use cells::Address;
use estimates::estimates;
use print::{answered, heading};
use std::io;

const REGISTRY: [u8; 91] =
    *b"\x012008051001\x02666666666    \x03100000000000000                                                 \x06";

const TABLE: usize = 2 * Cell::WIDTH;

fn cell_at(rt: &impl Print, name: &str, table: &[u32], at: Address) -> io::Result<()> {
    answered(rt, name, estimates(&REGISTRY, table, at))
}

fn cell(rt: &impl Print, name: &str, table: &[u32]) -> io::Result<()> {
    cell_at(rt, name, table, FIRST)
}

// A cell with its count and stamp.
fn begun(count: u32, date: u32, clock: u32) -> [u32; TABLE] {
    let mut table = [0; TABLE];
    table[Cell::COUNT] = count;
    table[Cell::DATE] = date;
    table[Cell::CLOCK] = clock;
    table
}

fn sound_cells(rt: &impl Print) -> io::Result<()> {
    let mut table = begun(96, 20080511, 220000);
    cell(rt, "a sound cell, no estimate", &table)?;
    table[Cell::MARKS] = 0x80000001;
    table[Cell::MARKS + 2] = 0xf0000000;
    cell(rt, "intervals 0, 31 and 92 to 95 estimated", &table)?;
    table[Cell::VALUES + 95] = 999999999;
    cell(rt, "the largest value in the last interval", &table)
}

// A table of a sound cell, asked for others.
fn other_cells(rt: &impl Print) -> io::Result<()> {
    let table = begun(96, 20080511, 220000);
    let empty = Address {
        channel: 1,
        ..FIRST
    };
    cell_at(rt, "the other channel is empty", &table, empty)?;
    cell_at(
        rt,
        "channel 2",
        &table,
        Address {
            channel: 2,
            ..FIRST
        },
    )?;
    cell_at(rt, "meter 1", &table, Address { meter: 1, ..FIRST })?;
    cell_at(rt, "day 1", &table, Address { day: 1, ..FIRST })?;
    cell(rt, "a table one word short", &[0; TABLE - 1])
}

// A cell of which one more word is not 0.
fn with_word(place: usize, word: u32) -> [u32; TABLE]
    requires { place < TABLE }
{
    let mut table = begun(96, 20080511, 220000);
    table[place] = word;
    table
}

fn unsound_cells(rt: &impl Print) -> io::Result<()> {
    cell(rt, "count of another day", &begun(92, 20080511, 220000))?;
    cell(rt, "stamp no real date", &begun(96, 20090229, 220000))?;
    cell(rt, "stamp no real time", &begun(96, 20080511, 240000))?;
    let value = with_word(Cell::VALUES + 3, 1000000000);
    cell(rt, "a value over 999,999,999", &value)?;
    let behind = with_word(Cell::VALUES + 96, 1);
    cell(rt, "a value past the count", &behind)?;
    let mark = with_word(Cell::MARKS + 3, 1);
    cell(rt, "a mark past the count", &mark)
}

pub fn cells(rt: &impl Print) -> io::Result<()> {
    heading(rt, "cells of one meter on 20080510")?;
    sound_cells(rt)?;
    other_cells(rt)?;
    heading(rt, "cells that are not sound")?;
    unsound_cells(rt)
}
