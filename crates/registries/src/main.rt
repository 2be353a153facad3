// Registries, good and bad, and cells, sound and not: what Estimates answers of meter 0, load, on window day 0.
#![tactic(auto)]

mod one_meter;

use cell::Cell;
use cells::{Address, CHANNELS};
use estimates::estimates;
use print::{answered, heading};
use std::io;

// Room for the cells of each registry here: two meters and 62 days at most.
const TABLE: usize = 2 * CHANNELS * 62 * Cell::WIDTH;

// Meter 0, load, window day 0. In reexport too: in `cells` it would serve no caller of the library.
const FIRST: Address = Address {
    meter: 0,
    channel: 0,
    day: 0,
};

fn registry(rt: &impl Print, name: &str, bytes: &[u8]) -> io::Result<()> {
    answered(rt, name, estimates(bytes, &[0; TABLE], FIRST))
}

fn good_registries(rt: &impl Print) -> io::Result<()> {
    heading(
        rt,
        "good registries; without a cell, 6; with an empty one, 7",
    )?;
    registry(
        rt,
        "window, owner, meter",
        b"\x012008051001\x02666666666    \x03100000000000000                                                 \x06",
    )?;
    registry(rt, "window alone: no meters, no cells", b"\x012008051001")?;
    registry(
        rt,
        "owners without meters, and the same owner again",
        b"\x012008051001\x02666666666    \x021234567890123\x02666666666    ",
    )?;
    registry(
        rt,
        "two meters in order, one upper case, one lower",
        b"\x012008051001\x02666666666    \x03ABC                                                             \x07\x03abc                                                             \x00",
    )?;
    registry(
        rt,
        "62 days, the last of them 20991231",
        b"\x012099103162\x02666666666    \x03100000000000000                                                 \x06",
    )
}

fn windows(rt: &impl Print) -> io::Result<()> {
    heading(rt, "windows that break a rule")?;
    registry(rt, "empty", b"")?;
    registry(
        rt,
        "no window",
        b"\x02666666666    \x03100000000000000                                                 \x06",
    )?;
    registry(rt, "window twice", b"\x012008051001\x012008051001")?;
    registry(
        rt,
        "window after an owner",
        b"\x02666666666    \x012008051001",
    )?;
    registry(
        rt,
        "00 days",
        b"\x012008051000\x02666666666    \x03100000000000000                                                 \x06",
    )?;
    registry(
        rt,
        "63 days",
        b"\x012008051063\x02666666666    \x03100000000000000                                                 \x06",
    )?;
    registry(rt, "ends past 20991231", b"\x012099123102")?;
    registry(rt, "no real date", b"\x012009022901")?;
    registry(rt, "year 2006", b"\x012006123101")?;
    registry(rt, "a letter in the window", b"\x0120080510 1")
}

fn entries(rt: &impl Print) -> io::Result<()> {
    heading(rt, "entries that break a rule")?;
    registry(rt, "unknown kind", b"\x012008051001\x04666666666    ")?;
    registry(rt, "owner of 10 digits", b"\x012008051001\x021234567890   ")?;
    registry(
        rt,
        "meter before any owner",
        b"\x012008051001\x03100000000000000                                                 \x06",
    )?;
    registry(
        rt,
        "flags over 7",
        b"\x012008051001\x02666666666    \x03100000000000000                                                 \x08",
    )?;
    registry(
        rt,
        "ESI ID of spaces",
        b"\x012008051001\x02666666666    \x03                                                                \x06",
    )?;
    registry(
        rt,
        "a space inside an ESI ID",
        b"\x012008051001\x02666666666    \x0310 1                                                            \x06",
    )?;
    registry(
        rt,
        "equal ESI IDs",
        b"\x012008051001\x02666666666    \x03100000000000000                                                 \x06\x03100000000000000                                                 \x06",
    )?;
    registry(
        rt,
        "ESI IDs not in order",
        b"\x012008051001\x02666666666    \x03abc                                                             \x06\x03ABC                                                             \x06",
    )?;
    registry(
        rt,
        "cut off in its last entry",
        b"\x012008051001\x02666666666    \x03100000000000000                                                 ",
    )
}

fn main(rt: HostRuntime) -> io::Result<()> {
    good_registries(&rt)?;
    windows(&rt)?;
    entries(&rt)?;
    one_meter::cells(&rt)
}
