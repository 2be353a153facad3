// The calls on numbers and slices, as programs in C and Rust make them: crate kilnsorrel exports them.
//
//     let mut words = [0; STATE_WORDS];
//     fresh(&mut words);
//     let answer = feed(&mut words, piece, registry, &mut table, &mut report);
//     let number = answer >> 32;                   // 0 done, else document 01's refusal
//     let entries = answer as u32;                 // five words of the report for each
//
// A report is a run of words, or in feed_entries and finish_entries one of entries; each pair is one function, over `loader::slot`.
//
// For whoever changes it: a state crosses the border as words, by statewords/specs/Layout.antt; whatever they hold, they are some state. A run of another
// length is refused 1. What the calls do is loader's, estimates' and writer's; here is only how it is asked and answered.
#![tactic(auto)]

ghost use Rattle.std.specs.Prelude.{◌≡◌, ◌^◌, ◌<◌, ℕ, IfOk, length};
ghost use Rattle.report.specs.Outcome.{answers};
ghost use Rattle.cell.specs.Layout.{word_bits};
ghost use Rattle.estimates.specs.Estimates.{estimates_of};
ghost use Rattle.report.specs.Output.{output_with};
ghost use Rattle.writer.specs.Write.{Fits, writes, length_of};
ghost use Rattle.plain.specs.Call.{feed as asks_feed, finish as asks_finish};
ghost use Rattle.loader.specs.Keeps.{Keeps};
ghost use Rattle.report.specs.Words.{itself, report_in};
ghost use Rattle.loader.specs.Report.{left, words_left};
ghost use Rattle.page.specs.Page.{pages_in, paged};
ghost use Rattle.border.specs.Border.{Packs, Freshens, Call};
ghost use Rattle.border.specs.Private.{asked_of};

use cells::Address;
use loader::slot::Slot;
use report::Entry;
use report::refusal::Refusal;
use state::State;
use statewords::{SPAN, put_state, state_in};

// The refusal's number in the high half, or the count or length in the low one.
fn packed(answer: Result<usize, Refusal>) -> u64
    requires { IfOk answer (λ n. n < 2 ^ word_bits) }
    ensures { Packs (answers answer) result }
{
    match answer {
        Ok(n) => n as u64,
        Err(refusal) => u64::from(u32::from(refusal)) * SPAN as u64,
    }
}

pub fn fresh(state: &mut [u32]) -> u64
    ensures { Freshens state.old state.new result }
{
    let Some(state) = state.as_mut_array() else {
        return packed(Err(Refusal::BadState));
    };
    put_state(state, &state::fresh());
    packed(Ok(0))
}

// A feed of a piece, or a finish. An Option tells which, and no closure does: a closure's contract would say `Keeps` of both.
fn answer<T: Slot>(
    state: &mut State,
    piece: Option<&[u8]>,
    registry: &[u8],
    table: &mut [u32],
    report: &mut [T],
) -> Result<usize, Refusal>
    ensures { Keeps T.entries T.behind registry.now state.old table.old (asked_of piece.entry) report.old result state.new table.new report.new }
{
    match piece {
        Some(piece) => loader::feed(state, piece, registry, table, report),
        None => loader::finish(state, registry, table, report),
    }
}

// The same on the words of a state. A refusal leaves the very words.
fn called<T: Slot>(
    state: &mut [u32],
    piece: Option<&[u8]>,
    registry: &[u8],
    table: &mut [u32],
    report: &mut [T],
) -> Result<usize, Refusal>
    ensures few { IfOk result (λ n. n < 2 ^ word_bits) }
    ensures call { (r : ℕ) → Packs (answers result) r
        → Call T.entries T.behind registry.now (asked_of piece.entry) state.old state.new table.old table.new report.old report.new r }
{
    let words = state.as_mut_array().ok_or(Refusal::BadState)?;
    let mut given = state_in(words);
    let count = answer(&mut given, piece, registry, table, report)?;
    put_state(words, &given);
    Ok(count)
}

pub fn feed(
    state: &mut [u32],
    piece: &[u8],
    registry: &[u8],
    table: &mut [u32],
    report: &mut [u32],
) -> u64
    ensures { Call report_in words_left registry.now (asks_feed piece.now) state.old state.new table.old table.new report.old report.new result }
{
    packed(called::<u32>(state, Some(piece), registry, table, report))
}

pub fn feed_entries(
    state: &mut [u32],
    piece: &[u8],
    registry: &[u8],
    table: &mut [u32],
    report: &mut [Entry],
) -> u64
    ensures { Call itself left registry.now (asks_feed piece.now) state.old state.new table.old table.new report.old report.new result }
{
    packed(called::<Entry>(state, Some(piece), registry, table, report))
}

pub fn finish(state: &mut [u32], registry: &[u8], table: &mut [u32], report: &mut [u32]) -> u64
    ensures { Call report_in words_left registry.now asks_finish state.old state.new table.old table.new report.old report.new result }
{
    packed(called::<u32>(state, None, registry, table, report))
}

pub fn finish_entries(
    state: &mut [u32],
    registry: &[u8],
    table: &mut [u32],
    report: &mut [Entry],
) -> u64
    ensures { Call itself left registry.now asks_finish state.old state.new table.old table.new report.old report.new result }
{
    packed(called::<Entry>(state, None, registry, table, report))
}

// How many intervals of a cell are estimated. Meter, channel and window day are from 0.
pub fn estimates(registry: &[u8], table: &[u32], meter: usize, channel: usize, day: usize) -> u64
    ensures { Packs (estimates_of registry.now table.now meter channel day) result }
{
    let at = Address {
        meter,
        channel,
        day,
    };
    packed(estimates::estimates(registry, table, at).map(|n| n as usize))
}

// A sound cell as a record, from place 0 of the output on.
pub fn write(
    registry: &[u8],
    table: &[u32],
    meter: usize,
    channel: usize,
    day: usize,
    descriptor: &[u8],
    output: &mut [u8],
) -> u64
    ensures answer { Packs (length_of (writes registry.now table.now meter channel day descriptor.now output.old)) result }
    ensures bytes { output.new ≡ output_with output.old (writes registry.now table.now meter channel day descriptor.now output.old) }
    ensures words { Fits table.now }
{
    let at = Address {
        meter,
        channel,
        day,
    };
    packed(writer::write(registry, table, at, descriptor, output))
}

// A report's entries on pages, from place 0 of the output on.
pub fn page(report: &[u32], output: &mut [u8]) -> u64
    ensures answer { Packs (pages_in (report_in report.now) (length output.old)) result }
    ensures bytes { output.new ≡ output_with output.old (paged (report_in report.now) (length output.old)) }
{
    packed(page::page::<u32>(report, output))
}
