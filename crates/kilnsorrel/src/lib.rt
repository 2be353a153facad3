// The calls for programs in C or Rust, as a static library. include/kilnsorrel.h declares them, bench/ has a safe wrapper.
//
//     uint32_t state[KILNSORREL_STATE_WORDS];
//     kilnsorrel_fresh(state, KILNSORREL_STATE_WORDS);
//     uint64_t answer = kilnsorrel_feed(state, KILNSORREL_STATE_WORDS, piece, n, registry, r, table, t, report, w);
//     uint32_t number = answer >> 32;              // 0 done, else document 01's refusal
//     uint32_t entries = (uint32_t)answer;         // five words of the report for each
//
// A report is a run of words, or in kilnsorrel_feed_entries and kilnsorrel_finish_entries one of entries.
//
// For whoever changes it: each call is that of crate border, under a name for C; proofs/Exports.antt says that its contract is the very one.
#![tactic(auto)]

ghost use Rattle.std.specs.Prelude.{◌≡◌, length};
ghost use Rattle.estimates.specs.Estimates.{estimates_of};
ghost use Rattle.report.specs.Output.{output_with};
ghost use Rattle.writer.specs.Write.{Fits, writes, length_of};
ghost use Rattle.plain.specs.Call.{feed as asks_feed, finish as asks_finish};
ghost use Rattle.report.specs.Words.{itself, report_in};
ghost use Rattle.loader.specs.Report.{left, words_left};
ghost use Rattle.page.specs.Page.{pages_in, paged};
ghost use Rattle.border.specs.Border.{Packs, Freshens, Call};

use report::Entry;

#[unsafe(no_mangle)]
pub extern "C" fn kilnsorrel_fresh(state: &mut [u32]) -> u64
    ensures { Freshens state.old state.new result }
{
    border::fresh(state)
}

#[unsafe(no_mangle)]
pub extern "C" fn kilnsorrel_feed(
    state: &mut [u32],
    piece: &[u8],
    registry: &[u8],
    table: &mut [u32],
    report: &mut [u32],
) -> u64
    ensures { Call report_in words_left registry.now (asks_feed piece.now) state.old state.new table.old table.new report.old report.new result }
{
    border::feed(state, piece, registry, table, report)
}

#[unsafe(no_mangle)]
pub extern "C" fn kilnsorrel_feed_entries(
    state: &mut [u32],
    piece: &[u8],
    registry: &[u8],
    table: &mut [u32],
    report: &mut [Entry],
) -> u64
    ensures { Call itself left registry.now (asks_feed piece.now) state.old state.new table.old table.new report.old report.new result }
{
    border::feed_entries(state, piece, registry, table, report)
}

#[unsafe(no_mangle)]
pub extern "C" fn kilnsorrel_finish(
    state: &mut [u32],
    registry: &[u8],
    table: &mut [u32],
    report: &mut [u32],
) -> u64
    ensures { Call report_in words_left registry.now asks_finish state.old state.new table.old table.new report.old report.new result }
{
    border::finish(state, registry, table, report)
}

#[unsafe(no_mangle)]
pub extern "C" fn kilnsorrel_finish_entries(
    state: &mut [u32],
    registry: &[u8],
    table: &mut [u32],
    report: &mut [Entry],
) -> u64
    ensures { Call itself left registry.now asks_finish state.old state.new table.old table.new report.old report.new result }
{
    border::finish_entries(state, registry, table, report)
}

#[unsafe(no_mangle)]
pub extern "C" fn kilnsorrel_estimates(
    registry: &[u8],
    table: &[u32],
    meter: usize,
    channel: usize,
    day: usize,
) -> u64
    ensures { Packs (estimates_of registry.now table.now meter channel day) result }
{
    border::estimates(registry, table, meter, channel, day)
}

#[unsafe(no_mangle)]
pub extern "C" fn kilnsorrel_write(
    registry: &[u8],
    table: &[u32],
    meter: usize,
    channel: usize,
    day: usize,
    descriptor: &[u8],
    output: &mut [u8],
) -> u64
    ensures answer { Packs (length_of (writes registry.now table.now meter channel day descriptor.now output.old)) result }
    ensures bytes { output.new ≡ output_with output.old (writes registry.now table.now meter channel day descriptor.now output.old) }
    ensures words { Fits table.now }
{
    border::write(registry, table, meter, channel, day, descriptor, output)
}

#[unsafe(no_mangle)]
pub extern "C" fn kilnsorrel_page(report: &[u32], output: &mut [u8]) -> u64
    ensures answer { Packs (pages_in (report_in report.now) (length output.old)) result }
    ensures bytes { output.new ≡ output_with output.old (paged (report_in report.now) (length output.old)) }
{
    border::page(report, output)
}
