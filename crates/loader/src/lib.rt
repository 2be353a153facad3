// The calls feed and finish; `fresh` is state's.
//
//     let mut state = fresh();
//     let count = feed(&mut state, piece, registry, &mut table, &mut report)?;     // for each piece of the file
//     let count = finish(&mut state, registry, &mut table, &mut report)?;
//
// A call tells how many entries it wrote into the report, from place 0 on, or why it was refused; a refusal writes nothing and changes nothing. A report
// is a run of entries, or of words, five an entry (`slot`). What a list of calls does is claims/specs/Claims.antt.
//
// For whoever changes it: `feed` counts bytes and entries, and passes all else on. What is refused is state's `admit`, the work is in pieces' `read_lines` and
// batches' `end_file`, over words and not over entries; `Slot::put` puts a batch into the report. The laws that their proofs cite are proofs/Batching.antt's.
// State, registry, table and report are C's parameters, in its order.
#![tactic(auto)]

ghost use Rattle.plain.specs.Call.{feed as asks_feed, finish as asks_finish};
ghost use Rattle.loader.specs.Keeps.{Keeps};

pub mod slot;

use batches::end_file;
use pieces::run::read_lines;
use registry::Index;
use report::refusal::Refusal;
use slot::Slot;
use state::refuse::admit;
use state::{State, fresh};

pub fn feed<T: Slot>(
    state: &mut State,
    piece: &[u8],
    registry: &[u8],
    table: &mut [u32],
    report: &mut [T],
) -> Result<usize, Refusal>
    ensures { Keeps T.entries T.behind registry.now state.old table.old (asks_feed piece.now) report.old result state.new table.new report.new }
{
    let index = &mut Index::of(registry);
    admit(state, index, table.len(), T::room(report), piece.len())?;
    state.taken += piece.len();
    let mut at: usize = 0;
    let mut count: usize = 0;
    while at < piece.len() {
        let (next, batch) = read_lines(&mut state.scan, piece, at, index, table);
        T::put(report, count, &batch);
        at = next;
        count += batch.count();
    }
    Ok(count)
}

pub fn finish<T: Slot>(
    state: &mut State,
    registry: &[u8],
    table: &mut [u32],
    report: &mut [T],
) -> Result<usize, Refusal>
    ensures { Keeps T.entries T.behind registry.now state.old table.old asks_finish report.old result state.new table.new report.new }
{
    let index = &Index::of(registry);
    admit(state, index, table.len(), T::room(report), 0)?;
    let batch = end_file(&mut state.scan, index, table);
    T::put(report, 0, &batch);
    *state = fresh();
    Ok(batch.count())
}
