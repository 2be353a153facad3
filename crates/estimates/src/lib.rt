// Estimates: how many intervals of one cell are estimated.
//
//     let count = estimates(registry, table, Address { meter, channel, day })?;   // each from 0; load is channel 0, generation 1
//
// A refusal is document 01's 2, 3, 6, 7 or 8.
#![tactic(auto)]

ghost use Rattle.std.specs.Prelude.{◌≡◌};
ghost use Rattle.report.specs.Outcome.{answers};
ghost use Rattle.estimates.specs.Estimates.{estimates_of};

use cells::{Address, sound_cell};
use reads::sound::count_marks;
use report::refusal::Refusal;

pub fn estimates(registry: &[u8], table: &[u32], at: Address) -> Result<u32, Refusal>
    ensures { answers result ≡ estimates_of registry.now table.now at.meter at.channel at.day }
{
    let words = sound_cell(registry, table, at)?;
    Ok(count_marks(words))
}
