// The cells of a registry: how many there are, the number of one, and the cell at an address in the stages that calls ask for: registry and table (2, 3),
// address (6), held (7), sound (8), each a function that the next one stands on. A cell that is found is that part of the table.
//
// For whoever changes it: `cell_number` is the only place that knows the order of the cells; others go by its laws (proofs/Numbers.antt):
// below the number of cells, and no two addresses alike.
#![tactic(auto)]

ghost use Rattle.std.specs.Prelude.{◌≡◌, ◌+◌, ◌*◌, ◌<◌, ◌≤◌};
ghost use Rattle.report.specs.Outcome.{answers};
ghost use Rattle.registry.specs.Registry.{max_meters, is_registry};
ghost use Rattle.registry.specs.Entry.{max_days};
ghost use Rattle.cells.specs.Number.{channels, cell_count, cell_number};
ghost use Rattle.cells.specs.Address.{cells_of, Sizes, Among};
ghost use Rattle.cells.specs.Sound.{for_table, cell_for, held_cell, sound_cell, cell_says};

use calendar::intervals_of;
use cell::{Cell, Words};
use reads::sound::is_sound;
use reads::{cell_at, holds_none};
use registry::Index;
use report::refusal::Refusal;
use report::require;

pub const CHANNELS: usize = 2;

// A cell's meter, channel and window day, each from 0. The channel is a number, since C gives one, and 6 for what is none comes behind 2 and 3.
#[derive(Clone, Copy, Debug, PartialEq, Eq)]
pub struct Address {
    pub meter: usize,
    pub channel: usize,
    pub day: usize,
}

pub fn cell_count(meters: usize, days: usize) -> usize
    requires { Sizes meters days }
    ensures { (result ≡ cell_count meters days) × (result ≤ max_meters * channels * max_days) }
{
    meters * CHANNELS * days
}

// The number of the cell at an address.
pub fn cell_number(meters: usize, days: usize, at: Address) -> usize
    requires sizes { Sizes meters days }
    requires among { Among meters days at.meter at.channel at.day }
    ensures { (result ≡ cell_number meters days at.meter at.channel at.day) × (result < cell_count meters days) }
{
    (at.meter * CHANNELS + at.channel) * days + at.day
}

// 2 and 3: whether a registry breaks no rule, and a table of so many words has room for its cells.
pub fn for_table(index: &Index<'_>, size: usize) -> Result<(), Refusal>
    ensures { answers result ≡ for_table (is_registry index.now.registry.now) (cells_of index.now.registry.now) size }
{
    require(index.is_sound(), Refusal::BadRegistry)?;
    let cells = cell_count(index.meters(), index.window().days as usize);
    require(cells * Cell::WIDTH <= size, Refusal::ShortTable)
}

// 6: the cell at an address. Index, table and address go on through 7 and 8, each of which calls the one before; a struct of them would be made for one call.
pub fn find_cell<'a>(index: &Index<'_>, table: &'a [u32], at: Address) -> Result<&'a Words, Refusal>
    ensures { cell_says result ≡ cell_for index.now.registry.now table.now at.meter at.channel at.day }
{
    for_table(index, table.len())?;
    let meters = index.meters();
    let days = index.window().days as usize;
    let is_address = (at.meter < meters) & (at.channel < CHANNELS) & (at.day < days);
    require(is_address, Refusal::NoCell)?;
    Ok(cell_at(table, cell_number(meters, days, at)))
}

// 7: and it holds a read.
pub fn find_held<'a>(index: &Index<'_>, table: &'a [u32], at: Address) -> Result<&'a Words, Refusal>
    ensures { cell_says result ≡ held_cell index.now.registry.now table.now at.meter at.channel at.day }
{
    let words = find_cell(index, table, at)?;
    require(!holds_none(words), Refusal::EmptyCell)?;
    Ok(words)
}

// 8: and the read is sound for its window day.
pub fn find_sound<'a>(
    index: &Index<'_>,
    table: &'a [u32],
    at: Address,
) -> Result<&'a Words, Refusal>
    ensures { cell_says result ≡ sound_cell index.now.registry.now table.now at.meter at.channel at.day }
{
    let words = find_held(index, table, at)?;
    let intervals = intervals_of(index.window().first + at.day as u32);
    require(is_sound(words, intervals), Refusal::UnsoundCell)?;
    Ok(words)
}

// The sound cell at an address, for a caller that has no index.
pub fn sound_cell<'a>(registry: &[u8], table: &'a [u32], at: Address) -> Result<&'a Words, Refusal>
    ensures { cell_says result ≡ sound_cell registry.now table.now at.meter at.channel at.day }
{
    let index = Index::of(registry);
    find_sound(&index, table, at)
}
