// Write: one sound cell as a record, to be sent or loaded elsewhere.
//
//     let length = write(registry, table, Address { meter, channel, day }, descriptor, output)?;   // each from 0; load is channel 0, generation 1
//     output[..length] ..
//
// A refusal is document 01's 2, 3, 6, 7, 8, 9 or 10, and the output is as it was.
//
// For whoever changes it: the record's rows are specs/Record.antt, over rowtext/specs/Text.antt. It is put together in bytes of the call's own, so
// its length is known before a byte of the output changes.
#![tactic(auto)]

ghost use Rattle.std.specs.Prelude.{◌≡◌, true, ◌++◌, ◌<◌, ◌≤◌, ◌+◌, ◌*◌, length, get_or};
ghost use Rattle.report.specs.Outcome.{passed, answers};
ghost use Rattle.details.specs.Detail.{per_row};
ghost use Rattle.cell.specs.Layout.{count_at, max_intervals};
ghost use Rattle.reads.specs.Sound.{is_value, values_of};
ghost use Rattle.text.specs.Byte.{every};
ghost use Rattle.lines.specs.Text.{rows};
ghost use Rattle.writer.specs.Record.{row_of, detail_lines, record_text, cell_text};
ghost use Rattle.writer.specs.Private.{Writable};
ghost use Rattle.report.specs.Output.{output_with};
ghost use Rattle.writer.specs.Write.{Fits, fitting, writes, length_of};

use calendar::date_of;
use cell::{Cell, Words, interval_in, stamp_in};
use cells::{Address, find_sound};
use details::detail::{PER_ROW, Row};
use digits::Text;
use padded::padding::unpadded;
use registry::Index;
use report::refusal::Refusal;
use report::require;
use rowtext::detail::put_detail;
use rowtext::rows::{put_four, put_one, put_thirty, put_three, put_two};
use std::array::from_fn;
use text::bytes::copy;
use text::names::is_descriptor;

// The longest record.
const RECORD_LIMIT: usize = 2000;

// The intervals of detail row k, from 0, of a cell.
fn row_of(words: &Words, k: u32) -> Row
    requires { k * per_row + per_row ≤ max_intervals }
    ensures { result ≡ row_of words.now k }
{
    let at = (k * PER_ROW) as usize;
    from_fn(|i| interval_in(words, at + i))
}

// Puts the first n detail rows of a cell.
fn put_details<const N: usize>(text: &mut Text<N>, words: &Words, n: u32)
    requires words { (n * per_row ≤ max_intervals) × (every is_value (values_of words.now) ≡ true) }
    requires room { length text.old + length (rows (detail_lines n words.now)) ≤ N }
    ensures { text.new ≡ text.old ++ rows (detail_lines n words.now) }
{
    for k in 0..n {
        put_detail(text, k, &row_of(words, k));
    }
}

// Puts a record.
#[tactic(auto, using(crate::proofs::Records::record_parts))]
fn put_record<const N: usize>(
    text: &mut Text<N>,
    id: &[u8],
    owner: &[u8],
    channel: usize,
    date: u32,
    descriptor: &[u8],
    words: &Words,
)
    requires words { (get_or words.now count_at 0 ≤ max_intervals) × (every is_value (values_of words.now) ≡ true) }
    requires room { length text.old + length (record_text id.now owner.now channel date descriptor.now words.now) ≤ N }
    ensures { text.new ≡ text.old ++ record_text id.now owner.now channel date descriptor.now words.now }
{
    put_one(text, id, channel, date);
    put_two(text);
    put_three(text, descriptor);
    put_four(text, stamp_in(words));
    put_thirty(text, owner);
    put_details(text, words, words[Cell::COUNT] / PER_ROW);
}

// The record's bytes, put out if there is room.
fn put_out(output: &mut [u8], bytes: &[u8]) -> Result<usize, Refusal>
    ensures answer { answers result ≡ length_of (fitting output.old (passed bytes.now)) }
    ensures bytes { output.new ≡ output_with output.old (fitting output.old (passed bytes.now)) }
{
    let n = bytes.len();
    require(n <= output.len(), Refusal::ShortOutput)?;
    copy(&mut output[..n], bytes);
    Ok(n)
}

// The record of a sound cell.
fn write_cell(
    index: &Index<'_>,
    at: Address,
    descriptor: &[u8],
    words: &Words,
    output: &mut [u8],
) -> Result<usize, Refusal>
    requires { Writable index.now.registry.now at.meter at.day descriptor.now words.now }
    ensures answer { answers result ≡ length_of (fitting output.old (passed (cell_text index.now.registry.now at.meter at.channel at.day descriptor.now words.now))) }
    ensures bytes { output.new ≡ output_with output.old (fitting output.old (passed (cell_text index.now.registry.now at.meter at.channel at.day descriptor.now words.now))) }
{
    let id = unpadded(index.id_of(at.meter));
    let owner = unpadded(index.owner_of(at.meter));
    let date = date_of(index.window().first + at.day as u32);
    let mut text = Text::<RECORD_LIMIT>::new();
    put_record(&mut text, id, owner, at.channel, date, descriptor, words);
    put_out(output, text.bytes())
}

// What `write` answers, by the registry's index. A call of its own, so that the index stays where it was made.
#[inline(never)]
fn write_from(
    index: &Index<'_>,
    table: &[u32],
    at: Address,
    descriptor: &[u8],
    output: &mut [u8],
) -> Result<usize, Refusal>
    ensures answer { answers result ≡ length_of (writes index.now.registry.now table.now at.meter at.channel at.day descriptor.now output.old) }
    ensures bytes { output.new ≡ output_with output.old (writes index.now.registry.now table.now at.meter at.channel at.day descriptor.now output.old) }
{
    let words = find_sound(index, table, at)?;
    require(is_descriptor(descriptor), Refusal::BadDescriptor)?;
    write_cell(index, at, descriptor, words, output)
}

pub fn write(
    registry: &[u8],
    table: &[u32],
    at: Address,
    descriptor: &[u8],
    output: &mut [u8],
) -> Result<usize, Refusal>
    ensures answer { answers result ≡ length_of (writes registry.now table.now at.meter at.channel at.day descriptor.now output.old) }
    ensures bytes { output.new ≡ output_with output.old (writes registry.now table.now at.meter at.channel at.day descriptor.now output.old) }
    ensures words { Fits table.now }
{
    let index = Index::of(registry);
    write_from(&index, table, at, descriptor, output)
}
