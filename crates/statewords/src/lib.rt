// A state as a run of 32-bit words, and words as a state: so it crosses the border to C and Rust.
//
//     let s = state_in(words);            // words: &[u32; STATE_WORDS]
//     put_state(words, &next);            // words: &mut [u32; STATE_WORDS]
//
// specs/Layout.antt says which words are which part. Whatever the words hold, they are some state.
//
// No `From`: channel, unit, scan and words are types of other crates.
//
// For whoever changes it: what `put_state` writes is read back as the same state, so a part that moves, moves in both, and in `state_in` and `words_of` of
// specs/Layout.antt.
#![tactic(auto)]

ghost use Rattle.std.specs.Prelude.{◌≡◌, ◌+◌, ◌<◌, ◌≤◌, length};
ghost use Rattle.statewords.specs.Layout.{numbers_size, state_words, part_at, bytes_in, wide_in, channel_in, unit_from, state_in, number_words, unit_words, words_of};

use cell::Cell;
use cell::mark::WORD_BITS;
use headers::one::Channel;
use lines::keep::KEPT_LIMIT;
use pieces::Scan;
use records::{Parts, Progress, Ready};
use state::State;
use text::bytes::copy;
use text::names::{DUNS_SIZE, ESI_ID_SIZE};
use units::Unit;

// How many numbers a word can be.
pub const SPAN: usize = 1 << WORD_BITS;

const NUMBERS_SIZE: usize = 5;

const UNIT_SIZE: usize = 7;

// Where each part begins, behind the kept bytes.
const NUMBERS_AT: usize = KEPT_LIMIT;

const UNIT_AT: usize = NUMBERS_AT + NUMBERS_SIZE;

const ID_AT: usize = UNIT_AT + UNIT_SIZE;

const SENDER_AT: usize = ID_AT + ESI_ID_SIZE;

const WORDS_AT: usize = SENDER_AT + DUNS_SIZE;

pub const STATE_WORDS: usize = WORDS_AT + Cell::WIDTH;

// A part of a state's words.
fn part<const N: usize>(state: &[u32; STATE_WORDS], at: usize) -> &[u32; N]
    requires { at + N ≤ state_words }
    ensures { result.now ≡ part_at at N state.now }
{
    state[at..at + N].as_array().unwrap()
}

// Words that are bytes, as bytes. By a loop: `map` asks that an iterator over any N words fits in memory, and of what a closure given to `array::from_fn`
// answers nothing is known where N is a parameter.
#[tactic(auto, using(crate::proofs::Copies::get_end))]
fn get_bytes<const N: usize>(from: &[u32; N]) -> [u8; N]
    ensures { result ≡ bytes_in from.now }
{
    let mut to = [0; N];
    for (i, w) in from.iter().enumerate() {
        to[i] = (*w % 256) as u8;
    }
    to
}

// Bytes as words, a byte a word. By index, since under a `zip` no invariant can name what is written.
#[tactic(auto, using(crate::proofs::Copies::put_again, crate::proofs::Copies::put_end))]
fn put_bytes(to: &mut [u32], from: &[u8])
    requires { length to.old ≡ length from.now }
    ensures put { to.new ≡ from.now }
    ensures bytes { bytes_in from.now ≡ from.now }
{
    for (i, w) in to.iter_mut().enumerate() {
        *w = u32::from(from[i]);
    }
}

// A number of 64 bits, its low word first.
#[tactic(auto, unfolding(crate::specs::Layout::wide_in))]
fn wide_in(words: &[u32; NUMBERS_SIZE], at: usize) -> usize
    requires { at + 1 < numbers_size }
    ensures { result ≡ wide_in words.now at }
{
    // No `From` makes a `usize` of a `u32`.
    words[at] as usize + words[at + 1] as usize * SPAN
}

fn channel_in(word: u32) -> Channel
    ensures { result ≡ channel_in word }
{
    match word {
        0 => Channel::Load,
        _ => Channel::Generation,
    }
}

// Which unit it is, is told by a number: the layout is C's.
#[tactic(auto, unfolding(crate::specs::Layout::unit_from))]
fn unit_in(words: &[u32; UNIT_SIZE]) -> Unit
    ensures { result ≡ unit_from words.now }
{
    let first = words[1];
    let channel = channel_in(words[6]);
    match words[0] {
        0 => Unit::None,
        1 => {
            let p = Progress {
                read: words[2],
                due: words[3],
                day: words[4],
                channel,
            };
            Unit::Takes(first, p)
        }
        2 => {
            let r = Ready {
                meter: (words[3] % 65536) as u16,
                offset: (words[4] % 65536) as u16,
                day: words[5],
                channel,
            };
            Unit::Waits(first, words[2], r)
        }
        _ => Unit::Skips,
    }
}

// The state that words are.
#[tactic(auto, unfolding(crate::specs::Layout::state_in))]
pub fn state_in(state: &[u32; STATE_WORDS]) -> State
    ensures { result ≡ state_in state.now }
{
    let numbers = part(state, NUMBERS_AT);
    State {
        scan: Scan {
            kept: get_bytes(part(state, 0)),
            held: wide_in(numbers, 0),
            lines: numbers[4],
            unit: unit_in(part(state, UNIT_AT)),
            parts: Parts {
                id: get_bytes(part(state, ID_AT)),
                sender: get_bytes(part(state, SENDER_AT)),
                words: *part(state, WORDS_AT),
            },
        },
        taken: wide_in(numbers, 2),
    }
}

#[tactic(auto, unfolding(crate::specs::Layout::unit_from), using(crate::proofs::Parts::channel_back))]
fn unit_words(unit: Unit) -> [u32; UNIT_SIZE]
    ensures words { result ≡ unit_words unit }
    ensures back { unit_from result ≡ unit }
{
    match unit {
        Unit::None => [0, 0, 0, 0, 0, 0, 0],
        Unit::Takes(first, p) => [1, first, p.read, p.due, p.day, 0, u32::from(p.channel)],
        Unit::Waits(first, last, ready) => [
            2,
            first,
            last,
            u32::from(ready.meter),
            u32::from(ready.offset),
            ready.day,
            u32::from(ready.channel),
        ],
        Unit::Skips => [3, 0, 0, 0, 0, 0, 0],
    }
}

// The bytes held, the bytes taken and the line count.
fn number_words(held: usize, taken: usize, lines: u32) -> [u32; NUMBERS_SIZE]
    ensures { result ≡ number_words held taken lines }
{
    [
        (held % SPAN) as u32,
        (held / SPAN) as u32,
        (taken % SPAN) as u32,
        (taken / SPAN) as u32,
        lines,
    ]
}

// The words of a state, each of them, and these are that state.
pub fn put_state(state: &mut [u32; STATE_WORDS], given: &State)
    ensures words { state.new ≡ words_of given.now }
    ensures back { state_in state.new ≡ given.now }
{
    let scan = &given.scan;
    let parts = &scan.parts;
    let numbers = number_words(scan.held, given.taken, scan.lines);
    let unit = unit_words(scan.unit);
    put_bytes(&mut state[..NUMBERS_AT], &scan.kept);
    copy(&mut state[NUMBERS_AT..UNIT_AT], &numbers);
    copy(&mut state[UNIT_AT..ID_AT], &unit);
    put_bytes(&mut state[ID_AT..SENDER_AT], &parts.id);
    put_bytes(&mut state[SENDER_AT..WORDS_AT], &parts.sender);
    copy(&mut state[WORDS_AT..], &parts.words);
}
