// What is kept between calls, and what a call asks of it first.
//
//     let mut state = fresh();
//     admit(&state, &Index::of(registry), table.len(), room, piece.len())?;     // why the call is refused, if it is
//
// A state is plain data. Any values of the fields are some state; refusal 1 is of those that hold more than a file can leave behind. What a state is in
// the plain loader's terms is specs/View.antt, what a call returns is specs/Refused.antt.
//
// For whoever changes it: `admit` gets the registry as its index, and the table, report and piece as their lengths, so that the calls that hold these have
// nothing to say of refusals themselves. It does not give the index back: that would move it, 16 KB, once a call.
#![tactic(auto)]

ghost use Rattle.std.specs.Prelude.{◌≡◌};
ghost use Rattle.state.specs.Fresh.{fresh_state};

pub mod refuse;

use cell::Cell;
use lines::keep::KEPT_LIMIT;
use pieces::Scan;
use records::Parts;
use text::names::{DUNS_SIZE, ESI_ID_SIZE};
use units::Unit;

// The most bytes that are taken before a finish.
pub const BYTE_LIMIT: usize = 200_000_000;

// What is kept between calls: as far as the file was read, and how many bytes were taken.
#[derive(Clone, Copy)]
pub struct State {
    pub scan: Scan,
    pub taken: usize,
}

// The state before a file's first byte.
#[tactic(auto, unfolding(crate::specs::Fresh::fresh_state))]
pub fn fresh() -> State
    ensures { result ≡ fresh_state }
{
    let words = Cell::cleared().words;
    State {
        scan: Scan {
            kept: [0; KEPT_LIMIT],
            held: 0,
            lines: 0,
            unit: Unit::None,
            parts: Parts {
                id: [b' '; ESI_ID_SIZE],
                sender: [b' '; DUNS_SIZE],
                words,
            },
        },
        taken: 0,
    }
}
