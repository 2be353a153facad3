// One entry of the registry: what stands at its beginning, and at a later place.
ghost use Rattle.std.specs.Prelude.{◌≡◌, ◌+◌, ◌<◌, Some, None, cond, length, take, drop};
ghost use Rattle.registry.specs.Entry.{is_window, window_of, is_meter, start_of, entry_kind};

use calendar::{DATE_SIZE, LAST_DAY, day_number};
use padded::padding::{is_padded_duns, is_padded_esi_id};
use text::bytes::all_digits;
use text::names::{DUNS_SIZE, ESI_ID_SIZE};
use text::numbers::number_of;

// The bytes of each kind's body, behind the kind byte.
pub const WINDOW_SIZE: usize = DATE_SIZE + 2;

pub const OWNER_SIZE: usize = DUNS_SIZE;

pub const METER_SIZE: usize = ESI_ID_SIZE + 1;

// The kinds are the registry's own bytes.
const WINDOW_KIND: u8 = 1;

const OWNER_KIND: u8 = 2;

const METER_KIND: u8 = 3;

const MAX_DAYS: u32 = 62;

// The sum of all flags.
const ALL_FLAGS: u8 = 7;

// The days of the window: the first one's number, and how many.
#[derive(Clone, Copy, Debug, PartialEq, Eq)]
pub struct Window {
    pub first: u32,
    pub days: u32,
}

// What stands at a later place of it.
#[derive(Clone, Copy, Debug, PartialEq, Eq)]
pub enum Kind {
    Owner,
    Meter,
}

// The first `size` bytes behind the kind byte of the entry at a place.
pub fn bytes_at(registry: &[u8], place: usize, size: usize) -> &[u8]
    requires { place + size < length registry.now }
    ensures { (result.now ≡ take size (drop (place + 1) registry.now)) × (length result.now ≡ size) }
{
    let start = place + 1;
    &registry[start..start + size]
}

// The same as an array, where the size is a constant.
pub fn text_at<const N: usize>(registry: &[u8], place: usize) -> &[u8; N]
    requires { place + N < length registry.now }
    ensures { result.now ≡ take N (drop (place + 1) registry.now) }
{
    bytes_at(registry, place, N).as_array().unwrap()
}

// The window of a first entry, if its body is a right one. A call of its own: inlined, it moves the walk over the entries behind it, which was a fifth slower
// where it then lay.
#[inline(never)]
fn read_window(body: &[u8; WINDOW_SIZE]) -> Option<Window>
    ensures { result ≡ cond (is_window body.now) (Some (window_of body.now)) None }
{
    if !all_digits(body) {
        return None;
    }
    let date = number_of(&body[..DATE_SIZE]);
    let days = number_of(&body[DATE_SIZE..]);
    let first = day_number(date)?;
    let fits = (1 <= days) & (days <= MAX_DAYS) & (first + days <= LAST_DAY + 1);
    fits.then_some(Window { first, days })
}

// The window that the registry begins with, if it does.
pub fn read_start(registry: &[u8]) -> Option<Window>
    ensures { result ≡ start_of registry.now }
{
    match registry {
        [WINDOW_KIND, body @ ..] => read_window(body.first_chunk()?),
        _ => None,
    }
}

// An ESI ID, padded, and the sum of its flags.
#[tactic(auto, unfolding(crate::specs::Entry::is_meter))]
fn is_meter(body: &[u8; METER_SIZE]) -> bool
    ensures { result ≡ is_meter body.now }
{
    is_padded_esi_id(body.first_chunk().unwrap()) & (body[ESI_ID_SIZE] <= ALL_FLAGS)
}

// Which entry stands at a place: none, if it is neither kind, cut off, or wrong.
pub fn kind_at(registry: &[u8], at: usize) -> Option<Kind>
    requires { at < length registry.now }
    ensures { result ≡ entry_kind (drop at registry.now) }
{
    let body = &registry[at + 1..];
    match registry[at] {
        OWNER_KIND => is_padded_duns(body.first_chunk()?).then_some(Kind::Owner),
        METER_KIND => is_meter(body.first_chunk()?).then_some(Kind::Meter),
        _ => None,
    }
}
