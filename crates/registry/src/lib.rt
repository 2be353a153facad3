// The registry: its rules, an index of its meters, and the meter of an ESI ID.
//
//     let mut index = Index::of(registry);           // one walk over the bytes
//     if !index.is_sound() { .. }                    // a rule is broken: refused 2; no window, no meters
//     let meter = index.find(id)?;                   // the meter with this ESI ID, padded to 64 bytes: from 0, or none
//     index.try_first(meter);                        // the next one is likely the same
//     index.flags(meter) ..                          // id_of, owner_of and is_owned tell of it too
//
// An index holds its registry, and what else it holds of it is always true (`holds`).
//
// For whoever changes it: the rules are specs/Entry.antt (one entry) and specs/Registry.antt (their order), by kind and size; the longest
// window is `MAX_DAYS`. Owners are unlimited and a meter's owner is kept with the meter, so a registry may be of any length.
#![tactic(auto)]

ghost use Rattle.std.specs.Prelude.{◌≡◌, false, ◌+◌, ◌<◌, length, take, drop, IfSome};
ghost use Rattle.text.specs.Byte.{equals};
ghost use Rattle.text.specs.Identifier.{esi_id_size};
ghost use Rattle.padded.specs.Order.{below};
ghost use Rattle.registry.specs.Entry.{owner_size, meter_size};
ghost use Rattle.registry.specs.Registry.{in_order, is_registry, meters_of, window_is};
ghost use Rattle.registry.specs.Index.{Indexes, bytes_at, seen_at, meter_at, find_meter};

pub mod entry;

use entry::{Kind, METER_SIZE, OWNER_SIZE, WINDOW_SIZE, Window, kind_at, read_start, text_at};
use padded::order::compare;
use std::cmp::Ordering;
use text::bytes::same;
use text::names::ESI_ID_SIZE;

pub const MAX_METERS: usize = 1000;

// Where a meter's entry stands in the registry, and its owner's. Tried: references to these bytes, which take the registry's test 6 percent longer, and 7 with
// a meter's flags beside its ESI ID: zeros stand in an array before it is made, but references have to be written there, a thousand in each call.
#[derive(Clone, Copy, Debug, PartialEq, Eq)]
pub struct Place {
    pub meter: usize,
    pub owner: usize,
}

// A registry, whether it breaks no rule, its window, and the places of its meters. A fixed array with a count, since nothing here is on a heap. The hint
// is the meter that `find` tries first; any number may be one.
#[derive(Clone, Copy)]
pub struct Index<'a> {
    pub registry: &'a [u8],
    sound: bool,
    window: Window,
    count: usize,
    places: [Place; MAX_METERS],
    hint: usize,
    ghost holds: { Indexes registry.now sound window count places },
}

// Whether the meter at a place comes behind the last one, by their ESI IDs.
fn comes_after(registry: &[u8], last: Option<usize>, at: usize) -> bool
    requires whole { at + meter_size < length registry.now }
    requires last_whole { IfSome last (λ p. p + meter_size < length registry.now) }
    ensures { result ≡ below (bytes_at esi_id_size registry.now last) (take esi_id_size (drop (at + 1) registry.now)) }
{
    let Some(last) = last else {
        return true;
    };
    compare(text_at(registry, last), text_at(registry, at)).is_lt()
}

// Whether a meter may stand at a place: the last owner and the last meter stand at these, and there are `count` meters so far.
fn in_order(
    registry: &[u8],
    owner: Option<usize>,
    last: Option<usize>,
    count: usize,
    at: usize,
) -> bool
    requires whole { at + meter_size < length registry.now }
    requires owner_whole { IfSome owner (λ p. p + owner_size < length registry.now) }
    requires last_whole { IfSome last (λ p. p + meter_size < length registry.now) }
    ensures { result ≡ in_order (seen_at registry.now owner last count) (drop (at + 1) registry.now) }
{
    owner.is_some() & (count < MAX_METERS) & comes_after(registry, last, at)
}

// The index of a registry that breaks a rule: it has no window and no meter.
fn broken<'a>(registry: &'a [u8]) -> Index<'a>
    requires { is_registry registry.now ≡ false }
    ensures { result.registry.now ≡ registry.now }
{
    Index {
        registry,
        sound: false,
        window: Window { first: 0, days: 0 },
        count: 0,
        places: [Place { meter: 0, owner: 0 }; MAX_METERS],
        hint: 0,
    }
}

impl<'a> Index<'a> {
    // The index of any registry. It is given by itself, and not as an Option or a Result: of these a call moves the whole index.
    pub fn of(registry: &'a [u8]) -> Index<'a>
        ensures { result.registry.now ≡ registry.now }
    {
        let Some(window) = read_start(registry) else {
            return broken(registry);
        };
        let mut places = [Place { meter: 0, owner: 0 }; MAX_METERS];
        let mut count: usize = 0;
        let mut owner: Option<usize> = None;
        let mut last: Option<usize> = None;
        let mut at: usize = WINDOW_SIZE + 1;
        while at < registry.len() {
            let Some(kind) = kind_at(registry, at) else {
                return broken(registry);
            };
            match kind {
                Kind::Owner => {
                    owner = Some(at);
                    at += OWNER_SIZE + 1;
                }
                Kind::Meter => {
                    if !in_order(registry, owner, last, count, at) {
                        return broken(registry);
                    }
                    places[count] = Place {
                        meter: at,
                        owner: owner.unwrap(),
                    };
                    count += 1;
                    last = Some(at);
                    at += METER_SIZE + 1;
                }
            }
        }
        Index {
            registry,
            sound: true,
            window,
            count,
            places,
            hint: 0,
        }
    }

    // Whether the registry breaks no rule.
    pub fn is_sound(&self) -> bool
        ensures { result ≡ is_registry self.now.registry.now }
    {
        self.sound
    }

    pub fn window(&self) -> Window
        ensures { result ≡ window_is self.now.registry.now }
    {
        self.window
    }

    // How many meters the registry has.
    pub fn meters(&self) -> usize
        ensures { result ≡ length (meters_of self.now.registry.now) }
    {
        self.count
    }

    // The meter with an ESI ID, found by halves. By hand: a closure for `binary_search_by` must be callable at any place, and only an
    // index's own places are known to be inside its registry.
    fn search(&self, id: &[u8; ESI_ID_SIZE]) -> Option<usize>
        ensures { result ≡ find_meter id.now (meters_of self.now.registry.now) }
    {
        let mut low: usize = 0;
        let mut high: usize = self.count;
        while low < high {
            let middle = low + (high - low) / 2;
            match compare(self.id_of(middle), id) {
                Ordering::Less => low = middle + 1,
                Ordering::Equal => return Some(middle),
                Ordering::Greater => high = middle,
            }
        }
        None
    }

    // The meter with this ESI ID, padded. Where the hint is right, there is no search.
    pub fn find(&self, id: &[u8; ESI_ID_SIZE]) -> Option<usize>
        ensures { result ≡ find_meter id.now (meters_of self.now.registry.now) }
    {
        if self.hint < self.count {
            if same(self.id_of(self.hint), id) {
                return Some(self.hint);
            }
        }
        self.search(id)
    }

    // A meter to try first from now on. It changes nothing of what is found.
    pub fn try_first(&mut self, meter: usize)
        ensures { self.new.registry.now ≡ self.old.registry.now }
    {
        self.hint = meter;
    }

    // A meter is its number here and no reference, since addresses, states and programs in C hold numbers; that there is such a meter is what indexing asks.

    // A meter's ESI ID, padded.
    pub fn id_of(&self, meter: usize) -> &'a [u8; ESI_ID_SIZE]
        requires { meter < length (meters_of self.now.registry.now) }
        ensures { result.now ≡ (meter_at self.now.registry.now meter).id }
    {
        text_at(self.registry, self.places[meter].meter)
    }

    // Its owner's DUNS number, padded.
    pub fn owner_of(&self, meter: usize) -> &'a [u8; OWNER_SIZE]
        requires { meter < length (meters_of self.now.registry.now) }
        ensures { result.now ≡ (meter_at self.now.registry.now meter).owner }
    {
        text_at(self.registry, self.places[meter].owner)
    }

    // The sum of a meter's flags.
    pub fn flags(&self, meter: usize) -> u8
        requires { meter < length (meters_of self.now.registry.now) }
        ensures { result ≡ (meter_at self.now.registry.now meter).flags }
    {
        self.registry[self.places[meter].meter + METER_SIZE]
    }

    // Whether a meter belongs to this owner, padded.
    pub fn is_owned(&self, meter: usize, owner: &[u8; OWNER_SIZE]) -> bool
        requires { meter < length (meters_of self.now.registry.now) }
        ensures { result ≡ equals (meter_at self.now.registry.now meter).owner owner.now }
    {
        same(self.owner_of(meter), owner)
    }
}
