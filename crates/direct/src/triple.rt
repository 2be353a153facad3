// Value, status and empty field of one interval, at the front of as many bytes as the longest has.
ghost use Rattle.std.specs.Prelude.{◌≡◌, ◌≤◌, take, drop, IfSome};
ghost use Rattle.direct.specs.Guess.{value_size, tail_size, tail, status_byte, HasTriple};

use crate::guess::read_digits;
use crate::word::number;
use crate::{TRIPLE, VALUE};
use details::detail::Interval;
use details::value::read_value;
use text::fields::field;

// Behind a value: comma, status, comma, the empty field, comma; and these as words, ",A,," and ",E,,".
pub const TAIL: usize = 4;

const ACTUAL: u32 = 0x2c2c412c;

const ESTIMATED: u32 = 0x2c2c452c;

// Whether the value before a place is estimated, by what stands behind it, as a word. Tried: a `match` of the bytes against b",A,," and b",E,,". They are
// tested one after the other, and a realistic file loads 8 percent slower.
fn read_tail(t: &[u8; TRIPLE], at: usize) -> Option<bool>
    requires { at ≤ value_size }
    ensures { IfSome result (λ e. take tail_size (drop at t.now) ≡ tail (status_byte e)) }
{
    match u32::from_le_bytes(*t[at..at + TAIL].as_array().unwrap()) {
        ACTUAL => Some(false),
        ESTIMATED => Some(true),
        _ => None,
    }
}

// An interval with a value that a word holds, and how many bytes it has.
#[inline(always)]
fn short_triple(t: &[u8; TRIPLE]) -> Option<(Interval, usize)>
    ensures { IfSome result (λ i. HasTriple t.now i.0 i.1) }
{
    let (w, n) = read_digits(t)?;
    let estimated = read_tail(t, n)?;
    let wh = number(w);
    Some((Interval { wh, estimated }, n + TAIL))
}

// An interval whose value is cut at its comma, however long it is. A rare call, so that a common line pays nothing for it.
#[cold]
#[inline(never)]
fn long_triple(t: &[u8; TRIPLE]) -> Option<(Interval, usize)>
    ensures { IfSome result (λ i. HasTriple t.now i.0 i.1) }
{
    let f = field(&t[..VALUE]);
    let wh = read_value(f).ok()?;
    let estimated = read_tail(t, f.len())?;
    Some((Interval { wh, estimated }, f.len() + TAIL))
}

// An interval, and how many bytes it has; or it is for the plain reader.
#[inline(always)]
pub fn read_triple(t: &[u8; TRIPLE]) -> Option<(Interval, usize)>
    ensures { IfSome result (λ i. HasTriple t.now i.0 i.1) }
{
    short_triple(t).or_else(|| long_triple(t))
}
