// The digits of a value at the front of an interval, found without a loop: where its comma and its point stand is guessed from eight bytes at once,
// and then the point and the digits are tested. A wrong guess fails a test, so a guess owes nothing but its range.
ghost use Rattle.std.specs.Prelude.{◌≡◌, ◌-◌, ◌<◌, ◌≤◌, true, IfSome};
ghost use Rattle.details.specs.Value.{point};
ghost use Rattle.direct.specs.Guess.{word_size, Layout, BeginsDigits};

use crate::TRIPLE;
use crate::word::{aligned, all_numerals};
use details::value::PART_DIGITS;

// Digits before the point that a word has room for, beside those behind it.
const WHOLE_TAKEN: usize = WORD - PART_DIGITS;

// The bytes of a word, and words of eight equal bytes.
const WORD: usize = 8;

const COMMAS: u64 = 0x2c2c2c2c2c2c2c2c;

const POINTS: u64 = 0x2e2e2e2e2e2e2e2e;

const ZEROS: u64 = 0x3030303030303030;

// Where the word first has the byte that the pattern repeats; 8 if nowhere, which is no flag: a guess is tested by what reads on from it, and 8 is the
// word's end. c has its first zero byte there, and m its lowest bit: taking
// one from each byte of c turns a zero into 255, and sets no top bit before it that c has not.
fn guess(word: u64, pattern: u64) -> usize
    ensures { result ≤ word_size }
{
    let c = word ^ pattern;
    let m = c.wrapping_sub(0x0101010101010101) & !c & 0x8080808080808080;
    m.trailing_zeros() as usize / 8
}

// Whether a value of a word may have n bytes with its point at d (at n: no point).
fn has_layout(n: usize, d: usize) -> bool
    requires { (d ≤ n) × (n ≤ word_size) }
    ensures { result ≡ true → Layout n d }
{
    let f = n - d;
    (n != 0) & (d <= WHOLE_TAKEN) & (f != 1) & (f <= PART_DIGITS + 1)
}

// What ends the digits before the point, of a value with f bytes behind them: the point, or the comma behind the value.
fn stop_byte(f: usize) -> u8
    ensures { 0 < f → result ≡ point }
{
    if f == 0 { b',' } else { b'.' }
}

// The digits of the value at the front, in line in one word, and how many bytes the value has; or it is for another reader. `word::number` makes
// watt hours of them. A value that goes on behind the word is cut there: its comma will be missed.
pub fn read_digits(t: &[u8; TRIPLE]) -> Option<(u64, usize)>
    ensures { IfSome result (λ v. BeginsDigits t.now v.0 v.1) }
{
    let w = u64::from_le_bytes(*t.first_chunk().unwrap());
    let n = guess(w, COMMAS);
    let d = guess(w, POINTS).min(n);
    if !has_layout(n, d) {
        return None;
    }
    if t[d] != stop_byte(n - d) {
        return None;
    }
    let a = aligned(w ^ ZEROS, n, d);
    if !all_numerals(a) {
        return None;
    }
    Some((a, n))
}
