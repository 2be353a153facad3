// A text that grows in bytes of its own, and the digits of numbers in it.
//
//     let mut text = Text::<100>::new();        // of 100 bytes at most
//     text.put(b"00000003,");                   // behind what it has
//     text.put_number(8, date);                 // the last eight digits of a number
//     text.put_decimal(line);                   // a number in decimal, no zeros in front
//     text.bytes() ..
//
// In a clause a text is its bytes so far.
//
// For whoever changes it: a number's digits are `digits_of` of text/specs/Number.antt; `put_digits` is the only function that finds
// them, but for two that are quicker at what they do: crate `direct` compares the two digits of a detail row's code byte by byte, and crate `pagetext` fills
// a column two digits at a time.
#![tactic(auto)]

ghost use Rattle.std.specs.Prelude.{◌≡◌, [], ◌++◌, ◌+◌, ◌≤◌, length};
ghost use Rattle.text.specs.Number.{digits_of};
ghost use Rattle.digits.specs.Decimal.{decimal};

pub mod lent;

use std::marker::Model;
use text::bytes::copy;

// No number has more digits.
pub const MOST_DIGITS: usize = 10;

// Fills bytes with the last digits of a number, as many as there are bytes.
pub fn put_digits(to: &mut [u8], n: u32)
    ensures { to.new ≡ digits_of (length to.old) n }
{
    // By index: once `iter_mut().rev()` is over, a proof knows nothing of the bytes that it wrote.
    let mut rest = n;
    for i in (0..to.len()).rev() {
        to[i] = b'0' + (rest % 10) as u8;
        rest /= 10;
    }
}

// How many digits a number has in decimal: one at least. To put all ten digits and look for the first that is no zero would cost Write a twentieth.
fn decimal_size(n: u32) -> usize
    ensures { decimal n ≡ digits_of result n }
{
    n.checked_ilog10().unwrap_or(0) as usize + 1
}

// A text of N bytes at most.
#[derive(Drop)]
pub struct Text<const N: usize> {
    bytes: [u8; N],
    end: usize,
}

impl<const N: usize> Model for Text<N> {
    ghost use Rattle.std.specs.Prelude.{ℕ, List, ◌≤◌, take};

    ghost Value = { List ℕ };

    ghost view = { λ t. take t.end t.bytes };

    ghost invariant = { λ t. t.end ≤ N };
}

impl<const N: usize> Text<N> {
    pub fn new() -> Text<N>
        ensures { result ≡ [] }
    {
        Text {
            bytes: [0; N],
            end: 0,
        }
    }

    pub fn bytes(&self) -> &[u8]
        ensures { result.now ≡ self.now }
    {
        &self.bytes[..self.end]
    }

    pub fn clear(&mut self)
        ensures { self.new ≡ [] }
    {
        self.end = 0;
    }

    // How many bytes are free.
    pub fn room(&self) -> usize
        ensures { result + length self.now ≡ N }
    {
        N - self.end
    }

    // Room is asked by each that puts, since each puts other bytes.
    pub fn put(&mut self, text: &[u8])
        requires { length self.old + length text.now ≤ N }
        ensures { self.new ≡ self.old ++ text.now }
    {
        let end = self.end + text.len();
        let bytes = &mut self.bytes[..];
        copy(&mut bytes[self.end..end], text);
        self.end = end;
    }

    // Puts the last `size` digits of a number.
    pub fn put_number(&mut self, size: usize, n: u32)
        requires { length self.old + size ≤ N }
        ensures { self.new ≡ self.old ++ digits_of size n }
    {
        let end = self.end + size;
        let bytes = &mut self.bytes[..];
        put_digits(&mut bytes[self.end..end], n);
        self.end = end;
    }

    // Puts a number in decimal.
    pub fn put_decimal(&mut self, n: u32)
        requires { length self.old + length (decimal n) ≤ N }
        ensures { self.new ≡ self.old ++ decimal n }
    {
        self.put_number(decimal_size(n), n);
    }
}
