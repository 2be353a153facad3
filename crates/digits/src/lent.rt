// Texts and the digits of numbers, put into lent bytes of any length at a place: no other byte changes.
//
//     let mut end = put(out, at, b"00000003,");     // the place behind it
//     end = put_number(out, end, 8, date);          // the last eight digits of a number
//     end = put_decimal(out, end, line);            // a number in decimal, no zeros in front
//
// A `Text` has bytes of its own; these are for whoever has a buffer already.
ghost use Rattle.std.specs.Prelude.{◌≡◌};
ghost use Rattle.text.specs.Number.{digits_of};
ghost use Rattle.digits.specs.Decimal.{decimal};
ghost use Rattle.digits.specs.Put.{Room, Put};

use crate::{decimal_size, put_digits};
use text::bytes::copy;

// Puts a text at a place; gives the place behind it.
pub fn put(out: &mut [u8], at: usize, text: &[u8]) -> usize
    requires { Room out.old at text.now }
    ensures { Put out.old at text.now out.new result }
{
    let end = at + text.len();
    copy(&mut out[at..end], text);
    end
}

// Puts the last `size` digits of a number at a place; gives the place behind them.
pub fn put_number(out: &mut [u8], at: usize, size: usize, n: u32) -> usize
    requires { Room out.old at (digits_of size n) }
    ensures { Put out.old at (digits_of size n) out.new result }
{
    let end = at + size;
    put_digits(&mut out[at..end], n);
    end
}

// Puts a number in decimal at a place; gives the place behind it.
pub fn put_decimal(out: &mut [u8], at: usize, n: u32) -> usize
    requires { Room out.old at (decimal n) }
    ensures { Put out.old at (decimal n) out.new result }
{
    put_number(out, at, decimal_size(n), n)
}
