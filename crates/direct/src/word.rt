// Bytes of a text as one number, a word, the first the lowest, and what is done to all of them at once: no loop, and no branch for each.
ghost use Rattle.std.specs.Prelude.{◌≡◌, true};
ghost use Rattle.text.specs.Byte.{every};
ghost use Rattle.direct.specs.Guess.{Layout, Aligned, bytes_of, is_numeral, tens_from};

// A value's digits in line: of its n bytes the d before the point in bytes 0 to 4, with zeros before them, and those behind the point in
// bytes 5 to 7, with zeros behind them. So the eight bytes write watt hours, however many digits there are.
pub fn aligned(x: u64, n: usize, d: usize) -> u64
    requires { Layout n d }
    ensures { Aligned n d x result }
{
    let beyond = 64 - 8 * n;
    let whole = (x << (40 - 8 * d)) % 0x10000000000;
    let part = (x << beyond >> beyond) >> (8 * d + 8);
    whole + (part << 40)
}

// Whether each byte is 9 at most: then neither it nor 118 more has the top bit. Any other has it, or gets it so.
pub fn all_numerals(a: u64) -> bool
    ensures { result ≡ true → every is_numeral (bytes_of 8 a) ≡ true }
{
    (a | a.wrapping_add(0x7676767676767676)) & 0x8080808080808080 == 0
}

// The number that eight bytes of 9 at most write: that of each pair, in 16 bits, of each two pairs, in 32, and of all.
pub fn number(a: u64) -> u32
    requires { every is_numeral (bytes_of 8 a) ≡ true }
    ensures { result ≡ tens_from 0 (bytes_of 8 a) }
{
    let p = (a * 10 + (a >> 8)) & 0x00ff00ff00ff00ff;
    let q = p * 100 + (p >> 16);
    (q % 65536 * 10000 + (q >> 32) % 65536) as u32
}
