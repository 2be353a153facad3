// Digits and the numbers that they write.
ghost use Rattle.std.specs.Prelude.{◌≡◌, true, ◌-◌, ◌≤◌, length};
ghost use Rattle.text.specs.Byte.{is_digit};
ghost use Rattle.text.specs.Number.{number, leading, Digits};

use crate::bytes::is_digit;

// How many digits a text begins with.
#[tactic(auto, using(crate::proofs::Decimal::run_until))]
pub fn digits(s: &[u8]) -> usize
    ensures { result ≡ length (leading s.now) }
{
    s.iter().position(|b| !is_digit(*b)).unwrap_or(s.len())
}

fn digit(b: u8) -> u32
    requires { is_digit b ≡ true }
    ensures { (result ≡ b - 48) × (result ≤ 9) }
{
    u32::from(b - b'0')
}

// The number that at most nine digits write.
pub fn number_of(s: &[u8]) -> u32
    requires { Digits 9 s.now }
    ensures { result ≡ number s.now }
{
    let mut n: u32 = 0;
    for b in s {
        n = n * 10 + digit(*b);
    }
    n
}
