// Texts padded at the end with spaces.
ghost use Rattle.std.specs.Prelude.{◌≡◌, ◌<◌, ◌≤◌, length};
ghost use Rattle.padded.specs.Padding.{is_space, pad, unpad, is_padded_esi_id, is_padded_duns};
ghost use Rattle.padded.specs.Private.{is_padded, spaces_last};

use text::bytes::{all_digits, copy, every, is_alnum};
use text::names::{DUNS_SIZE, ESI_ID_SIZE};

const SPACE: u8 = b' ';

fn is_space(b: u8) -> bool
    ensures { result ≡ is_space b }
{
    b == SPACE
}

// A letter, a digit or a space.
fn is_padded(b: u8) -> bool
    ensures { result ≡ is_padded b }
{
    is_alnum(b) | is_space(b)
}

// Whether no space stands before another byte: each pair of neighbours is tested.
fn spaces_last(s: &[u8]) -> bool
    requires { 0 < length s.now }
    ensures { result ≡ spaces_last s.now }
{
    // By index: by a fold over `zip` or `windows` the registry's test takes half as long again.
    let mut ok = true;
    for i in 1..s.len() {
        ok = ok & ((s[i - 1] != SPACE) | (s[i] == SPACE));
    }
    ok
}

// 64 bytes: an ESI ID, padded at the end with spaces. The 63 pairs of neighbours are tested as 48 and 16, which fill whole vectors.
pub fn is_padded_esi_id(s: &[u8; ESI_ID_SIZE]) -> bool
    ensures { result ≡ is_padded_esi_id s.now }
{
    (s[0] != SPACE) & every(s, is_padded) & spaces_last(&s[0..49]) & spaces_last(&s[47..64])
}

// 13 bytes: a DUNS number, padded at the end with spaces. Behind its first 9 digits stand 4 more, or 4 spaces.
pub fn is_padded_duns(s: &[u8; DUNS_SIZE]) -> bool
    ensures { result ≡ is_padded_duns s.now }
{
    let nine = &s[..9];
    let rest = &s[9..];
    all_digits(nine) & (all_digits(rest) | every(rest, is_space))
}

// Puts a text with spaces behind it, as many bytes as there are.
pub fn put_padded(to: &mut [u8], text: &[u8])
    requires { length text.now ≤ length to.old }
    ensures { to.new ≡ pad (length to.old) text.now }
{
    let n = text.len();
    copy(&mut to[..n], text);
    to[n..].fill(SPACE);
}

// A text without the spaces at its end, as that part of the padded one.
pub fn unpadded(s: &[u8]) -> &[u8]
    ensures { result.now ≡ unpad s.now }
{
    let mut left = s;
    while let [front @ .., SPACE] = left {
        left = front;
    }
    left
}
