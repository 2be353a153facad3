// Identifiers: ESI IDs, descriptors, DUNS numbers.
ghost use Rattle.std.specs.Prelude.{◌≡◌};
ghost use Rattle.text.specs.Identifier.{is_name, is_esi_id, is_descriptor, is_duns};

use crate::bytes::{all_alnum, all_digits};

pub const ESI_ID_SIZE: usize = 64;

pub const DESCRIPTOR_SIZE: usize = 80;

// The digits of the longer DUNS number.
pub const DUNS_SIZE: usize = 13;

// 1 to n letters or digits.
fn is_name(s: &[u8], n: usize) -> bool
    ensures { result ≡ is_name n s.now }
{
    (1 <= s.len()) & (s.len() <= n) & all_alnum(s)
}

pub fn is_esi_id(s: &[u8]) -> bool
    ensures { result ≡ is_esi_id s.now }
{
    is_name(s, ESI_ID_SIZE)
}

pub fn is_descriptor(s: &[u8]) -> bool
    ensures { result ≡ is_descriptor s.now }
{
    is_name(s, DESCRIPTOR_SIZE)
}

// 9 or 13 digits.
pub fn is_duns(s: &[u8]) -> bool
    ensures { result ≡ is_duns s.now }
{
    ((s.len() == 9) | (s.len() == DUNS_SIZE)) & all_digits(s)
}
