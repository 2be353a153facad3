// The order of padded ESI IDs by bytes.
ghost use Rattle.std.specs.Prelude.{◌≡◌};
ghost use Rattle.padded.specs.Order.{order};

use std::cmp::Ordering;
use text::names::ESI_ID_SIZE;

// How one text of 64 bytes stands to another. Eight bytes of each are compared as one number, the first byte the highest: `s.cmp(t)` says the
// same, but takes twice as long, and every call of the loader compares all neighbours of the registry.
pub fn compare(s: &[u8; ESI_ID_SIZE], t: &[u8; ESI_ID_SIZE]) -> Ordering
    ensures { result ≡ order s.now t.now }
{
    let (left, _) = s.as_chunks::<8>();
    let (right, _) = t.as_chunks::<8>();
    for (a, b) in left.iter().zip(right) {
        match u64::from_be_bytes(*a).cmp(&u64::from_be_bytes(*b)) {
            Ordering::Equal => {}
            other => return other,
        }
    }
    Ordering::Equal
}
