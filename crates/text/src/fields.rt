// Fields and parts of a line, each returned as that very part of the caller's slice.
ghost use Rattle.std.specs.Prelude.{◌≡◌, ◌<◌, length, take, drop};
ghost use Rattle.text.specs.Field.{cut, first_field, after_field};

// The first field of the rest of a line: up to its first comma, or its end.
pub fn field(rest: &[u8]) -> &[u8]
    ensures { result.now ≡ first_field rest.now }
{
    match rest.iter().position(|b| *b == b',') {
        Some(n) => &rest[..n],
        None => rest,
    }
}

// The first n bytes, or all.
pub fn front(s: &[u8], n: usize) -> &[u8]
    ensures { result.now ≡ take n s.now }
{
    &s[..n.min(s.len())]
}

// What stands behind the first n bytes.
pub fn behind(s: &[u8], n: usize) -> &[u8]
    ensures { result.now ≡ drop n s.now }
{
    &s[n.min(s.len())..]
}

// What stands behind the first field of the rest of a line and its comma.
#[tactic(auto, using(crate::proofs::Comma::field_drop))]
pub fn after<'a>(rest: &'a [u8], first: &[u8]) -> &'a [u8]
    requires { first.now ≡ first_field rest.now }
    ensures { result.now ≡ after_field rest.now }
{
    behind(rest, first.len() + 1)
}

// How many fields a line has. The count is a byte, so that the loop runs on many bytes at once.
pub fn field_count(line: &[u8]) -> u8
    requires { length line.now < 255 }
    ensures { result ≡ length (cut line.now) }
{
    let mut n: u8 = 1;
    for b in line {
        if *b == b',' {
            n += 1;
        }
    }
    n
}
