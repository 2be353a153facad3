// The cases of a file, one after the other: each is a cut, a registry and a file to load. The cut is a number of four bytes, the lowest first. Registry
// and file have such a number before them, their size. A case that is cut off goes as far as its bytes do: a number of fewer bytes is 0.
ghost use Rattle.std.specs.Prelude.{◌<◌, ◌≤◌, length};
ghost use Rattle.std.specs.Iterator.{at_most};

// A registry, and a file that is fed in pieces of so many bytes.
#[derive(Clone, Copy)]
pub struct Case<'a> {
    pub cut: usize,
    pub registry: &'a [u8],
    pub file: &'a [u8],
}

// A number, and what stands behind it.
fn number(bytes: &[u8]) -> (usize, &[u8])
    ensures within { length result.1.now ≤ length bytes.now }
    ensures moves { 0 < length bytes.now → length result.1.now < length bytes.now }
{
    match bytes.split_first_chunk() {
        Some((number, behind)) => (u32::from_le_bytes(*number) as usize, behind),
        None => (0, &bytes[bytes.len()..]),
    }
}

// As many bytes as the number before them says, or as there are, and what stands behind them.
fn sized(bytes: &[u8]) -> (&[u8], &[u8])
    ensures { length result.1.now ≤ length bytes.now }
{
    let (size, behind) = number(bytes);
    behind.split_at(size.min(behind.len()))
}

// The cases that are left.
#[derive(Drop)]
pub struct Cases<'a>(pub &'a [u8]);

impl<'a> Iterator for Cases<'a> {
    type Item = Case<'a>;

    // each case takes bytes
    ghost remaining = { λ s. at_most (length s.0.now) };

    fn next(&mut self) -> Option<Case<'a>> {
        if self.0.is_empty() {
            return None;
        }
        let (cut, rest) = number(self.0);
        let (registry, rest) = sized(rest);
        let (file, rest) = sized(rest);
        self.0 = rest;
        Some(Case {
            cut,
            registry,
            file,
        })
    }
}
