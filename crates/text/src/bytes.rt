// Classes of bytes, and texts compared: std's methods, in the words of the definitions that all rows cite. And a copy of items.
ghost use Rattle.std.specs.Prelude.{◌≡◌, Bool, length};
ghost use Rattle.text.specs.Byte.{is_digit, is_alnum, is_empty, every, equals, starts_with};

pub fn is_digit(b: u8) -> bool
    ensures { result ≡ is_digit b }
{
    b.is_ascii_digit()
}

// A letter of either case, or a digit.
pub fn is_alnum(b: u8) -> bool
    ensures { result ≡ is_alnum b }
{
    b.is_ascii_alphanumeric()
}

#[tactic(auto, using(crate::proofs::Class::empty_test))]
pub fn is_empty(f: &[u8]) -> bool
    ensures { result ≡ is_empty f.now }
{
    f.is_empty()
}

// Whether every item is of a class. The scan does not stop early, so that the compiler looks at many items at once.
pub fn every<T: Copy, F: Fn(T) -> bool>(items: &[T], class: F) -> bool
    requires { F.IsAlwaysCallable class }
    ensures { (test : T → Bool) → ((x : T) (r : Bool) → F.post class x r → r ≡ test x) → result ≡ every test items.now }
{
    let mut all = true;
    for item in items {
        all = all & class(*item);
    }
    all
}

pub fn all_digits(s: &[u8]) -> bool
    ensures { result ≡ every is_digit s.now }
{
    every(s, is_digit)
}

pub fn all_alnum(s: &[u8]) -> bool
    ensures { result ≡ every is_alnum s.now }
{
    every(s, is_alnum)
}

#[tactic(auto, unfolding(crate::specs::Byte::equals))]
pub fn same(a: &[u8], b: &[u8]) -> bool
    ensures { result ≡ equals a.now b.now }
{
    a == b
}

// Whether s begins with p.
#[tactic(auto, unfolding(crate::specs::Byte::starts_with))]
pub fn begins(s: &[u8], p: &[u8]) -> bool
    ensures { result ≡ starts_with p.now s.now }
{
    s.starts_with(p)
}

// Puts items in the place of as many others. By a loop: `copy_from_slice` calls C's `memmove` where two places could overlap, and the static library asks
// of its program no more than `memcpy` and `memset`.
pub fn copy<T: Copy>(to: &mut [T], from: &[T])
    requires { length to.old ≡ length from.now }
    ensures { to.new ≡ from.now }
{
    for (i, x) in to.iter_mut().enumerate() {
        *x = from[i];
    }
}
