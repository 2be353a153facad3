// Lines: the CR before an LF, long lines, and what kind of line it is.
ghost use Rattle.std.specs.Prelude.{◌≡◌};
ghost use Rattle.lines.specs.Line.{ends_with_cr, drop_cr, ended_line, is_long, kind_of};
ghost use Rattle.lines.specs.Answer.{line_of};

use text::bytes::begins;

pub const LF: u8 = b'\n';

pub const CR: u8 = 13;

// The most bytes of a line that is not long, its CR included.
pub const LINE_LIMIT: usize = 200;

// A line without its LF, and without the one CR directly before it; `cr` says whether that CR was there.
#[derive(Clone, Copy, Debug, PartialEq, Eq)]
pub struct Line<'a> {
    pub body: &'a [u8],
    pub cr: bool,
}

impl<'a> Line<'a> {
    // The line that an LF ends, by the bytes before that LF.
    pub fn ended(raw: &'a [u8]) -> Line<'a>
        ensures { line_of result ≡ ended_line raw.now }
    {
        Line {
            body: without_cr(raw),
            cr: ends_with_cr(raw),
        }
    }
}

#[derive(Clone, Copy, Debug, PartialEq, Eq)]
pub enum Kind {
    Empty,
    Opener,
    Detail,
    Other,
}

// Whether the bytes before an LF end with the CR that is dropped.
pub fn ends_with_cr(raw: &[u8]) -> bool
    ensures { result ≡ ends_with_cr raw.now }
{
    matches!(raw, [.., CR])
}

// The bytes before an LF without that one CR.
pub fn without_cr(raw: &[u8]) -> &[u8]
    ensures { result.now ≡ drop_cr raw.now }
{
    match raw {
        [body @ .., CR] => body,
        _ => raw,
    }
}

// Whether a line is long: its bytes are counted with the CR that was dropped.
pub fn is_long(line: Line<'_>) -> bool
    ensures { result ≡ is_long (line_of line.entry) }
{
    LINE_LIMIT < line.body.len() + usize::from(line.cr)
}

pub fn kind_of(line: &[u8]) -> Kind
    ensures { result ≡ kind_of line.now }
{
    if line.is_empty() {
        Kind::Empty
    } else if begins(line, b"00000001") {
        Kind::Opener
    } else if begins(line, b"100000") {
        Kind::Detail
    } else {
        Kind::Other
    }
}
