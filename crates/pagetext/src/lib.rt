// The lines of the activity page, 80 bytes and an LF each, put into a part of the page.
//
//     put_heading(line, number);     // `PAGE`, its number
//     put_blank(line);               // a line of spaces
//     put_entry(line, entry);        // an entry's columns, the last of which says what its verdict means
//
// For whoever changes it: the lines are specs/Line.antt; what is said of a verdict is specs/Texts.antt, the table `TEXTS` and docs/VERDICTS.md.
#![tactic(auto)]

ghost use Rattle.std.specs.Prelude.{◌≡◌, ◌+◌, ◌<◌, ◌≤◌, length};
ghost use Rattle.text.specs.Number.{digits_of};
ghost use Rattle.padded.specs.Padding.{pad};
ghost use Rattle.lines.specs.Text.{row};
ghost use Rattle.pagetext.specs.Texts.{text_of as said_of};
ghost use Rattle.pagetext.specs.Line.{line_size, text_width, right, entry_line, heading, blank};

use digits::put_digits;
use report::Entry;

// The columns of an entry's line.
const FIRST_WIDTH: usize = 10;

const VERDICT_WIDTH: usize = 4;

const AT_WIDTH: usize = 10;

const METER_WIDTH: usize = 6;

const DAY_WIDTH: usize = 10;

const TEXT_WIDTH: usize = 40;

const LINE_WIDTH: usize = FIRST_WIDTH
    + VERDICT_WIDTH
    + AT_WIDTH
    + METER_WIDTH
    + DAY_WIDTH
    + TEXT_WIDTH;
// A line and its LF.
pub const LINE_SIZE: usize = LINE_WIDTH + 1;
// The digits of a page's number.
const NUMBER_SIZE: usize = 5;

const NO_TEXT: [u8; TEXT_WIDTH] = [b' '; TEXT_WIDTH];

// What is said of each verdict, by its number, filled up with spaces. A static, and not a constant, so that nothing is made of it where it is indexed.
static TEXTS: [[u8; TEXT_WIDTH]; 36] = [
    *b"Loaded                                  ", // 0
    NO_TEXT, // 1
    NO_TEXT, // 2
    NO_TEXT, // 3
    NO_TEXT, // 4
    NO_TEXT, // 5
    NO_TEXT, // 6
    NO_TEXT, // 7
    NO_TEXT, // 8
    NO_TEXT, // 9
    *b"Lines that belong to no record          ", // 10
    *b"A line is longer than 200 bytes         ", // 11
    *b"Record ends before its last row         ", // 12
    *b"Row does not begin with the code due    ", // 13
    *b"Row has the wrong number of fields      ", // 14
    *b"A field is not as it must be            ", // 15
    *b"Start is not before stop                ", // 16
    *b"Start and stop are not one whole day    ", // 17
    *b"A status is neither A nor E             ", // 18
    *b"A value is negative                     ", // 19
    *b"A value has too many decimals           ", // 20
    *b"A value is not a number of kWh          ", // 21
    *b"Record has a row too many               ", // 22
    NO_TEXT, // 23
    NO_TEXT, // 24
    NO_TEXT, // 25
    NO_TEXT, // 26
    NO_TEXT, // 27
    NO_TEXT, // 28
    NO_TEXT, // 29
    *b"ESI ID is not in the registry           ", // 30
    *b"Sender does not own the meter           ", // 31
    *b"ERCOT reads the meter itself            ", // 32
    *b"Meter not set up for interval data      ", // 33
    *b"Meter's profile is not IDR              ", // 34
    *b"Day is outside the registry's window    ", // 35
];

// What is said of a verdict; spaces for an unknown one.
fn text_of(verdict: u32) -> &'static [u8; TEXT_WIDTH]
    ensures { result.now ≡ pad text_width (said_of verdict) }
{
    match TEXTS.get(verdict as usize) {
        Some(text) => text,
        None => &NO_TEXT,
    }
}

// The digits of 0 to 99, two each.
static PAIRS: [u8; 200] =
    *b"00010203040506070809101112131415161718192021222324252627282930313233343536373839404142434445464748495051525354555657585960616263646566676869707172737475767778798081828384858687888990919293949596979899";

// Puts the digits of a number of two. Byte by byte: a copy would ask each time whether the two places overlap.
fn put_pair(to: &mut [u8], n: u32)
    requires { (length to.old ≡ 2) × (n < 100) }
    ensures { to.new ≡ digits_of 2 n }
{
    let at = 2 * n as usize;
    to[0] = PAIRS[at];
    to[1] = PAIRS[at + 1];
}

// Fills a column with a number, right-aligned with spaces; one too wide for it fills it with asterisks. Two digits at a time: half the divisions.
fn put_right(column: &mut [u8], n: u32)
    ensures { column.new ≡ right (length column.old) n }
{
    column.fill(b' ');
    let mut rest = n;
    let mut end = column.len();
    while 100 <= rest && 2 <= end {
        put_pair(&mut column[end - 2..end], rest % 100);
        rest /= 100;
        end -= 2;
    }
    if rest < 10 && 1 <= end {
        column[end - 1] = b'0' + rest as u8;
    } else if 10 <= rest && 2 <= end {
        put_pair(&mut column[end - 2..end], rest);
    } else {
        column.fill(b'*');
    }
}

pub fn put_entry(line: &mut [u8], e: Entry)
    requires { length line.old ≡ line_size }
    ensures { line.new ≡ row (entry_line e) }
{
    let (first, line) = line.split_at_mut(FIRST_WIDTH);
    let (verdict, line) = line.split_at_mut(VERDICT_WIDTH);
    let (at, line) = line.split_at_mut(AT_WIDTH);
    let (meter, line) = line.split_at_mut(METER_WIDTH);
    let (day, line) = line.split_at_mut(DAY_WIDTH);
    let (text, end) = line.split_at_mut(TEXT_WIDTH);
    put_right(first, e.first);
    put_right(verdict, e.verdict);
    put_right(at, e.at);
    put_right(meter, e.meter);
    put_right(day, e.day);
    text.copy_from_slice(text_of(e.verdict));
    end[0] = b'\n';
}

pub fn put_heading(line: &mut [u8], number: u32)
    requires { length line.old ≡ line_size }
    ensures { line.new ≡ row (heading number) }
{
    put_blank(line);
    line[..5].copy_from_slice(b"PAGE ");
    put_digits(&mut line[5..5 + NUMBER_SIZE], number);
}

pub fn put_blank(line: &mut [u8])
    requires { length line.old ≡ line_size }
    ensures { line.new ≡ row blank }
{
    line.fill(b' ');
    line[LINE_WIDTH] = b'\n';
}
