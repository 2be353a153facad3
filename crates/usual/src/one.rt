// The usual row one.
ghost use Rattle.std.specs.Prelude.{◌≡◌, Bool};
ghost use Rattle.lines.specs.Answer.{line_of, line_with};
ghost use Rattle.headers.specs.One.{row_one};
ghost use Rattle.headers.specs.Answer.{one_says};
ghost use Rattle.usual.specs.Answer.{UsualOneSays};

use calendar::is_date;
use headers::one::{One, read_channel};
use headers::time::stops_day;
use lines::line::Line;
use report::verdict::Verdict;
use text::bytes::{all_alnum, all_digits, begins, same};
use text::numbers::number_of;

// Row one as nearly every file has it: behind the ESI ID come 36 bytes, `,4,YYYYMMDD000000,YYYYMMDDHHMMSS,Y,N`, whose parts stand at known places.
const USUAL_HEAD: [u8; 9] = *b"00000001,";

const ID_AT: usize = 9;

const TAIL_SIZE: usize = 36;
// Of a line whose ESI ID has 1 to 64 bytes.
const USUAL_LEAST: usize = 46;

const USUAL_MOST: usize = 109;
// Places in those 36 bytes: the channel, the day that start and stop share, the time of day of each.
const CHANNEL_AT: usize = 1;

const CHANNEL_END: usize = 2;

const DAY_AT: usize = 3;

const CLOCK_AT: usize = 11;

const STOP_AT: usize = 18;

const STOP_CLOCK_AT: usize = 26;

const STOP_CLOCK_END: usize = 32;

const USUAL_START: [u8; 7] = *b"000000,";

const USUAL_END: [u8; 4] = *b",Y,N";

// What a usual row one gives; any other line is for `headers`.
fn usual_one(line: &[u8]) -> Option<One<'_>>
    ensures { (cr : Bool) → UsualOneSays result (line_with line.now cr) }
{
    let n = line.len();
    if n < USUAL_LEAST {
        return None;
    }
    if USUAL_MOST < n {
        return None;
    }
    let end = n - TAIL_SIZE;
    let id = &line[ID_AT..end];
    let tail = &line[end..];
    let digits = &tail[DAY_AT..CLOCK_AT];
    let stop = &tail[STOP_CLOCK_AT..STOP_CLOCK_END];
    let shaped = begins(line, &USUAL_HEAD)
        & all_alnum(id)
        & (tail[0] == b',')
        & (tail[CHANNEL_END] == b',')
        & all_digits(digits)
        & same(&tail[CLOCK_AT..STOP_AT], &USUAL_START)
        & same(&tail[STOP_AT..STOP_CLOCK_AT], digits)
        & all_digits(stop)
        & same(&tail[STOP_CLOCK_END..], &USUAL_END);
    if !shaped {
        return None;
    }
    let day = number_of(digits);
    if !is_date(day) {
        return None;
    }
    if !stops_day(number_of(stop)) {
        return None;
    }
    let channel = read_channel(&tail[CHANNEL_AT..CHANNEL_END]).ok()?;
    Some(One { id, channel, day })
}

pub fn read_one<'a>(line: Line<'a>) -> Result<One<'a>, Verdict>
    ensures { one_says result ≡ row_one (line_of line.entry) }
{
    if let Some(one) = usual_one(line.body) {
        return Ok(one);
    }
    headers::one::read_one(line)
}
