// Row one: ESI ID, channel, and the day that start and stop span.
ghost use Rattle.std.specs.Prelude.{◌≡◌};
ghost use Rattle.report.specs.Outcome.{says};
ghost use Rattle.headers.specs.One.{channel_number, channel_of, day_of, row_one};
ghost use Rattle.lines.specs.Answer.{line_of};
ghost use Rattle.headers.specs.Answer.{one_says};

use crate::time::{is_below, is_whole_day, read_time};
use lines::line::Line;
use lines::row::begin;
use report::require;
use report::verdict::Verdict;
use text::bytes::same;
use text::names::is_esi_id;

// By its number in a cell's address and in a state's words.
#[derive(Clone, Copy, Debug, PartialEq, Eq)]
pub enum Channel {
    Load = 0,
    Generation = 1,
}

impl From<Channel> for u32 {
    ghost from_gives = { λ c n. n ≡ channel_number c };

    #[tactic(auto, unfolding(crate::specs::One::channel_number))]
    fn from(c: Channel) -> u32 {
        c as u32
    }
}

// The ESI ID, the channel, and the day YYYYMMDD.
#[derive(Clone, Copy)]
pub struct One<'a> {
    pub id: &'a [u8],
    pub channel: Channel,
    pub day: u32,
}

// By two tests: in a `match` on the bytes each case wants a lemma of its own, for its length and its byte.
pub fn read_channel(f: &[u8]) -> Result<Channel, Verdict>
    ensures { says result ≡ channel_of f.now }
{
    if same(f, b"1") {
        return Ok(Channel::Generation);
    }
    if same(f, b"4") {
        return Ok(Channel::Load);
    }
    Err(Verdict::Misfit)
}

// Start, stop, `Y` and `N`.
fn read_day(start: &[u8], stop: &[u8], yes: &[u8], no: &[u8]) -> Result<u32, Verdict>
    ensures { says result ≡ day_of start.now stop.now yes.now no.now }
{
    let from = read_time(start)?;
    let to = read_time(stop)?;
    require(same(yes, b"Y"), Verdict::Misfit)?;
    require(same(no, b"N"), Verdict::Misfit)?;
    require(is_below(from, to), Verdict::NotBelow)?;
    require(is_whole_day(from, to), Verdict::NotOneDay)?;
    Ok(from.date)
}

#[tactic(auto, using(lines::proofs::Begin::fields_counted))]
pub fn read_one<'a>(line: Line<'a>) -> Result<One<'a>, Verdict>
    ensures { one_says result ≡ row_one (line_of line.entry) }
{
    let mut fields = begin(line, b"00000001", 7)?;
    fields.next();
    let id = fields.next();
    let third = fields.next();
    let start = fields.next();
    let stop = fields.next();
    let yes = fields.next();
    let no = fields.next();
    require(is_esi_id(id), Verdict::Misfit)?;
    let channel = read_channel(third)?;
    let day = read_day(start, stop, yes, no)?;
    Ok(One { id, channel, day })
}
