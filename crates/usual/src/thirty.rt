// The usual row thirty.
ghost use Rattle.std.specs.Prelude.{◌≡◌, Bool};
ghost use Rattle.lines.specs.Answer.{line_of, line_with};
ghost use Rattle.headers.specs.Thirty.{row_thirty};
ghost use Rattle.headers.specs.Answer.{thirty_says};
ghost use Rattle.usual.specs.Answer.{UsualThirtySays};

use lines::line::Line;
use report::verdict::Verdict;
use text::bytes::{all_digits, begins, is_empty, same};
use text::names::is_duns;

// Row thirty as nearly every file has it: MRE's and Sender's numbers have nine digits, so that everything stands at a known place.
const USUAL_HEAD: [u8; 35] = *b"00000030,ATTRIBUTE_VALUE_PAIRS,MRE=";

const USUAL_SENDER: [u8; 8] = *b",Sender=";

const USUAL_TAIL: [u8; 24] = *b",Receiver=183529049,REP=";

const MRE_AT: usize = 35;

const MRE_END: usize = 44;

const SENDER_AT: usize = 52;

const SENDER_END: usize = 61;

const REP_AT: usize = 85;

// The Sender's number of a usual row thirty, which passes without a walk along its fields; any other line is for `headers`.
fn usual_thirty(line: &[u8]) -> Option<&[u8]>
    ensures { (cr : Bool) → UsualThirtySays result (line_with line.now cr) }
{
    if line.len() < REP_AT {
        return None;
    }
    let sender = &line[SENDER_AT..SENDER_END];
    let rep = &line[REP_AT..];
    let shaped = begins(line, &USUAL_HEAD)
        & all_digits(&line[MRE_AT..MRE_END])
        & same(&line[MRE_END..SENDER_AT], &USUAL_SENDER)
        & all_digits(sender)
        & same(&line[SENDER_END..REP_AT], &USUAL_TAIL)
        & (is_empty(rep) | is_duns(rep));
    shaped.then_some(sender)
}

pub fn read_thirty<'a>(line: Line<'a>) -> Result<&'a [u8], Verdict>
    ensures { thirty_says result ≡ row_thirty (line_of line.entry) }
{
    if let Some(sender) = usual_thirty(line.body) {
        return Ok(sender);
    }
    headers::thirty::read_thirty(line)
}
