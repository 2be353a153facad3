// Row thirty: names with their DUNS numbers; the Sender's is what the loader wants of it.
ghost use Rattle.std.specs.Prelude.{◌≡◌, true, false};
ghost use Rattle.std.specs.Option.{MatchOption};
ghost use Rattle.headers.specs.Thirty.{behind_name, has_duns, ends_thirty, row_thirty};
ghost use Rattle.lines.specs.Answer.{line_of};
ghost use Rattle.headers.specs.Answer.{thirty_says};

use lines::line::Line;
use lines::row::begin;
use report::require;
use report::verdict::Verdict;
use text::bytes::same;
use text::names::is_duns;

// The DUNS number behind its name, where a field is those two.
fn duns_of<'a>(f: &'a [u8], name: &[u8]) -> Option<&'a [u8]>
    ensures { MatchOption result (has_duns name.now f.now ≡ false) (λ n. (has_duns name.now f.now ≡ true) × (n.now ≡ behind_name name.now f.now)) }
{
    let number = f.strip_prefix(name)?;
    is_duns(number).then_some(number)
}

// Whether a field is a name with its DUNS number.
fn has_duns(f: &[u8], name: &[u8]) -> bool
    ensures { result ≡ has_duns name.now f.now }
{
    duns_of(f, name).is_some()
}

// Receiver and REP, the last two fields.
#[tactic(auto, unfolding(crate::specs::Thirty::ends_thirty))]
fn ends_row(receiver: &[u8], rep: &[u8]) -> bool
    ensures { result ≡ ends_thirty receiver.now rep.now }
{
    same(receiver, b"Receiver=183529049") & (has_duns(rep, b"REP=") | same(rep, b"REP="))
}

#[tactic(auto, using(lines::proofs::Begin::fields_counted))]
pub fn read_thirty<'a>(line: Line<'a>) -> Result<&'a [u8], Verdict>
    ensures { thirty_says result ≡ row_thirty (line_of line.entry) }
{
    let mut fields = begin(line, b"00000030", 6)?;
    fields.next();
    let pairs = fields.next();
    let mre = fields.next();
    let sender = fields.next();
    let receiver = fields.next();
    let rep = fields.next();
    let fits = same(pairs, b"ATTRIBUTE_VALUE_PAIRS")
        & has_duns(mre, b"MRE=")
        & ends_row(receiver, rep);
    require(fits, Verdict::Misfit)?;
    duns_of(sender, b"Sender=").ok_or(Verdict::Misfit)
}
