// The rows of a record, one after the other: row one begins it, each later row adds to it, and as the last one is read it is put to the
// registry checks.
//
// A record is kept in two parts: a few numbers that go by value (`Progress`, `Ready`), and its ESI ID, Sender and the words of its cell
// (`Parts`), which are lent. For whoever changes it: the order of the rows is `due_row` of plain/specs/Rows.antt and `row_header` here.
#![tactic(auto)]

ghost use Rattle.std.specs.Prelude.{◌≡◌, true, ◌*◌, ◌<◌, ◌≤◌, length, OnErr};
ghost use Rattle.calendar.specs.Date.{is_date};
ghost use Rattle.text.specs.Byte.{Bytes};
ghost use Rattle.text.specs.Identifier.{esi_id_size};
ghost use Rattle.report.specs.Outcome.{says};
ghost use Rattle.lines.specs.Answer.{line_of};
ghost use Rattle.details.specs.Detail.{per_row};
ghost use Rattle.cell.specs.Read.{with_intervals};
ghost use Rattle.plain.specs.Rows.{header_rows, max_details, or_else, goes_on, begins, first_row, with_row, four_row, thirty_row, checked, after_detail, next_row};
ghost use Rattle.records.specs.Answer.{begun_by, rows_of, header_says, checked_says, row_says, one_more, Few};
ghost use Rattle.records.specs.declared.Parts.{Parts};

use calendar::intervals_on;
use cell::{Cell, Words, put_interval, put_stamp};
use checks::judge;
use details::detail::{PER_ROW, Row, read_detail};
use headers::one::{Channel, One};
use lines::line::Line;
use padded::padding::put_padded;
use registry::Index;
use report::require;
use report::verdict::{Fault, Verdict};
use text::names::{DUNS_SIZE, ESI_ID_SIZE};
use usual::four::read_four;
use usual::one::read_one;
use usual::thirty::read_thirty;
use usual::three::read_three;
use usual::two::read_two;

// Rows two, three, four and thirty.
pub const HEADER_ROWS: u32 = 4;

// No day has more detail rows: a cell has room for so many.
pub const MAX_DETAILS: u32 = Cell::INTERVALS as u32 / PER_ROW;

// A record that takes rows: how many were read behind row one, how many detail rows the day has, and the day as YYYYMMDD.
#[derive(Clone, Copy, Debug, PartialEq, Eq)]
pub struct Progress {
    pub read: u32,
    pub due: u32,
    pub day: u32,
    pub channel: Channel,
}

// A record that has all its rows and has passed the registry checks: its meter, and its day counted from the first of the window, both from 0.
#[derive(Clone, Copy, Debug, PartialEq, Eq)]
pub struct Ready {
    pub meter: u16,
    pub offset: u16,
    pub day: u32,
    pub channel: Channel,
}

// What is lent of a record: its ESI ID and Sender, padded as in the registry, and the words of its cell.
#[derive(Clone, Copy)]
pub struct Parts {
    pub id: [u8; ESI_ID_SIZE],
    pub sender: [u8; DUNS_SIZE],
    pub words: Words,
}

// What a record is behind a row: a further one is due, or it waits.
#[derive(Clone, Copy, Debug, PartialEq, Eq)]
pub enum After {
    GoesOn(Progress),
    Complete(Ready),
}

// Row one's fields begin a record, in whatever another one left.
fn begin_record(one: One<'_>, parts: &mut Parts) -> Progress
    requires fits { length one.id.now ≤ esi_id_size }
    requires real { is_date one.day ≡ true }
    ensures { rows_of result parts.new ≡ begins (begun_by one.entry) }
{
    let count = intervals_on(one.day);
    put_padded(&mut parts.id, one.id);
    put_padded(&mut parts.sender, b"");
    let words = Cell::begun(count).words;
    parts.words = words;
    Progress {
        read: 0,
        due: count / PER_ROW,
        day: one.day,
        channel: one.channel,
    }
}

// An opener, which is row one of a new record.
pub fn row_one(line: Line<'_>, parts: &mut Parts) -> Result<Progress, Verdict>
    ensures { header_says result 0 parts.new ≡ first_row (line_of line.entry) }
{
    let one = read_one(line)?;
    Ok(begin_record(one, parts))
}

// One row more.
fn counted(p: Progress) -> Progress
    requires { Few p }
    ensures { result ≡ one_more p }
{
    Progress {
        read: p.read + 1,
        ..p
    }
}

// Rows two and three, which leave nothing but their being right.
fn row_checked(p: Progress, passes: Result<(), Verdict>) -> Result<Progress, Verdict>
    requires { Few p }
    ensures { (r : Parts) → header_says result p.day r ≡ or_else p.day (says passes) (λ u. goes_on (with_row (rows_of p r) r.words r.sender)) }
{
    passes?;
    Ok(counted(p))
}

// Rows four and thirty are written out: one function over what is read and where it is put would take a closure that writes to the parts, with a contract as
// long as theirs.
fn row_four(p: Progress, line: Line<'_>, parts: &mut Parts) -> Result<Progress, Verdict>
    requires { Few p }
    ensures says { header_says result p.day parts.new ≡ four_row (rows_of p parts.old) (line_of line.entry) }
    ensures stays { OnErr result (parts.new ≡ parts.old) }
    ensures id { parts.new.id ≡ parts.old.id }
{
    let stamp = read_four(line)?;
    put_stamp(&mut parts.words, stamp);
    Ok(counted(p))
}

fn row_thirty(p: Progress, line: Line<'_>, parts: &mut Parts) -> Result<Progress, Verdict>
    requires { Few p }
    ensures says { header_says result p.day parts.new ≡ thirty_row (rows_of p parts.old) (line_of line.entry) }
    ensures stays { OnErr result (parts.new ≡ parts.old) }
    ensures id { parts.new.id ≡ parts.old.id }
{
    let number = read_thirty(line)?;
    put_padded(&mut parts.sender, number);
    Ok(counted(p))
}

// Rows two, three, four and thirty, by how many were read behind row one. One that is refused leaves what is lent as it was.
// That fewer than four were read says that one of these is due.
pub fn row_header(p: Progress, line: Line<'_>, parts: &mut Parts) -> Result<Progress, Verdict>
    requires { p.read < header_rows }
    ensures says { (reg : Bytes) → header_says result p.day parts.new ≡ next_row reg (rows_of p parts.old) (line_of line.entry) }
    ensures stays { OnErr result (parts.new ≡ parts.old) }
    ensures id { parts.new.id ≡ parts.old.id }
{
    match p.read {
        0 => row_checked(p, read_two(line)),
        1 => row_checked(p, read_three(line)),
        2 => row_four(p, line, parts),
        _ => row_thirty(p, line, parts),
    }
}

// All rows are in: the registry checks.
pub fn check(p: Progress, index: &Index<'_>, parts: &Parts) -> Result<Ready, Fault>
    ensures { checked_says result p.day parts.now ≡ checked index.now.registry.now (rows_of p parts.now) }
{
    let cleared = judge(index, &parts.id, &parts.sender, p.day)?;
    Ok(Ready {
        meter: cleared.meter as u16,
        offset: cleared.day as u16,
        day: p.day,
        channel: p.channel,
    })
}

// Puts the intervals of detail row k, from 0. That k is a row of a cell is what indexing asks.
pub fn put_intervals(words: &mut Words, k: u32, row: &Row)
    requires { k < max_details }
    ensures { words.new ≡ with_intervals words.old (k * per_row) row.now }
{
    let first = (k * PER_ROW) as usize;
    for (i, interval) in row.iter().enumerate() {
        put_interval(words, first + i, *interval);
    }
}

// Detail row k is read and its intervals are put: it was the last, or another is due.
fn after_detail(p: Progress, k: u32, index: &Index<'_>, parts: &Parts) -> Result<After, Fault>
    requires { Few p × (k < max_details) }
    ensures { row_says result p.day parts.now ≡ after_detail index.now.registry.now k (rows_of (one_more p) parts.now) }
{
    if k + 1 == p.due {
        return Ok(After::Complete(check(p, index, parts)?));
    }
    Ok(After::GoesOn(counted(p)))
}

// The detail row that is due.
fn row_detail(
    p: Progress,
    line: Line<'_>,
    index: &Index<'_>,
    parts: &mut Parts,
) -> Result<After, Fault>
    requires { Few p × (header_rows ≤ p.read) }
    ensures says { row_says result p.day parts.new ≡ next_row index.now.registry.now (rows_of p parts.old) (line_of line.entry) }
    ensures id { parts.new.id ≡ parts.old.id }
{
    let k = p.read - HEADER_ROWS;
    let row = read_detail(line, k)?;
    require(k < MAX_DETAILS, Verdict::WrongCode)?;
    put_intervals(&mut parts.words, k, &row);
    after_detail(p, k, index, parts)
}

// The row that is due.
pub fn row_next(
    p: Progress,
    line: Line<'_>,
    index: &Index<'_>,
    parts: &mut Parts,
) -> Result<After, Fault>
    requires { Few p }
    ensures says { row_says result p.day parts.new ≡ next_row index.now.registry.now (rows_of p parts.old) (line_of line.entry) }
    ensures id { parts.new.id ≡ parts.old.id }
{
    if p.read < HEADER_ROWS {
        return Ok(After::GoesOn(row_header(p, line, parts)?));
    }
    row_detail(p, line, index, parts)
}
