// The unit that is open, a record or a stray run, and what one line of the file does to it.
//
// A unit goes by value; of a record it keeps a few numbers, while ESI ID, Sender and the words of its cell are lent. A line does two things, in this
// order: it may end the unit (`ended_by`), which is then closed, and loaded if it waited; and it is read (`step`). Only `load_waiting` writes the
// table, so a read enters it at two places: here in `read_line`, and at the end of a file.
//
// For whoever changes it: the rules are `step_kind` of plain/specs/Loader.antt, and `step` here goes by the same cases; that a line's two parts are all that
// it does is `step-parts` of proofs/Kept.antt.
#![tactic(auto)]

ghost use Rattle.std.specs.Prelude.{◌≡◌, Ok, ℕ, suc, ◌≤◌};
ghost use Rattle.lines.specs.Answer.{line_of};
ghost use Rattle.plain.specs.Rows.{max_details, refused_with, first_row, rules_of};
ghost use Rattle.plain.specs.Table.{load_all};
ghost use Rattle.plain.specs.Loader.{close, settle as settles, entries_of, loads_of, step_line};
ghost use Rattle.plain.specs.Promise.{details_in};
ghost use Rattle.records.specs.Answer.{row_says};
ghost use Rattle.records.specs.declared.Parts.{Parts};
ghost use Rattle.units.specs.Answer.{unit_of, told, told_by, ended, read_by, judged_if, quiet_step, Reads, Does, refused_by, refused_at, stray_from, surplus_at, quietly, HasRoom};

use cells::{Address, cell_number};
use lines::line::{Kind, Line, kind_of};
use reads::load;
use records::{After, Parts, Progress, Ready, check, row_next, row_one};
use registry::Index;
use report::Entry;
use report::verdict::{Fault, LOADED, Verdict};

// None; a record that takes rows, with its first line; a record that waits, with its first line and its last row's; or one that skips.
#[derive(Clone, Copy, Debug, PartialEq, Eq)]
pub enum Unit {
    None,
    Takes(u32, Progress),
    Waits(u32, u32, Ready),
    Skips,
}

// What a line leaves as it is read: the unit, and the entry of the verdict that fell, if one did.
#[derive(Clone, Copy, Debug, PartialEq, Eq)]
pub struct Stepped {
    pub unit: Unit,
    pub said: Option<Entry>,
}

// What a line leaves in all: the unit, and the verdicts of the unit that it ended and of its own, in this order.
#[derive(Clone, Copy, Debug, PartialEq, Eq)]
pub struct LineRead {
    pub unit: Unit,
    pub first: Option<Entry>,
    pub second: Option<Entry>,
}

// ---- THE UNIT ENDS

// The unit that a line of a kind ends before it is read: an opener ends any, a line that is neither empty nor a detail line one that waits.
fn ended_by(kind: Kind, unit: Unit) -> Unit
    ensures { (r : Parts) → unit_of result r ≡ ended kind (unit_of unit r) }
{
    match (kind, unit) {
        (Kind::Opener, _) => unit,
        (Kind::Other, Unit::Waits(_, _, _)) => unit,
        _ => Unit::None,
    }
}

// The report counts meters from 1.
fn meter_number(ready: Ready) -> u32
    ensures { result ≡ suc ready.meter }
{
    u32::from(ready.meter) + 1
}

// A unit ends at an opener, line n, or at finish, n then being one past the lines: one that takes rows gets 12, one that waits 0.
pub fn closing(unit: Unit, n: u32) -> Option<Entry>
    ensures { (r : Parts) → told result ≡ entries_of (close n (unit_of unit r)) }
{
    match unit {
        Unit::None | Unit::Skips => None,
        Unit::Takes(first, p) => Some(Entry {
            first,
            verdict: u32::from(Verdict::Short),
            at: n,
            meter: 0,
            day: p.day,
        }),
        Unit::Waits(first, last, ready) => Some(Entry {
            first,
            verdict: LOADED,
            at: last,
            meter: meter_number(ready),
            day: ready.day,
        }),
    }
}

// Loads the read of a unit that ends, if it waited. A state that comes from no calls may name a cell that the registry has not: nothing is loaded then.
pub fn load_waiting(unit: Unit, index: &Index<'_>, parts: &Parts, table: &mut [u32])
    requires { HasRoom index.now.registry.now table.old }
    ensures { (n : ℕ) → table.new ≡ load_all (rules_of index.now.registry.now) table.old (loads_of (close n (unit_of unit parts.now))) }
{
    let Unit::Waits(_, _, ready) = unit else {
        return;
    };
    let at = Address {
        meter: usize::from(ready.meter),
        channel: u32::from(ready.channel) as usize,
        day: usize::from(ready.offset),
    };
    let meters = index.meters();
    let days = index.window().days as usize;
    if at.meter < meters {
        if at.day < days {
            load(table, cell_number(meters, days, at), &parts.words);
        }
    }
}

// ---- THE LINE IS READ

// A record that began at line `first` is refused at line n, by a number that need be no verdict's.
fn refused_by(first: u32, verdict: u32, n: u32, meter: u32, day: u32) -> Stepped
    ensures { result ≡ refused_by first verdict n meter day }
{
    Stepped {
        unit: Unit::Skips,
        said: Some(Entry {
            first,
            verdict,
            at: n,
            meter,
            day,
        }),
    }
}

// The same by a verdict.
fn refused(first: u32, fault: Fault, n: u32, day: u32) -> Stepped
    ensures { result ≡ refused_at first fault n day }
{
    refused_by(first, u32::from(fault.verdict), n, fault.meter, day)
}

// The unit behind a row at line n, which began at line `first`.
fn unit_after(first: u32, n: u32, after: After) -> Unit
    ensures { (r : Parts) (day : ℕ) → settles first n (row_says (Ok after) day r) ≡ quiet_step (unit_of result r) }
{
    match after {
        After::GoesOn(p) => Unit::Takes(first, p),
        After::Complete(ready) => Unit::Waits(first, n, ready),
    }
}

// What a row at line n makes of its unit, which began at line `first`.
pub fn settle(first: u32, n: u32, row: Result<After, Fault>, day: u32) -> Stepped
    ensures { (r : Parts) → Reads (settles first n (row_says row day r)) (unit_of result.unit r) (told result.said) }
{
    match row {
        Err(fault) => refused(first, fault, n, day),
        Ok(after) => quiet(unit_after(first, n, after)),
    }
}

// The same of a row that is refused by any number, verdict or not.
pub fn settle_refused(first: u32, n: u32, verdict: u32, meter: u32, day: u32) -> Stepped
    ensures { (r : Parts) → Reads (settles first n (refused_with verdict meter day)) (unit_of result.unit r) (told result.said) }
{
    refused_by(first, verdict, n, meter, day)
}

// A stray run begins at line n. It has no day: 0, as in the entry.
fn stray(n: u32) -> Stepped
    ensures { result ≡ stray_from n }
{
    refused(n, Fault::from(Verdict::Stray), n, 0)
}

// A detail line behind a record that waits.
fn surplus(first: u32, n: u32, ready: Ready) -> Stepped
    ensures { result ≡ surplus_at first n ready }
{
    let fault = Fault {
        verdict: Verdict::Surplus,
        meter: meter_number(ready),
    };
    refused(first, fault, n, ready.day)
}

// A line of which nothing is said.
fn quiet(unit: Unit) -> Stepped
    ensures { result ≡ quietly unit }
{
    Stepped { unit, said: None }
}

// An opener is row one of a new unit. One that is refused has no day: 0, as in the entry.
fn open(n: u32, line: Line<'_>, parts: &mut Parts) -> Stepped
    ensures { Reads (settles n n (first_row (line_of line.entry))) (unit_of result.unit parts.new) (told result.said) }
{
    let row = row_one(line, parts).map(After::GoesOn).map_err(Fault::from);
    settle(n, n, row, 0)
}

// Line n of the file is read, once the unit that it ends has ended. Tried: a match on the pair of kind and unit. The borrow checker has no rule for an arm
// of it that binds what the unit holds.
fn step(
    unit: Unit,
    kind: Kind,
    n: u32,
    line: Line<'_>,
    index: &Index<'_>,
    parts: &mut Parts,
) -> Stepped
    requires { details_in (unit_of unit parts.old) ≤ max_details }
    ensures { Reads (read_by (rules_of index.now.registry.now) kind n (line_of line.entry) (unit_of unit parts.old)) (unit_of result.unit parts.new) (told result.said) }
{
    match kind {
        Kind::Empty => quiet(unit),
        Kind::Opener => open(n, line, parts),
        Kind::Detail | Kind::Other => match unit {
            Unit::None => stray(n),
            Unit::Takes(first, p) => {
                let row = row_next(p, line, index, parts);
                settle(first, n, row, p.day)
            }
            Unit::Waits(first, _, ready) => match kind {
                Kind::Detail => surplus(first, n, ready),
                _ => stray(n),
            },
            Unit::Skips => quiet(unit),
        },
    }
}

// All rows of a record are in, the last of them at line n, if `all` says so: the registry checks. What holds of any other unit is left.
pub fn judged(unit: Unit, all: bool, n: u32, index: &Index<'_>, parts: &Parts) -> Stepped
    ensures { Reads (judged_if all index.now.registry.now n (unit_of unit parts.now)) (unit_of result.unit parts.now) (told result.said) }
{
    if !all {
        return quiet(unit);
    }
    let Unit::Takes(first, p) = unit else {
        return quiet(unit);
    };
    let row = check(p, index, parts).map(After::Complete);
    settle(first, n, row, p.day)
}

// Line n of the file: the unit that it ends, and then the line itself.
pub fn read_line(
    unit: Unit,
    n: u32,
    line: Line<'_>,
    index: &Index<'_>,
    parts: &mut Parts,
    table: &mut [u32],
) -> LineRead
    requires room { HasRoom index.now.registry.now table.old }
    requires details { details_in (unit_of unit parts.old) ≤ max_details }
    ensures { Does (rules_of index.now.registry.now) (step_line (rules_of index.now.registry.now) n (line_of line.entry) (unit_of unit parts.old)) (unit_of result.unit parts.new) (told_by result) table.old table.new }
{
    let kind = kind_of(line.body);
    let before = ended_by(kind, unit);
    load_waiting(before, index, parts, table);
    let first = closing(before, n);
    let next = step(unit, kind, n, line, index, parts);
    LineRead {
        unit: next.unit,
        first,
        second: next.said,
    }
}
