// The rows of a record that stand whole in the piece, and empty lines between them: header rows, and detail rows, which are read without a look for
// their end.
ghost use Rattle.std.specs.Prelude.{◌≡◌, false, ◌<◌, ◌≤◌, length};
ghost use Rattle.plain.specs.Rows.{header_rows, max_details};
ghost use Rattle.records.specs.Answer.{Few};
ghost use Rattle.runs.specs.Run.{taken_rows, rows_to, FitsFrom, HeaderRead, HeaderTaken, DetailTaken, RowsRan};

use crate::{Passed, gone_by};
use direct::read_direct;
use lines::end::{empty_line, line_end};
use lines::line::Line;
use records::{HEADER_ROWS, MAX_DETAILS, Parts, Progress, put_intervals, row_header};

// A line that was taken: how many bytes it has, its LF included, and how many rows it is, 0 for an empty line. The 0 is no flag: it is added to how many
// rows are read.
#[derive(Clone, Copy)]
pub struct Taken {
    pub size: usize,
    pub rows: u32,
}

// An empty line is no row.
fn empty(size: usize) -> Taken
    ensures { result ≡ taken_rows size 0 }
{
    Taken { size, rows: 0 }
}

// ---- HEADER ROWS

// The header row that is due, given by the bytes before its LF: whether it passes. One that is refused changes nothing.
fn header_row(p: Progress, raw: &[u8], parts: &mut Parts) -> bool
    requires { p.read < header_rows }
    ensures { HeaderRead p raw.now result parts.old parts.new }
{
    row_header(p, Line::ended(raw), parts).is_ok()
}

// The line at a place: the header row that is due, or an empty line; none, if it is for the plain way.
fn take_header(p: Progress, piece: &[u8], at: usize, parts: &mut Parts) -> Option<Taken>
    requires { (p.read < header_rows) × (at ≤ length piece.now) }
    ensures { HeaderTaken p piece.now at parts.old result parts.new }
{
    if let Some(size) = empty_line(piece, at) {
        return Some(empty(size));
    }
    let end = line_end(piece, at)?;
    if header_row(p, &piece[at..end], parts) {
        return Some(Taken {
            size: end - at + 1,
            rows: 1,
        });
    }
    None
}

// Header rows from the place where a line begins, as many as stand whole in the piece and pass. A `while`, as in `read_details`: a step may take an empty
// line, which is no row.
fn read_headers(
    p: Progress,
    lines: u32,
    piece: &[u8],
    at: usize,
    parts: &mut Parts,
) -> Passed<Progress>
    requires { Few p × FitsFrom lines piece.now at }
    ensures { RowsRan p lines piece.now at parts.old result parts.new × (result.all ≡ false) }
{
    let mut r = gone_by(p, lines, at);
    while r.unit.read < HEADER_ROWS {
        let Some(t) = take_header(r.unit, piece, r.at, parts) else {
            return r;
        };
        r.unit.read += t.rows;
        r.lines += 1;
        r.at += t.size;
    }
    r
}

// ---- DETAIL ROWS

// The line at a place: detail row k, or an empty line; none, if it is for the plain way.
fn take_detail(parts: &mut Parts, piece: &[u8], at: usize, k: u32) -> Option<Taken>
    requires { k < max_details }
    ensures { DetailTaken k piece.now at parts.old result parts.new }
{
    let Some(line) = read_direct(piece, at, k) else {
        let size = empty_line(piece, at)?;
        return Some(empty(size));
    };
    put_intervals(&mut parts.words, k, &line.row);
    Some(Taken {
        size: line.size + 1,
        rows: 1,
    })
}

fn rows_read(p: Progress, read: u32, lines: u32, at: usize, all: bool) -> Passed<Progress>
    ensures { result ≡ rows_to p read lines at all }
{
    Passed {
        unit: Progress { read, ..p },
        lines,
        at,
        all,
    }
}

// Detail rows from the place where a line begins, as many as read directly: no more than the day has, nor than a cell has room for.
// It is no one loop with `read_headers`: what is taken, and what is known of it, is another.
// Tried: one value that is updated, as in `read_headers`. The loop that the compiler makes of it puts a word together from halves in each row, and
// large loads are 1 to 3 percent slower.
fn read_details(
    p: Progress,
    lines: u32,
    piece: &[u8],
    at: usize,
    parts: &mut Parts,
) -> Passed<Progress>
    requires { Few p × (header_rows ≤ p.read) × FitsFrom lines piece.now at }
    ensures { RowsRan p lines piece.now at parts.old result parts.new }
{
    let stop = p.due.min(MAX_DETAILS);
    let from = p.read - HEADER_ROWS;
    let mut k = from;
    let mut n = lines;
    let mut e = at;
    while k < stop {
        let Some(t) = take_detail(parts, piece, e, k) else {
            return rows_read(p, HEADER_ROWS + k, n, e, false);
        };
        e += t.size;
        n += 1;
        k += t.rows;
    }
    rows_read(p, HEADER_ROWS + k, n, e, (from < k) & (k == p.due))
}

// The rows of a record, header rows first.
pub fn record_rows(
    p: Progress,
    lines: u32,
    piece: &[u8],
    at: usize,
    parts: &mut Parts,
) -> Passed<Progress>
    requires { Few p × FitsFrom lines piece.now at }
    ensures { RowsRan p lines piece.now at parts.old result parts.new }
{
    let headers = read_headers(p, lines, piece, at, parts);
    if headers.unit.read < HEADER_ROWS {
        return headers;
    }
    read_details(headers.unit, headers.lines, piece, headers.at, parts)
}
