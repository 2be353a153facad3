// The activity page: a report laid out for print, a line of 80 bytes for each entry, 58 to a page.
//
//     let pages = page(&report, output)?;          // a report of entries, or of words
//     output[..pages * PAGE_SIZE] ..
//
// A refusal is 12 or 11, and the output is as it was.
//
// For whoever changes it: the pages are specs/Page.antt, their lines pagetext/specs/Line.antt. Each line is put straight into its place of the output.
#![tactic(auto)]

ghost use Rattle.std.specs.Prelude.{◌≡◌, ◌++◌, ◌+◌, ◌*◌, ◌<◌, ◌≤◌, length, drop};
ghost use Rattle.report.specs.Outcome.{answers};
ghost use Rattle.report.specs.Output.{output_with};
ghost use Rattle.lines.specs.Text.{row, rows};
ghost use Rattle.pagetext.specs.Line.{line_size};
ghost use Rattle.page.specs.Page.{per_page, page_size, place_of, places, page_of, first_pages, most_pages, paged, pages_in};

use pagetext::{LINE_SIZE, put_blank, put_entry, put_heading};
use report::listed::Listed;
use report::refusal::Refusal;
use report::require;

const PER_PAGE: usize = 58;
// With the heading and the line of spaces below it.
const LINES_PER_PAGE: usize = 2 + PER_PAGE;

pub const PAGE_SIZE: usize = LINES_PER_PAGE * LINE_SIZE;

const MOST_PAGES: usize = 99_999;

// Puts what stands in the place of entry n.
fn put_place<T: Listed>(line: &mut [u8], report: &[T], n: usize)
    requires { length line.old ≡ line_size }
    ensures { line.new ≡ row (place_of (drop n (T.entries report.now))) }
{
    if n < T::count(report) {
        put_entry(line, T::entry(report, n));
    } else {
        put_blank(line);
    }
}

// Puts the places of a page whose first is that of entry `from`.
fn put_places<T: Listed>(lines: &mut [u8], report: &[T], from: usize)
    requires { (length lines.old ≡ per_page * line_size) × (from ≤ most_pages * per_page) }
    ensures { lines.new ≡ rows (places per_page (drop from (T.entries report.now))) }
{
    for i in 0..PER_PAGE {
        let at = i * LINE_SIZE;
        put_place(&mut lines[at..at + LINE_SIZE], report, from + i);
    }
}

fn put_page<T: Listed>(page: &mut [u8], number: u32, report: &[T], from: usize)
    requires { (length page.old ≡ page_size) × (from ≤ most_pages * per_page) }
    ensures { page.new ≡ rows (page_of number (drop from (T.entries report.now))) }
{
    let (heading, below) = page.split_at_mut(LINE_SIZE);
    let (blank, lines) = below.split_at_mut(LINE_SIZE);
    put_heading(heading, number);
    put_blank(blank);
    put_places(lines, report, from);
}

// How many pages a report takes, if it may have as many and there is room for them.
fn pages_of<T: Listed>(report: &[T], room: usize) -> Result<usize, Refusal>
    ensures { answers result ≡ pages_in (T.entries report.now) room }
{
    let pages = T::count(report).div_ceil(PER_PAGE);
    require(pages <= MOST_PAGES, Refusal::TooManyPages)?;
    require(pages * PAGE_SIZE <= room, Refusal::ShortPages)?;
    Ok(pages)
}

// Puts out the first so many pages.
fn put_pages<T: Listed>(output: &mut [u8], report: &[T], pages: usize)
    requires { (pages ≤ most_pages) × (pages * page_size ≤ length output.old) }
    ensures { output.new ≡ rows (first_pages pages (T.entries report.now)) ++ drop (pages * page_size) output.old }
{
    for p in 0..pages {
        let at = p * PAGE_SIZE;
        let page = &mut output[at..at + PAGE_SIZE];
        put_page(page, p as u32 + 1, report, p * PER_PAGE);
    }
}

pub fn page<T: Listed>(report: &[T], output: &mut [u8]) -> Result<usize, Refusal>
    ensures answer { answers result ≡ pages_in (T.entries report.now) (length output.old) }
    ensures bytes { output.new ≡ output_with output.old (paged (T.entries report.now) (length output.old)) }
{
    let pages = pages_of(report, output.len())?;
    put_pages(output, report, pages);
    Ok(pages)
}
