// The entries of a report as lines of text, put into lent bytes of any length.
//
//     let q = put_entries(&mut out, &report, i, count);      // the lines of entries i to i + q.entries, as many as there is room for
//     rt.write_all(&out[..q.end])?;
ghost use Rattle.std.specs.Prelude.{◌+◌, ◌*◌, ◌≤◌, length};
ghost use Rattle.report.specs.Words.{per_entry};
ghost use Rattle.entrytext.specs.Listing.{longest, Lists};

use crate::{LONGEST, Listed, put_line};
use digits::Text;
use digits::lent::put;
use report::words::entry_at;

// Puts the lines of a report's entries, from one of them on up to `count`, as long as there is room for a longest line.
pub fn put_entries(out: &mut [u8], report: &[u32], from: usize, count: usize) -> Listed
    requires { (longest ≤ length out.old) × (from ≤ count) × (count * per_entry ≤ length report.now) }
    ensures { Lists report.now from count out.old out.new result }
{
    let mut end = 0;
    for n in from..count {
        if out.len() - end < LONGEST {
            return Listed {
                entries: n - from,
                end,
            };
        }
        let mut line = Text::<LONGEST>::new();
        put_line(&mut line, entry_at(report, n));
        end = put(out, end, line.bytes());
    }
    Listed {
        entries: count - from,
        end,
    }
}
