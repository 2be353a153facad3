// The registry checks of a record that has all its rows: 30 to 35.
//
// For whoever changes it: the checks and their order are `meter_checks` of specs/Check.antt and `meter_checks` here.
#![tactic(auto)]

ghost use Rattle.std.specs.Prelude.{◌≡◌, ◌<◌, length};
ghost use Rattle.report.specs.Outcome.{says};
ghost use Rattle.registry.specs.Registry.{meters_of, window_is};
ghost use Rattle.registry.specs.Index.{meter_at};
ghost use Rattle.checks.specs.Check.{has_flag, flag_checks, day_in, meter_checks, judged_says, judge as judged};

use calendar::day_number;
use registry::Index;
use registry::entry::Window;
use report::require;
use report::verdict::{Fault, Verdict};
use text::names::{DUNS_SIZE, ESI_ID_SIZE};

// The flags are bits of the registry's own byte.
const ERCOT_FLAG: u8 = 1;

const INTERVAL_FLAG: u8 = 2;

const IDR_FLAG: u8 = 4;

// The meter of a record that passed, and its window day, each from 0.
#[derive(Clone, Copy, Debug, PartialEq, Eq)]
pub struct Cleared {
    pub meter: usize,
    pub day: usize,
}

fn has_flag(flag: u8, flags: u8) -> bool
    requires { 0 < flag }
    ensures { result ≡ has_flag flag flags }
{
    flags / flag % 2 == 1
}

fn flag_checks(sum: u8) -> Result<(), Verdict>
    ensures { says result ≡ flag_checks sum }
{
    require(!has_flag(ERCOT_FLAG, sum), Verdict::ReadByErcot)?;
    require(has_flag(INTERVAL_FLAG, sum), Verdict::NoIntervalData)?;
    require(has_flag(IDR_FLAG, sum), Verdict::NotIdr)
}

fn window_day(window: Window, date: u32) -> Result<usize, Verdict>
    ensures { says result ≡ day_in window date }
{
    let n = day_number(date).ok_or(Verdict::OutsideWindow)?;
    let day = n.checked_sub(window.first).ok_or(Verdict::OutsideWindow)?;
    require(day < window.days, Verdict::OutsideWindow)?;
    Ok(day as usize)
}

// The checks of a known meter; they give the window day.
fn meter_checks(
    index: &Index<'_>,
    meter: usize,
    sender: &[u8; DUNS_SIZE],
    date: u32,
) -> Result<usize, Verdict>
    requires { meter < length (meters_of index.now.registry.now) }
    ensures { says result ≡ meter_checks (window_is index.now.registry.now) (meter_at index.now.registry.now meter) sender.now date }
{
    require(index.is_owned(meter, sender), Verdict::NotOwner)?;
    flag_checks(index.flags(meter))?;
    window_day(index.window(), date)
}

// The checks of a record: by its ESI ID and Sender, padded as in the registry, and its date.
pub fn judge(
    index: &Index<'_>,
    id: &[u8; ESI_ID_SIZE],
    sender: &[u8; DUNS_SIZE],
    date: u32,
) -> Result<Cleared, Fault>
    ensures { judged_says result ≡ judged index.now.registry.now id.now sender.now date }
{
    let meter = index.find(id).ok_or(Verdict::UnknownMeter)?;
    let number = (meter + 1) as u32;
    let day = meter_checks(index, meter, sender, date).map_err(|verdict| Fault {
        verdict,
        meter: number,
    })?;
    Ok(Cleared { meter, day })
}
