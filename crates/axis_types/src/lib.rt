// The words of document 01 for an axis and its offsets, as types: period, mode, axis, offset, and what reading and writing an offset answer.
// `microseconds` is the length of a period in fixed mode.
#![tactic(auto)]

ghost use Rattle.std.specs.Prelude.{◌≡◌};
ghost use Rattle.axis_types.specs.Lengths.{length_of};
ghost use Rattle.axis_types.specs.Reading.{with_days_back};

use calendar::Calendar;
use refusal::Refusal;

#[derive(Clone, Copy)]
pub enum Period {
    Second,
    Millisecond,
    Minute,
    Hour,
    Day,
    Week,
    Month,
    Year,
}

#[derive(Clone, Copy)]
pub enum Mode {
    Fixed,
    Calendar,
}

#[derive(Clone, Copy)]
pub struct Axis {
    pub calendar: Calendar,
    pub period: Period,
    pub mode: Mode,
    pub reference: i64,
}

#[derive(Clone, Copy)]
pub enum Offset {
    Whole(i64),
    Double(f64),
}

// What an offset is read as when it is read alone: an instant, whether it is the exact time, and the days that the day of the month was
// stepped back.
#[derive(Clone, Copy)]
pub struct OffsetReading {
    pub instant: i64,
    pub exact: bool,
    pub days_back: u32,
}

// A reading whose day is the one asked for.
pub fn unmoved(reading: Result<(i64, bool), Refusal>) -> Result<OffsetReading, Refusal>
    ensures { result ≡ with_days_back reading 0 }
{
    let (instant, exact) = reading?;
    Ok(OffsetReading {
        instant,
        exact,
        days_back: 0,
    })
}

pub fn microseconds(p: Period) -> u64
    ensures { result ≡ length_of p }
{
    match p {
        Period::Second => return 1_000_000,
        Period::Millisecond => return 1_000,
        Period::Minute => return 60_000_000,
        Period::Hour => return 3_600_000_000,
        Period::Day => return 86_400_000_000,
        Period::Week => return 604_800_000_000,
        Period::Month => return 2_629_743_831_225,
        Period::Year => return 31_556_925_974_700,
    }
}
