// The numbers by which calendars, periods and modes cross the C boundary, beside the cutover, which crosses as a date. They are functions and no
// From or TryFrom: the kinds belong to crates that know nothing of C, and a calendar takes the cutover beside its number.
#![tactic(auto)]

ghost use Rattle.std.specs.Prelude.{◌≡◌};
ghost use Rattle.codes.specs.Codes.{coded_calendar, calendar_given, coded_period, coded_mode, coded_axis, calendar_code, period_code, mode_code, axis_code};

use axis_types::{Axis, Mode, Period};
use calendar::{Calendar, Date};
use refusal::Refusal;

#[repr(C)]
#[derive(Clone, Copy)]
pub struct UppinaloAxis {
    pub calendar: u32,
    pub period: u32,
    pub mode: u32,
    pub reference: i64,
    pub cutover: Date,
}

// The calendar that a code names; `standard` with the cutover of 1582.
fn calendar_of(code: u32) -> Option<Calendar>
    ensures { result ≡ coded_calendar code }
{
    match code {
        0 => Some(Calendar::Standard(0)),
        1 => Some(Calendar::ProlepticGregorian),
        2 => Some(Calendar::Julian),
        3 => Some(Calendar::NoLeap),
        4 => Some(Calendar::AllLeap),
        5 => Some(Calendar::Day360),
        _ => None,
    }
}

// The same with a cutover; UnknownCalendar, then CutoverNotAllowed. The cutover of 1582 is told first: with it the code alone names the calendar.
pub fn calendar_given(code: u32, x: Date) -> Result<Calendar, Refusal>
    ensures { result ≡ calendar_given code x }
{
    if !cutover::is_first(x) && code == 0 {
        return cutover::standard_of(cutover::days_of(x.year, x.month, x.day));
    }
    match calendar_of(code) {
        None => Err(Refusal::UnknownCalendar),
        Some(c) => Ok(c),
    }
}

fn period_of(code: u32) -> Option<Period>
    ensures { result ≡ coded_period code }
{
    match code {
        0 => Some(Period::Second),
        1 => Some(Period::Millisecond),
        2 => Some(Period::Minute),
        3 => Some(Period::Hour),
        4 => Some(Period::Day),
        5 => Some(Period::Week),
        6 => Some(Period::Month),
        7 => Some(Period::Year),
        _ => None,
    }
}

fn mode_of(code: u32) -> Option<Mode>
    ensures { result ≡ coded_mode code }
{
    match code {
        0 => Some(Mode::Fixed),
        1 => Some(Mode::Calendar),
        _ => None,
    }
}

// The axis that the codes name with the cutover; UnknownCalendar, then IllFormed for the period or the mode, then CutoverNotAllowed.
pub fn axis_of(a: UppinaloAxis) -> Result<Axis, Refusal>
    ensures { result ≡ coded_axis a }
{
    let Some(_) = calendar_of(a.calendar) else {
        return Err(Refusal::UnknownCalendar);
    };
    let Some(period) = period_of(a.period) else {
        return Err(Refusal::IllFormed);
    };
    let Some(mode) = mode_of(a.mode) else {
        return Err(Refusal::IllFormed);
    };
    let calendar = calendar_given(a.calendar, a.cutover)?;
    Ok(Axis {
        calendar,
        period,
        mode,
        reference: a.reference,
    })
}

fn calendar_code(c: Calendar) -> u32
    ensures { result ≡ calendar_code c }
{
    match c {
        Calendar::Standard(_) => 0,
        Calendar::ProlepticGregorian => 1,
        Calendar::Julian => 2,
        Calendar::NoLeap => 3,
        Calendar::AllLeap => 4,
        Calendar::Day360 => 5,
    }
}

fn period_code(p: Period) -> u32
    ensures { result ≡ period_code p }
{
    match p {
        Period::Second => 0,
        Period::Millisecond => 1,
        Period::Minute => 2,
        Period::Hour => 3,
        Period::Day => 4,
        Period::Week => 5,
        Period::Month => 6,
        Period::Year => 7,
    }
}

fn mode_code(m: Mode) -> u32
    ensures { result ≡ mode_code m }
{
    match m {
        Mode::Fixed => 0,
        Mode::Calendar => 1,
    }
}

// The codes of an axis, beside a cutover.
pub fn axis_code(a: Axis, cutover: Date) -> UppinaloAxis
    ensures { result ≡ axis_code a cutover }
{
    let c = a.calendar;
    let p = a.period;
    let m = a.mode;
    UppinaloAxis {
        calendar: calendar_code(c),
        period: period_code(p),
        mode: mode_code(m),
        reference: a.reference,
        cutover,
    }
}
