// The calendar that a name or a code has with a cutover (specs/Calendars.antt): the one place where a cutover is tested. `standard` is refused
// with one that is not allowed, and carries another from here on; the other calendars take any date. `with_cutover` is total.
#![tactic(auto)]

ghost use Rattle.std.specs.Prelude.{◌≡◌, true};
ghost use Rattle.calendar.specs.Calendar.{date};
ghost use Rattle.calendar.specs.Cutover.{first_cutover};
ghost use Rattle.cutover.specs.Calendars.{with_cutover};
ghost use Rattle.cutover.specs.Closed.{GregorianDay, allowed_days, standard_of};

use calendar::{Calendar, Date};
use refusal::Refusal;

// 0 among the numbers with their bias.
const ZERO: u64 = 1 << 63;

// 1582-10-15 in `proleptic_gregorian`, with the bias.
const FIRST: u64 = ZERO - 141427;

// The days from there to the last cutover, 1923-12-31.
const MOST_DAYS: u64 = 124624;

// The cutover of 1582, which is the default.
pub fn first_cutover() -> Date
    ensures { result ≡ first_cutover }
{
    Date {
        year: 1582,
        month: 10,
        day: 15,
    }
}

// Whether a cutover is that of 1582. Most axes have it, so a caller may ask for it first.
pub fn is_first(x: Date) -> bool
    ensures { result ≡ true → x ≡ first_cutover }
{
    x == first_cutover()
}

// The day number of a Gregorian date plus 2^63.
fn gregorian_day(x: Date) -> Option<u64>
    ensures { GregorianDay x result }
{
    let n = calendar::found_day(Calendar::ProlepticGregorian, x)?;
    Some(signed::biased(n))
}

// The days from 1582-10-15 to a cutover; none where it is not allowed. A date would go through memory: its fields are handed over one by one.
pub fn days_of(year: i64, month: u32, day: u32) -> Option<u32>
    ensures { result ≡ allowed_days (date year month day) }
{
    let k = gregorian_day(Date { year, month, day })?;
    if k < FIRST {
        return None;
    }
    let days = k - FIRST;
    if MOST_DAYS < days {
        return None;
    }
    if !calendar::cutover::is_allowed(days as u32) {
        return None;
    }
    Some(days as u32)
}

// `standard` with the cutover of so many days; CutoverNotAllowed where there are none, or more than to the last.
pub fn standard_of(k: Option<u32>) -> Result<Calendar, Refusal>
    ensures { result ≡ standard_of k }
{
    match k {
        Some(days) if u64::from(days) <= MOST_DAYS => Ok(Calendar::Standard(days)),
        _ => Err(Refusal::CutoverNotAllowed),
    }
}

// A calendar with a cutover, which `standard` alone looks at.
pub fn with_cutover(c: Calendar, x: Date) -> Result<Calendar, Refusal>
    ensures { result ≡ with_cutover c x }
{
    match c {
        Calendar::Standard(_) => {
            if is_first(x) {
                return Ok(Calendar::Standard(0));
            }
            standard_of(days_of(x.year, x.month, x.day))
        }
        _ => Ok(c),
    }
}
