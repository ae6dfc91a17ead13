// From a date of year y, counted from -10000, to its day.
ghost use Rattle.std.specs.Prelude.{◌≡◌, true, ◌<◌, ◌≤◌, ◌^◌};
ghost use Rattle.calendar.specs.Calendar.{has_year_zero, dropped, date};
ghost use Rattle.calendar.specs.Answers.{is_possible};
ghost use Rattle.calendar.specs.Closed.{year_at, day_place, has_day_at, before_place, counts, early_day, DayOrNone};

use crate::place::Place;
use crate::rule::Rule;
use crate::{Calendar, place, row};

// Whether some date has this month, and some date this day.
pub fn is_possible(month: u32, day: u32) -> bool
    ensures { result ≡ is_possible month day }
{
    1 <= month && month <= 12 && 1 <= day && day <= 31
}

// The place of a date.
pub fn place_at(y: u64, month: u32, day: u32) -> Place
    requires { is_possible month day ≡ true }
    ensures { result ≡ day_place y month day }
{
    Place {
        y,
        m: (month - 1) as usize,
        i: (day - 1) as u64,
    }
}

// Whether a date exists by a rule of years.
pub fn has_day(r: Rule, y: u64, month: u32, day: u32) -> bool
    ensures { result ≡ has_day_at r y month day }
{
    is_possible(month, day) && place::is_proper(r, place_at(y, month, day))
}

// The day number of a place of the early part plus 2^63; none where the early rule does not have it, or has it after the last day kept.
fn early_day(c: Calendar, p: Place) -> Option<u64>
    requires { (1 ≤ p.y) × ((p.y < 2 ^ 31) × ((p.m < 12) × (p.i < 31))) }
    ensures { result ≡ early_day (counts c) p }
{
    let early = row::rule_of(c, true);
    if !place::is_proper(early, p) {
        return None;
    }
    let n = place::days_before(early, p) - row::lag_of(c);
    if !row::is_early_day(c, n) {
        return None;
    }
    Some(n + crate::origin(c))
}

// The day number of a date plus 2^63; none where the date does not exist.
// What the late rule counts before the late part is early, if it exists at all.
pub fn biased_day(c: Calendar, y: u64, month: u32, day: u32) -> Option<u64>
    requires { (1 ≤ y) × (y < 2 ^ 31) }
    ensures { DayOrNone c (date (year_at (has_year_zero c) y) month day) result }
{
    if !is_possible(month, day) {
        return None;
    }
    let p = place_at(y, month, day);
    let r = row::rule_of(c, false);
    let n = place::days_before(r, p);
    if row::is_early_day(c, n) {
        return early_day(c, p);
    }
    if !place::is_proper(r, p) {
        return None;
    }
    Some(n + crate::origin(c))
}

// Whether a date comes before a place, as it is written.
fn is_before(y: u64, month: u32, day: u32, p: Place) -> bool
    ensures { result ≡ before_place y month day p }
{
    if y != p.y {
        return y < p.y;
    }
    let m = month as usize;
    if m <= p.m {
        return true;
    }
    if p.m < m - 1 {
        return false;
    }
    day as u64 <= p.i
}

// Whether a date is one that the calendar dropped: before the cutover, as it is written, the early rule has it, and it does not exist.
pub fn is_dropped(c: Calendar, y: u64, month: u32, day: u32) -> bool
    requires { (1 ≤ y) × (y < 2 ^ 31) }
    ensures { result ≡ dropped c (date (year_at (has_year_zero c) y) month day) }
{
    is_before(y, month, day, row::from_of(c))
        && has_day(row::rule_of(c, true), y, month, day)
        && biased_day(c, y, month, day).is_none()
}
