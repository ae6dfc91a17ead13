// The cutovers of `standard`, by the days that they lie after 1582-10-15.
ghost use Rattle.std.specs.Prelude.{◌≡◌};
ghost use Rattle.calendar.specs.Calendar.{days_used};
ghost use Rattle.calendar.specs.Cutover.{allowed_after};

use crate::rule::Rule;
use crate::{month, place, rule};

// 1582-10-15 by the Gregorian rule, 1582-10-04 by the Julian one, and the days from 1582-10-15 to 1923-12-31.
pub const FIRST: u64 = 4230526;

pub const LAST_KEPT: u64 = 4230602;

const MOST_DAYS: u64 = 124624;

// Whether the cutover k days after 1582-10-15 is allowed. Its date, as the Julian calendar counts it, lies 306 days before the end of the
// year that begins with March, as in the Gregorian; the days up to it are dropped, and must fit into the month of the last day kept.
pub fn is_allowed(k: u32) -> bool
    ensures { result ≡ allowed_after k }
{
    let days = k as u64;
    if MOST_DAYS < days {
        return false;
    }
    let last = place::place_of(Rule::Julian, LAST_KEPT + days);
    let dropped = rule::julian_count(FIRST + 306 + days) - (LAST_KEPT + 307 + days);
    let kind = rule::kind_of_year(Rule::Julian, last.y);
    last.i + dropped < month::month_length(kind, last.m)
}

// The days of the cutover that a calendar uses: the given ones, or 0 where they are not allowed.
pub fn days_used(k: u32) -> u64
    ensures { result ≡ days_used k }
{
    // no Option: by its definition (specs/Calendar.antt) days that are not allowed are read as 0
    if is_allowed(k) { k as u64 } else { 0 }
}
