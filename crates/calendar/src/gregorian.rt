// Dates of `proleptic_gregorian` in any 64-bit year.
ghost use Rattle.std.specs.Prelude.{◌≡◌};
ghost use Rattle.calendar.specs.Calendar.{exists};
ghost use Rattle.calendar.specs.Closed.{IsDaySince};
ghost use Rattle.calendar.specs.declared.Calendar.TheVariants.{ProlepticGregorian};

use crate::rule::Rule;
use crate::{Calendar, Date, ordinal, place};

// Whether a date exists. 2^63 + 192 and 10000 are multiples of 400, so year y, counted from -10000, is of the same kind as that of
// the date.
pub fn exists_in_any_year(x: Date) -> bool
    ensures { result ≡ exists ProlepticGregorian x }
{
    let y = (signed::biased(x.year) % 400 + 192) % 400;
    ordinal::has_day(Rule::Gregorian, y, x.month, x.day)
}

// The day number of a date. A year has at least 365 days, so a day number below 2^63 lies in a year below 2^55 - 10000.
pub fn day_since_1970(x: Date) -> Option<u64>
    ensures { IsDaySince x result }
{
    let k = signed::biased(x.year);
    if k < 0x8000_0000_0000_0000 + 1970 {
        return None;
    }
    if 0x8080_0000_0000_0000 - 10000 <= k {
        return None;
    }
    let y = k - (0x8000_0000_0000_0000 - 10000);
    if !ordinal::has_day(Rule::Gregorian, y, x.month, x.day) {
        return None;
    }
    let p = ordinal::place_at(y, x.month, x.day);
    return Some(
        place::days_before(Rule::Gregorian, p) - crate::epoch_day(Calendar::ProlepticGregorian),
    );
}
