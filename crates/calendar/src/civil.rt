// From a day, counted from the first place of the calendar's late rule, to its date.
ghost use Rattle.std.specs.Prelude.{◌≡◌, cond, ◌+◌, ◌<◌, ◌^◌};
ghost use Rattle.std.proofs.Math.IntN.{sub_ℕ};
ghost use Rattle.calendar.specs.Calendar.{has_year_zero};
ghost use Rattle.calendar.specs.Closed.{year_at, label, unpacked_place, counts, lag, epoch_day, PlaceOfDay};

use crate::{Calendar, Date, place, row};

// The name of year y, in a calendar with or without a year 0.
pub fn year_name(zero: bool, y: u64) -> i64
    requires { y < 2 ^ 31 }
    ensures { result ≡ year_at zero y }
{
    if zero {
        return signed::unbiased(y + (0x8000_0000_0000_0000 - 10000));
    }
    if y <= 10000 {
        return signed::unbiased(y + (0x8000_0000_0000_0000 - 10001));
    }
    return signed::unbiased(y + (0x8000_0000_0000_0000 - 10000));
}

// The count of day n by the rule of its part, the early or the late one.
fn day_by_rule(c: Calendar, n: u64, early: bool) -> u64
    requires { n < 2 ^ 30 }
    ensures { result ≡ cond early (n + lag (counts c)) n }
{
    if early {
        return n + row::lag_of(c);
    }
    return n;
}

// The place of day n of a calendar, as one number: an answer in a register, where a place and a date would go through memory.
pub fn packed_place(c: Calendar, n: u64) -> u64
    requires { n < 2 ^ 30 }
    ensures { PlaceOfDay c (sub_ℕ n (epoch_day c)) result }
{
    let early = row::is_early_day(c, n);
    let p = place::place_of(row::rule_of(c, early), day_by_rule(c, n, early));
    512 * p.y + 32 * p.m as u64 + p.i
}

// The date of such a place.
pub fn date_of_packed(c: Calendar, w: u64) -> Date
    requires { w < 2 ^ 40 }
    ensures { result ≡ label (has_year_zero c) (unpacked_place w) }
{
    Date {
        year: year_name(crate::has_year_zero(c), w / 512),
        month: (w / 32 % 16 + 1) as u32,
        day: (w % 32 + 1) as u32,
    }
}
