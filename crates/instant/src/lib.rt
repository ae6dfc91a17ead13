// Instants: counts of microseconds since the start of 1970 in a calendar, their range, and their fields. `fields_of` and `instant_of` are
// total, and each undoes the other.
#![tactic(auto)]

ghost use Rattle.std.specs.Prelude.{◌≡◌, ◌<◌};
ghost use Rattle.std.proofs.Math.IntN.{sub_ℕ};
ghost use Rattle.std.specs.Int.Signed.{mag};
ghost use Rattle.signed.specs.Bias.{unbiased};
ghost use Rattle.calendar.specs.Closed.{epoch_day, end_day};
ghost use Rattle.instant.specs.Instant.{day_length, day_of, time_of, instant_at, in_range, clock_time, is_clock, fields_at, fields_answer, instant_answer};
ghost use Rattle.instant.specs.Closed.{first_instant, last_instant, fields_refusal, FoundAt};

use calendar::{Calendar, Date};
use refusal::Refusal;

#[repr(C)]
#[derive(Clone, Copy)]
pub struct Fields {
    pub year: i64,
    pub month: u32,
    pub day: u32,
    pub hour: u32,
    pub minute: u32,
    pub second: u32,
    pub microsecond: u32,
}

// The instant of a day, counted from 1970-01-01, at a time of day.
pub fn instant_at(day: i64, time: u64) -> i64
    requires { (mag day < 5000000) × (time < day_length) }
    ensures { result ≡ instant_at day time }
{
    // the day counted from day -5000000
    let n = signed::biased(day) - (0x8000_0000_0000_0000 - 5000000);
    signed::unbiased(n * 86400000000 + time + (0x8000_0000_0000_0000 - 432000000000000000))
}

// The day of an instant, biased by 2^63, and its time of day.
#[derive(Clone, Copy)]
pub struct DayTime {
    pub day: u64,
    pub time: u64,
}

pub fn day_and_time(t: i64) -> DayTime
    ensures { (unbiased result.day ≡ day_of t) × (result.time ≡ time_of t) }
{
    // 2^63 microseconds are 106751991 days and 14454775808 microseconds
    let k = signed::biased(t);
    if k < 14454775808 {
        return DayTime {
            day: 0x8000_0000_0000_0000 - 106751992,
            time: k + (86400000000 - 14454775808),
        };
    }
    let n = k - 14454775808;
    return DayTime {
        day: n / 86400000000 + (0x8000_0000_0000_0000 - 106751991),
        time: n % 86400000000,
    };
}

// The instant of a calendar's day n, counted from its first place, at a time of day.
fn instant_on(c: Calendar, n: u64, time: u64) -> i64
    requires { (n < end_day c) × (time < day_length) }
    ensures { result ≡ instant_at (sub_ℕ n (epoch_day c)) time }
{
    instant_at(
        signed::unbiased(0x8000_0000_0000_0000 + n - calendar::epoch_day(c)),
        time,
    )
}

// The first microsecond of year -9999.
pub fn first_instant(c: Calendar) -> i64
    ensures { result ≡ first_instant c }
{
    instant_on(c, calendar::first_day(c), 0)
}

// The last microsecond of year 9999.
pub fn last_instant(c: Calendar) -> i64
    ensures { result ≡ last_instant c }
{
    instant_on(c, calendar::end_day(c) - 1, 86399999999)
}

// Whether an instant lies in the years -9999 to 9999. From 4000000 days before 1970 to 2800000 days after it they do in every calendar.
pub fn in_range(c: Calendar, t: i64) -> bool
    ensures { result ≡ in_range c t }
{
    if t < -345600000000000000 {
        return first_instant(c) <= t;
    }
    if t < 241920000000000000 {
        return true;
    }
    return t <= last_instant(c);
}

// The fields of the time s of a day, in microseconds.
fn fields_at(d: Date, s: u64) -> Fields
    requires { s < 86400000000 }
    ensures { result ≡ fields_at d s }
{
    Fields {
        year: d.year,
        month: d.month,
        day: d.day,
        hour: (s / 3600000000) as u32,
        minute: (s / 60000000 % 60) as u32,
        second: (s / 1000000 % 60) as u32,
        microsecond: (s % 1000000) as u32,
    }
}

// The fields of an instant; OutOfRange where its year lies past -9999 to 9999.
pub fn fields_of(c: Calendar, t: i64) -> Result<Fields, Refusal>
    ensures { result ≡ fields_answer c t }
{
    let s = day_and_time(t);
    let d = calendar::date_of_biased_day(c, s.day)?;
    Ok(fields_at(d, s.time))
}

// Whether the fields name a time of day.
fn is_clock(f: Fields) -> bool
    ensures { result ≡ is_clock f }
{
    if 24 <= f.hour {
        return false;
    }
    if 60 <= f.minute {
        return false;
    }
    if 60 <= f.second {
        return false;
    }
    return f.microsecond < 1000000;
}

// The time of day of fields, in microseconds.
pub fn clock_time(f: Fields) -> u64
    ensures { result ≡ clock_time f }
{
    (((f.hour as u64) * 60 + (f.minute as u64)) * 60 + (f.second as u64)) * 1000000
        + (f.microsecond as u64)
}

// The instant of fields that have others beside them; `rest` says that each of these is possible.
pub fn found_instant(c: Calendar, f: Fields, rest: bool) -> Option<i64>
    ensures { FoundAt rest c f result }
{
    if !rest {
        return None;
    }
    if !is_clock(f) {
        return None;
    }
    let d = Date {
        year: f.year,
        month: f.month,
        day: f.day,
    };
    let n = calendar::found_day(c, d)?;
    Some(instant_at(n, clock_time(f)))
}

// Why fields for which no instant is found are refused, or for what stands beside them: as their date is, which has the time of day and the
// rest beside it.
pub fn fields_refusal(c: Calendar, f: Fields, rest: bool) -> Refusal
    ensures { result ≡ fields_refusal rest c f }
{
    let d = Date {
        year: f.year,
        month: f.month,
        day: f.day,
    };
    if !rest {
        return calendar::refusal_with(c, d, false);
    }
    return calendar::refusal_with(c, d, is_clock(f));
}

// The instant of fields alone, or their refusal.
pub fn instant_of(c: Calendar, f: Fields) -> Result<i64, Refusal>
    ensures { result ≡ instant_answer c f }
{
    match found_instant(c, f, true) {
        Some(t) => return Ok(t),
        None => return Err(fields_refusal(c, f, true)),
    }
}
