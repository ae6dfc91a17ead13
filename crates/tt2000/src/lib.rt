// TT2000, nanoseconds from 2000-01-01T12:00:00 in Terrestrial Time, read as fields of UTC and written from them, by a lent list of leap seconds
// (specs/Tt2000.antt). Both calls are total, and each undoes the other.
#![tactic(auto)]

ghost use Rattle.std.specs.Prelude.{◌≡◌, true, false, ◌&&◌, ◌≤◌, ◌<◌, pos};
ghost use Rattle.leap_seconds.specs.Leaps.{leaps};
ghost use Rattle.calendar.specs.Calendar.{in_years, exists, date_of};
ghost use Rattle.calendar.specs.declared.Calendar.TheVariants.{ProlepticGregorian};
ghost use Rattle.tt2000.specs.Closed.{RefusedFor};
ghost use Rattle.tt2000.specs.Tt2000.{minute_of, utc_fields_at, read_tt2000, date_of_utc, day_second, is_leap_date, is_second, is_utc_time, tt_of, limited, write_tt2000};

use calendar::{Calendar, Date};
use leap_seconds::{LeapList, Moment};
use refusal::Refusal;

#[repr(C)]
#[derive(Clone, Copy)]
pub struct UtcFields {
    pub year: i64,
    pub month: u32,
    pub day: u32,
    pub hour: u32,
    pub minute: u32,
    pub second: u32,
    pub nanosecond: u32,
}

// The minute of the day that a second of it belongs to.
fn minute_of(q: u64) -> u64
    ensures { result ≡ minute_of q }
{
    if q < 86400 {
        return q / 60;
    }
    return 1439;
}

// The fields of a nanosecond of a moment.
fn utc_fields(m: Moment, n: u64) -> UtcFields
    requires { (m.day < 1000000) × (m.second ≤ 86400) × (n < 1000000000) }
    ensures { result ≡ utc_fields_at m n }
{
    let c = Calendar::ProlepticGregorian;
    let w = calendar::place_in_years(c, m.day + 0x8000_0000_0000_0000);
    let x = calendar::civil::date_of_packed(c, w);
    let minute = minute_of(m.second);
    let second = m.second - minute * 60;
    UtcFields {
        year: x.year,
        month: x.month,
        day: x.day,
        hour: (minute / 60) as u32,
        minute: (minute % 60) as u32,
        second: second as u32,
        nanosecond: n as u32,
    }
}

// The fields of a TT2000. The beginning of 1972 is 883655957816000000 nanoseconds before 0.
pub fn read_tt2000(s: &[u8], t: i64) -> Result<UtcFields, Refusal>
    ensures { result ≡ read_tt2000 s.now t }
{
    let Some(list) = LeapList::of(s) else {
        return Err(Refusal::BadLeapSeconds);
    };
    let k = signed::biased(t);
    if k < 0x8000_0000_0000_0000 - 883655957816000000 {
        return Err(Refusal::Before1972);
    }
    let n = k - (0x8000_0000_0000_0000 - 883655957816000000);
    let m = list.moment_at(n / 1000000000);
    return Ok(utc_fields(m, n % 1000000000));
}

// Whether a date, of any year, ends with a leap second.
fn is_leap_date(list: LeapList, x: Date) -> bool
    ensures { result ≡ is_leap_date (leaps list.entry.bytes.now) x }
{
    match calendar::gregorian::day_since_1970(x) {
        None => return false,
        Some(n) => return list.is_leap_day(n),
    }
}

fn date_of(f: UtcFields) -> Date
    ensures { result ≡ date_of_utc f }
{
    Date {
        year: f.year,
        month: f.month,
        day: f.day,
    }
}

// Whether the second is good: 60 only as 23:59:60 of such a date.
fn is_second(list: LeapList, f: UtcFields) -> bool
    ensures { result ≡ is_second (leaps list.entry.bytes.now) f }
{
    if f.second < 60 {
        return true;
    }
    if f.hour != 23 {
        return false;
    }
    if f.minute != 59 {
        return false;
    }
    if f.second != 60 {
        return false;
    }
    return is_leap_date(list, date_of(f));
}

// Whether the time of day is one that the date may have.
fn is_utc_time(list: LeapList, f: UtcFields) -> bool
    ensures { result ≡ is_utc_time (leaps list.entry.bytes.now) f }
{
    if 24 <= f.hour {
        return false;
    }
    if 60 <= f.minute {
        return false;
    }
    if 1000000000 <= f.nanosecond {
        return false;
    }
    return is_second(list, f);
}

// The TT2000 of the time of day of fields on a day.
fn tt2000_on(list: LeapList, f: UtcFields, day: u64) -> Result<i64, Refusal>
    requires { (is_utc_time (leaps list.bytes.now) f ≡ true) × (730 ≤ day) × (day < 5000000) }
    ensures { result ≡ limited (tt_of (leaps list.entry.bytes.now) (pos day) (day_second f) f.nanosecond) }
{
    let second = (f.hour as u64 * 60 + f.minute as u64) * 60 + f.second as u64;
    let t = day * 86400 + second + list.count_on(day);
    // 2^63 nanoseconds after 0 is second 10170100004 and 670775808 nanoseconds from the beginning of 1970, leap seconds counted
    if 10170100004 < t {
        return Err(Refusal::OutOfRange);
    }
    let n = t * 1000000000 + f.nanosecond as u64;
    if 10170100004670775808 <= n {
        return Err(Refusal::OutOfRange);
    }
    return Ok(signed::unbiased(n + (0x8000_0000_0000_0000 - 946727967816000000)));
}

// The TT2000 of the time of day of fields on the day of their date.
fn write_found(list: LeapList, f: UtcFields, n: i64) -> Result<i64, Refusal>
    requires { (is_utc_time (leaps list.bytes.now) f ≡ true) × ((in_years f.year && exists ProlepticGregorian (date_of_utc f)) ≡ true) × (date_of ProlepticGregorian n ≡ date_of_utc f) }
    ensures { result ≡ write_tt2000 list.entry.bytes.now f }
{
    let k = signed::biased(n);
    if k < 0x8000_0000_0000_0000 + 730 {
        return Err(Refusal::Before1972);
    }
    return tt2000_on(list, f, k - 0x8000_0000_0000_0000);
}

// Why a date that is not found is refused: it does not exist, or its year lies past -9999 to 9999.
fn refusal_of(x: Date) -> Refusal
    requires { (in_years x.year && exists ProlepticGregorian x) ≡ false }
    ensures { RefusedFor x result }
{
    if !calendar::ordinal::is_possible(x.month, x.day) {
        return Refusal::ImpossibleField;
    }
    if !calendar::gregorian::exists_in_any_year(x) {
        return Refusal::MissingDate;
    }
    if x.year < 0 {
        return Refusal::Before1972;
    }
    return Refusal::OutOfRange;
}

// The TT2000 of fields. A time of day that the date may not have is refused before the date.
pub fn write_tt2000(s: &[u8], f: UtcFields) -> Result<i64, Refusal>
    ensures { result ≡ write_tt2000 s.now f }
{
    let Some(list) = LeapList::of(s) else {
        return Err(Refusal::BadLeapSeconds);
    };
    if !is_utc_time(list, f) {
        return Err(Refusal::ImpossibleField);
    }
    match calendar::found_day(Calendar::ProlepticGregorian, date_of(f)) {
        Some(n) => return write_found(list, f, n),
        None => return Err(refusal_of(date_of(f))),
    }
}
