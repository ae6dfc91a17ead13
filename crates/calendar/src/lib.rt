// The six calendars: the date of a day number and the day number of a date, counted from 1970-01-01, proved against each
// calendar's next-day rule (specs/Calendar.antt). Both calls are total.
#![tactic(auto)]

ghost use Rattle.std.specs.Prelude.{◌≡◌, true, ◌-◌, ◌≤◌};
ghost use Rattle.signed.specs.Bias.{unbiased};
ghost use Rattle.calendar.specs.Answers.{date_answer, refusal_with, day_answer};
ghost use Rattle.calendar.specs.Calendar.{has_year_zero, in_years, date_of};
ghost use Rattle.calendar.specs.Closed.{epoch_day, first_year, first_day, end_day, Counted, Found, PlaceOfDay};

use refusal::Refusal;

pub mod civil;
pub mod cutover;
pub mod gregorian;
mod month;
pub mod ordinal;
mod place;
mod row;
mod rule;

// `standard` carries its cutover, as the days after 1582-10-15.
#[derive(Clone, Copy)]
pub enum Calendar {
    Standard(u32),
    ProlepticGregorian,
    Julian,
    NoLeap,
    AllLeap,
    Day360,
}

// A date as it is written: month and day count from 1.
#[repr(C)]
#[derive(Clone, Copy, PartialEq, Eq)]
pub struct Date {
    pub year: i64,
    pub month: u32,
    pub day: u32,
}

// 1970-01-01, counted from the first place of the calendar's late rule, as the two days after it.
pub fn epoch_day(c: Calendar) -> u64
    ensures { result ≡ epoch_day c }
{
    let r = row::parts_of(c);
    let late = r.late;
    rule::year_start(late, 11970)
}

// Year -9999, counted from -10000.
pub fn first_year(zero: bool) -> u64
    ensures { result ≡ first_year zero }
{
    if zero { 1 } else { 2 }
}

// The first day of year -9999.
pub fn first_day(c: Calendar) -> u64
    ensures { result ≡ first_day c }
{
    let r = row::parts_of(c);
    let early = r.early;
    rule::year_start(early, first_year(r.zero)) - row::lag_of(c)
}

// The first day of year 10000. It differs from `epoch_day` in the year alone; one function for both would be called by two as long as these.
pub fn end_day(c: Calendar) -> u64
    ensures { result ≡ end_day c }
{
    let r = row::parts_of(c);
    let late = r.late;
    rule::year_start(late, 20000)
}

// 2^63 less the days before 1970-01-01.
fn origin(c: Calendar) -> u64
    ensures { result ≡ 9223372036854775808 - epoch_day c }
{
    0x8000_0000_0000_0000 - epoch_day(c)
}

// Whether the date of the day number k - 2^63 lies in the years -9999 to 9999. From 4000000 days before 1970-01-01 to 2800000 after
// it every calendar's does.
fn day_in_years(c: Calendar, k: u64) -> bool
    ensures { result ≡ in_years (date_of c (unbiased k)).year }
{
    if k < 0x8000_0000_0000_0000 - 4000000 {
        return origin(c) + first_day(c) <= k;
    }
    if k < 0x8000_0000_0000_0000 + 2800000 {
        return true;
    }
    k - origin(c) < end_day(c)
}

// The place of such a day number.
pub fn place_in_years(c: Calendar, k: u64) -> u64
    requires { in_years (date_of c (unbiased k)).year ≡ true }
    ensures { PlaceOfDay c (unbiased k) result }
{
    civil::packed_place(c, k - origin(c))
}

// The date of the day number k - 2^63; OutOfRange where its year lies past -9999 to 9999.
pub fn date_of_biased_day(c: Calendar, k: u64) -> Result<Date, Refusal>
    ensures { result ≡ date_answer c (unbiased k) }
{
    if !day_in_years(c, k) {
        return Err(Refusal::OutOfRange);
    }
    Ok(civil::date_of_packed(c, place_in_years(c, k)))
}

// The date of a day number, counted from 1970-01-01; OutOfRange where its year lies past -9999 to 9999. It does not go by the call
// above, so that both stay small enough to be inlined, and no answer passes through memory.
pub fn date_of_day(c: Calendar, n: i64) -> Result<Date, Refusal>
    ensures { result ≡ date_answer c n }
{
    let k = signed::biased(n);
    if !day_in_years(c, k) {
        return Err(Refusal::OutOfRange);
    }
    Ok(civil::date_of_packed(c, place_in_years(c, k)))
}

pub fn has_year_zero(c: Calendar) -> bool
    ensures { result ≡ has_year_zero c }
{
    let r = row::parts_of(c);
    r.zero
}

// The count of the year k - 2^63, with or without a year 0. Year 0 is asked for first: what is left then differs by one, and needs no
// branch.
pub fn year_count(zero: bool, k: u64) -> Option<u64>
    requires { (9223372036854765809 ≤ k) × (k ≤ 9223372036854785807) }
    ensures { Counted zero (unbiased k) result }
{
    if zero {
        return Some(k - (0x8000_0000_0000_0000 - 10000));
    }
    if k == 0x8000_0000_0000_0000 {
        return None;
    }
    if k < 0x8000_0000_0000_0000 {
        return Some(k - (0x8000_0000_0000_0000 - 10001));
    }
    Some(k - (0x8000_0000_0000_0000 - 10000))
}

// Whether the year k - 2^63 lies in -9999 to 9999.
fn in_years(k: u64) -> bool
    ensures { result ≡ in_years (unbiased k) }
{
    0x8000_0000_0000_0000 - 9999 <= k && k <= 0x8000_0000_0000_0000 + 9999
}

// The day number, counted from 1970-01-01, of a date of the years -9999 to 9999 that exists.
pub fn found_day(c: Calendar, x: Date) -> Option<i64>
    ensures { Found c x result }
{
    let k = signed::biased(x.year);
    if !in_years(k) {
        return None;
    }
    let y = year_count(has_year_zero(c), k)?;
    let n = ordinal::biased_day(c, y, x.month, x.day)?;
    Some(signed::unbiased(n))
}

// Why a date for which no day is found is refused, or for what stands beside it; `rest` says that each field there is possible. OutOfRange
// for the year, then ImpossibleField for a field that no date has, then MissingDate or DroppedDate, as the calendar says.
pub fn refusal_with(c: Calendar, x: Date, rest: bool) -> Refusal
    ensures { result ≡ refusal_with rest c x }
{
    let k = signed::biased(x.year);
    if !in_years(k) {
        return Refusal::OutOfRange;
    }
    if !rest {
        return Refusal::ImpossibleField;
    }
    if !ordinal::is_possible(x.month, x.day) {
        return Refusal::ImpossibleField;
    }
    match year_count(has_year_zero(c), k) {
        None => Refusal::MissingDate,
        Some(y) if ordinal::is_dropped(c, y, x.month, x.day) => Refusal::DroppedDate,
        Some(_) => Refusal::MissingDate,
    }
}

// The day number of a date, or its refusal.
pub fn day_of_date(c: Calendar, x: Date) -> Result<i64, Refusal>
    ensures { result ≡ day_answer c x }
{
    match found_day(c, x) {
        Some(n) => Ok(n),
        None => Err(refusal_with(c, x, true)),
    }
}
