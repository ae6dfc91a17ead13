// Steps by months and years in a calendar, for calendar mode: the day that a number of steps leads to from a date, and the number of
// steps from one date to another. Months and years are one step with a parameter. The dates of a caller exist in the years -9999 to 9999,
// and it hands on the year of each, so that a run finds that of its reference once.
#![tactic(auto)]

ghost use Rattle.std.specs.Prelude.{◌≡◌, true, cond, ◌+◌, ◌-◌, ◌*◌, ◌<◌, ◌≤◌, eqb};
ghost use Rattle.std.proofs.Math.IntN.{sub_ℕ};
ghost use Rattle.calendar.specs.Calendar.{has_year_zero, exists, date_of, in_years};
ghost use Rattle.calendar.specs.Closed.{year_at};
ghost use Rattle.calendar.specs.Answers.{day_answer};
ghost use Rattle.step.specs.Answers.{stepped_back, steps_between};
ghost use Rattle.step.specs.Closed.{month_at, month_count, months_of, HasNumber, YearOf};
ghost use Rattle.step.specs.Steps.{year_month, down_to, steps_down, date_down, date_after, days_back};

use calendar::{Calendar, Date};
use refusal::Refusal;

// 0 among the numbers with their bias.
const ZERO: u64 = 1 << 63;

// What a step moves: the month number or the year number of a date.
#[derive(Clone, Copy)]
pub enum Part {
    Month,
    Year,
}

// The year of a date, counted from -10000.
pub fn year_of(c: Calendar, x: Date) -> u64
    requires { HasNumber c x }
    ensures { YearOf c x result }
{
    calendar::year_count(calendar::has_year_zero(c), signed::biased(x.year)).unwrap()
}

// ---- years, counted from -10000, and months, counted from January of that year

fn month_count(y: u64, month: u32) -> u64
    requires { (y < 20000) × ((1 ≤ month) × (month ≤ 12)) }
    ensures { result ≡ month_count y month }
{
    12 * y + (month - 1) as u64
}

// The months that a step leads on.
fn months_of(part: Part) -> u64
    ensures { result ≡ months_of part }
{
    match part {
        Part::Month => 1,
        Part::Year => 12,
    }
}

// The month that k - 2^63 steps lead to from month i. It is counted from 240000 years earlier, and so many steps lead no further back.
fn month_after(part: Part, i: u64, k: u64) -> u64
    requires { (i < 240000) × ((9223372036854535808 ≤ k) × (k < 9223372036855015808)) }
    ensures { result + 240000 * months_of part ≡ i + 2880000 + (k - 9223372036854535808) * months_of part }
{
    let m = months_of(part);
    i + (2880000 - 240000 * m) + (k - (ZERO - 240000)) * m
}

// The least year that is not below -9999.
fn first_year(c: Calendar) -> u64
    ensures { (result ≡ cond (has_year_zero c) 1 2) × (result ≤ 2) }
{
    if calendar::has_year_zero(c) { 1 } else { 2 }
}

// ---- days

// A day number, and the days that it was stepped back to a day that exists.
#[derive(Clone, Copy)]
pub struct DayInMonth {
    pub number: i64,
    pub days_back: u32,
}

// Day `day` of a month of year y, or the nearest day below it that exists.
fn day_down(c: Calendar, y: u64, month: u32, day: u32) -> DayInMonth
    requires { (1 ≤ y) × (y < 20000) }
    ensures dated { exists c (date_down c (year_month (year_at (has_year_zero c) y) month) day) ≡ true → date_of c result.number ≡ date_down c (year_month (year_at (has_year_zero c) y) month) day }
    ensures back { result.days_back ≡ steps_down c (year_at (has_year_zero c) y) month day }
{
    for d in (1..=day).rev() {
        if let Some(n) = calendar::ordinal::biased_day(c, y, month, d) {
            return DayInMonth {
                number: signed::unbiased(n),
                days_back: day - d,
            };
        }
    }
    // no month comes here
    DayInMonth {
        number: 0,
        days_back: day,
    }
}

// The same of month i.
fn day_in(c: Calendar, i: u64, day: u32) -> DayInMonth
    requires { (12 ≤ i) × ((i < 240000) × (exists c (date_down c (month_at c i) day) ≡ true)) }
    ensures dated { date_of c result.number ≡ date_down c (month_at c i) day }
    ensures back { result.days_back ≡ steps_down c (month_at c i).year (month_at c i).month day }
{
    day_down(c, i / 12, (i % 12 + 1) as u32, day)
}

// ---- steps from a date x of year y
// That y is the year of x stays a clause, and no type's fact: docs/PROMISES.md promises `day_after` and `day_reached` of any such date and year.

// The day number of the date n steps after x, which is known to lie in the years -9999 to 9999.
pub fn day_after(c: Calendar, part: Part, x: Date, y: u64, n: i64) -> i64
    requires { YearOf c x y × (in_years (date_after part c n x).year ≡ true) }
    ensures { date_of c result ≡ date_after part c n x }
{
    let j = month_after(part, month_count(y, x.month), signed::biased(n));
    day_in(c, j - 2880000, x.day).number
}

// The same with the test, OutOfRange where the year lies past -9999 to 9999, and with the days stepped back.
pub fn day_reached(c: Calendar, part: Part, x: Date, y: u64, n: i64) -> Result<DayInMonth, Refusal>
    requires { YearOf c x y }
    ensures { result ≡ stepped_back (day_answer c (date_after part c n x)) (days_back part c n x) }
{
    let k = signed::biased(n);
    if k < ZERO - 240000 || ZERO + 240000 <= k {
        return Err(Refusal::OutOfRange);
    }
    let j = month_after(part, month_count(y, x.month), k);
    if j < 2880000 + 12 * first_year(c) || 2880000 + 240000 <= j {
        return Err(Refusal::OutOfRange);
    }
    Ok(day_in(c, j - 2880000, x.day))
}

// ---- steps between dates

// The number of steps from count a to count b.
fn difference(b: u64, a: u64) -> i64
    requires { (b < 240000) × (a < 240000) }
    ensures { result ≡ sub_ℕ b a }
{
    signed::unbiased(b + (ZERO - a))
}

// Whether day `day` of the month of d, of year w, is d itself or is stepped back to it.
fn leads_to(c: Calendar, d: Date, w: u64, day: u32) -> bool
    requires { YearOf c d w }
    ensures { result ≡ eqb (down_to c d.year d.month day) d.day }
{
    day == d.day || day - day_down(c, w, d.month, day).days_back == d.day
}

// The n for which d, of year w, lies n steps after x, or that there is none.
pub fn steps_between(c: Calendar, part: Part, x: Date, y: u64, d: Date, w: u64) -> Option<i64>
    requires { YearOf c x y × YearOf c d w }
    ensures { result ≡ steps_between part c x d }
{
    if !leads_to(c, d, w, x.day) {
        return None;
    }
    match part {
        Part::Month => Some(difference(month_count(w, d.month), month_count(y, x.month))),
        Part::Year if d.month == x.month => Some(difference(w, y)),
        Part::Year => None,
    }
}
