// A day within a rule as year, month and day, each counted from 0, the year from -10000.
ghost use Rattle.std.specs.Prelude.{◌≡◌, ◌<◌, ◌≤◌, ◌^◌, ltb};
ghost use Rattle.calendar.specs.Plain.{month_days};
ghost use Rattle.calendar.specs.Closed.{kind_at, years_back, from_march, place_of, count};

use crate::rule::{Rule, YearDay};
use crate::{month, rule};

#[derive(Clone, Copy)]
pub struct Place {
    pub y: u64,
    pub m: usize,
    pub i: u64,
}

// 1 for a day from March to December of a year that begins with March, 0 for one of January or February.
fn years_back(d: u64) -> u64
    ensures { result ≡ years_back d }
{
    if d < 306 {
        return 1;
    }
    return 0;
}

// The place of a day of the year that begins with March and ends with February of year t.y. Its months but the last have the same
// lengths in common years and in leap years.
fn from_march(t: YearDay) -> Place
    requires { (t.d < 366) × (t.d < 306 → 1 ≤ t.y) }
    ensures { result ≡ from_march t }
{
    let m = (5 * t.d + 2) / 153;
    let back = years_back(t.d);
    Place {
        y: t.y - back,
        m: (m + 12 * back - 10) as usize,
        i: t.d - (153 * m + 2) / 5,
    }
}

// The place of day n. A year that begins with March has 306 days before its January.
pub fn place_of(r: Rule, n: u64) -> Place
    requires { n < 2 ^ 30 }
    ensures { result ≡ place_of r n }
{
    match r {
        Rule::Thirty => {
            let t = rule::year_day(Rule::Thirty, n);
            return Place {
                y: t.y,
                m: (t.d / 30) as usize,
                i: t.d % 30,
            };
        }
        _ => return from_march(rule::year_day(r, n + 306)),
    }
}

// Whether the month of a place has its day.
pub fn is_proper(r: Rule, p: Place) -> bool
    requires { p.m < 12 }
    ensures { result ≡ ltb p.i (month_days (kind_at r p.y) p.m) }
{
    p.i < month::month_length(rule::kind_of_year(r, p.y), p.m)
}

// The days before a place.
pub fn days_before(r: Rule, p: Place) -> u64
    requires { (p.y < 2 ^ 55) × ((p.m < 12) × (p.i < 2 ^ 31)) }
    ensures { result ≡ count r p }
{
    let k = rule::kind_of_year(r, p.y);
    rule::year_start(r, p.y) + month::month_start(k, p.m) + p.i
}
