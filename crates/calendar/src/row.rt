// Each calendar as a row, and what follows from it: the two rules of years, where the late one begins, and the days of the cutover.
// A row is not handed out whole: most callers ask for the rules alone, and the place of a cutover is found where it is asked for.
ghost use Rattle.std.specs.Prelude.{◌≡◌, cond, ltb};
ghost use Rattle.calendar.specs.Closed.{counts, parts_of, mixed, late_from, lag};

use crate::place::Place;
use crate::rule::Rule;
use crate::{Calendar, cutover, place};

// Whether the calendar has a year 0, its rule of years before the cutover, and that from it on.
#[derive(Clone, Copy)]
pub struct Parts {
    pub zero: bool,
    pub early: Rule,
    pub late: Rule,
}

fn same_parts(zero: bool, rule: Rule) -> Parts
    ensures { result ≡ record { zero = zero; early = rule; late = rule } }
{
    Parts {
        zero,
        early: rule,
        late: rule,
    }
}

pub fn parts_of(c: Calendar) -> Parts
    ensures { result ≡ parts_of (counts c) }
{
    match c {
        Calendar::Standard(_) => Parts {
            zero: false,
            early: Rule::Julian,
            late: Rule::Gregorian,
        },
        Calendar::ProlepticGregorian => same_parts(true, Rule::Gregorian),
        Calendar::Julian => same_parts(false, Rule::Julian),
        Calendar::NoLeap => same_parts(true, Rule::Common),
        Calendar::AllLeap => same_parts(true, Rule::Leap),
        Calendar::Day360 => same_parts(true, Rule::Thirty),
    }
}

// The place where the late part begins. The two parts of a plain calendar meet on 1582-10-15.
pub fn from_of(c: Calendar) -> Place
    ensures { result ≡ (counts c).from }
{
    match c {
        Calendar::Standard(k) => {
            place::place_of(Rule::Gregorian, cutover::FIRST + cutover::days_used(k))
        }
        _ => Place {
            y: 11582,
            m: 9,
            i: 14,
        },
    }
}

// Whether a calendar is mixed of two: its late part does not go on where its early part ends.
fn is_mixed(c: Calendar) -> bool
    ensures { result ≡ mixed (counts c) }
{
    matches!(c, Calendar::Standard(_))
}

// The days by which the late rule lags behind the early one.
pub fn lag_of(c: Calendar) -> u64
    ensures { result ≡ lag (counts c) }
{
    if is_mixed(c) {
        cutover::LAST_KEPT + 1 - cutover::FIRST
    } else {
        0
    }
}

// The rule of the early or of the late part.
pub fn rule_of(c: Calendar, early: bool) -> Rule
    ensures { result ≡ cond early (counts c).early (counts c).late }
{
    let r = parts_of(c);
    if early { r.early } else { r.late }
}

// Whether day n, by the late rule, comes before the late part; a calendar that is not mixed is all late. Only after the first cutover, and
// before that which the calendar carries, is it asked whether that one is allowed.
pub fn is_early_day(c: Calendar, n: u64) -> bool
    ensures { result ≡ ltb n (late_from (counts c)) }
{
    match c {
        Calendar::Standard(k) => {
            n < cutover::FIRST || (n < cutover::FIRST + k as u64 && cutover::is_allowed(k))
        }
        _ => false,
    }
}
