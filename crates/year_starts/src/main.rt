// Writes the day number of every first of January from -9999 to 9999, of each calendar, to be compared with the stored
// output, which hosts/vectors.py finds by another way. A line for each century: the calendar, the line's first year, the
// day number of its January 1st, and one character for the length of each year.
// Years are counted from -10000 here, and the bound of each count is a clause of one number.
#![tactic(auto)]

ghost use Rattle.std.specs.Prelude.{◌+◌, ◌≤◌};

use calendar::{Calendar, Date};
use std::io;

fn year_of(y: u64) -> i64
    requires { y ≤ 20001 }
{
    y as i64 - 10000
}

// The day number of a date, where the calendar has it.
fn day(c: Calendar, y: u64, month: u32, day: u32) -> Option<i64>
    requires { y ≤ 20001 }
{
    let year = year_of(y);
    calendar::day_of_date(c, Date { year, month, day }).ok()
}

fn has_year(c: Calendar, y: u64) -> bool
    requires { y ≤ 20001 }
{
    day(c, y, 1, 1).is_some()
}

// The year itself, or the year after it where the calendar lacks it.
fn year_from(c: Calendar, y: u64) -> u64
    requires { y ≤ 20000 }
    ensures { result ≤ 20001 }
{
    if has_year(c, y) { y } else { y + 1 }
}

// The last day of a December.
fn last_day(c: Calendar, y: u64) -> Option<i64>
    requires { y ≤ 20001 }
{
    day(c, y, 12, 31).or(day(c, y, 12, 30))
}

// The day number of January 1st of a year, or of the year after it where the calendar lacks it.
fn start_from(c: Calendar, y: u64) -> Option<i64>
    requires { y ≤ 20000 }
{
    match day(c, y, 1, 1) {
        Some(n) => Some(n),
        None => day(c, y + 1, 1, 1),
    }
}

// From January 1st, whose day number is `start`, to the next; the year 9999 ends with its last day.
fn days_of_year(c: Calendar, y: u64, start: i64) -> Option<i64>
    requires { y ≤ 19999 }
{
    if y == 19999 {
        last_day(c, y)?.checked_sub(start)?.checked_add(1)
    } else {
        start_from(c, y + 1)?.checked_sub(start)
    }
}

fn letter(days: Option<i64>) -> u8 {
    match days {
        Some(365) => b'5',
        Some(366) => b'6',
        Some(360) => b'0',
        Some(355) => b'A',
        _ => b'?',
    }
}

// The letters of the years that the calendar has among a hundred, in one write: one for each would take most of the time.
fn print_letters(rt: &impl Print, c: Calendar, from: u64) -> io::Result<()>
    requires { from ≤ 19900 }
{
    let mut letters = [0u8; 100];
    let mut n = 0;
    for y in from..from + 100 {
        if let Some(start) = day(c, y, 1, 1) {
            letters[n] = letter(days_of_year(c, y, start));
            n += 1;
        }
    }
    rt.write_all(&letters[..n])
}

fn print_century(rt: &impl Print, c: Calendar, name: &str, from: u64) -> io::Result<()>
    requires { from ≤ 19900 }
{
    let first = year_from(c, from);
    let year = year_of(first);
    print!(rt; "{name} {year} ")?;
    if let Some(n) = day(c, first, 1, 1) {
        print!(rt; "{n} ")?;
    }
    print_letters(rt, c, from)?;
    println!(rt)
}

fn print_calendar(rt: &impl Print, c: Calendar, name: &str) -> io::Result<()> {
    for century in 0..200 {
        print_century(rt, c, name, century * 100)?;
    }
    Ok(())
}

fn main(rt: HostRuntime) -> io::Result<()> {
    print_calendar(&rt, Calendar::Standard(0), "standard")?;
    print_calendar(&rt, Calendar::ProlepticGregorian, "proleptic_gregorian")?;
    print_calendar(&rt, Calendar::Julian, "julian")?;
    print_calendar(&rt, Calendar::NoLeap, "noleap")?;
    print_calendar(&rt, Calendar::AllLeap, "all_leap")?;
    print_calendar(&rt, Calendar::Day360, "360_day")
}
