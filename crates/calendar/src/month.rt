// Months within a year. Kinds of year: 0 common, 1 leap, 2 of 360 days; months and days count from 0.
// A kind stays a number, and no enum: it is the line of the table `lengths` (specs/Plain.antt) and, but for 2, the days of the year past 365,
// which the arithmetic below adds.
ghost use Rattle.std.specs.Prelude.{◌≡◌, cond, ◌-◌, ◌<◌, ltb};
ghost use Rattle.calendar.specs.Plain.{month_days};
ghost use Rattle.calendar.specs.Closed.{month_start};

const FEBRUARY: usize = 1;

// The length of a month. Twelve months of 30 days make a year of 360. Any other year has five or six days more, so long months of 31
// days and short ones of 30 alternate: January is long, February short, and so on to July. August begins again with a long month, so
// July and August are both long. That makes seven long months and 367 days, two too many for a common year and one too many for a leap
// year; February gives them up.
pub fn month_length(k: usize, m: usize) -> u64
    requires { (k < 3) × (m < 12) }
    ensures { result ≡ month_days k m }
{
    let turn = m as u64 % 7;
    let length = 31 - turn % 2;
    if k == 2 {
        return 30;
    }
    if m == FEBRUARY {
        return 28 + k as u64;
    }
    length
}

// The days by which January and February together fall short of 61: what the months after them are early by.
fn short_days(k: u64, m: u64) -> u64
    requires { k < 2 }
    ensures { result ≡ cond (ltb m 2) 0 (2 - k) }
{
    if m < 2 { 0 } else { 2 - k }
}

// The days of the year before a month.
pub fn month_start(k: usize, m: usize) -> u64
    requires { (k < 3) × (m < 12) }
    ensures { result ≡ month_start k m }
{
    let n = m as u64;
    let j = k as u64;
    if j == 2 {
        return 30 * n;
    }
    (367 * n + 5) / 12 - short_days(j, n)
}
