// The five rules of years under the six calendars, over years counted from -10000: 10000 is a multiple of 400, so a year's number
// leaves the same remainders as its count. Bounds of years, days and months stay clauses in this crate: each is of one number, and a type for
// each would be no plainer.
ghost use Rattle.std.specs.Prelude.{◌≡◌, ◌<◌, ◌^◌};
ghost use Rattle.calendar.specs.Closed.{kind_at, year_start, julian_count, year_day};

#[derive(Clone, Copy)]
pub enum Rule {
    Gregorian,
    Julian,
    Common,
    Leap,
    Thirty,
}

// The kind of year y: 0 common, 1 leap, 2 of 360 days.
pub fn kind_of_year(r: Rule, y: u64) -> usize
    ensures { result ≡ kind_at r y }
{
    match r {
        Rule::Gregorian => {
            if y % 400 == 0 {
                return 1;
            }
            if y % 100 == 0 {
                return 0;
            }
            if y % 4 == 0 {
                return 1;
            }
            return 0;
        }
        Rule::Julian => {
            if y % 4 == 0 {
                return 1;
            }
            return 0;
        }
        Rule::Common => return 0,
        Rule::Leap => return 1,
        Rule::Thirty => return 2,
    }
}

// The days before year y.
pub fn year_start(r: Rule, y: u64) -> u64
    requires { y < 2 ^ 55 }
    ensures { result ≡ year_start r y }
{
    match r {
        Rule::Gregorian => {
            let centuries = (y + 99) / 100;
            return 365 * y + (y + 3) / 4 - 3 * centuries / 4;
        }
        Rule::Julian => return 365 * y + (y + 3) / 4,
        Rule::Common => return 365 * y,
        Rule::Leap => return 366 * y,
        Rule::Thirty => return 360 * y,
    }
}

// Day n of the Gregorian rule by the Julian one, which has a day more in three of four century years.
pub fn julian_count(n: u64) -> u64
    requires { n < 2 ^ 31 }
    ensures { result ≡ julian_count n }
{
    let centuries = (4 * n + 144636) / 146097;
    n + 3 * centuries / 4
}

// A day within its year, both counted from 0, the year from -10000.
#[derive(Clone, Copy)]
pub struct YearDay {
    pub y: u64,
    pub d: u64,
}

// Day n within its year.
pub fn year_day(r: Rule, n: u64) -> YearDay
    requires { n < 2 ^ 31 }
    ensures { result ≡ year_day r n }
{
    match r {
        Rule::Gregorian => {
            let j = julian_count(n);
            return YearDay {
                y: 4 * j / 1461,
                d: 4 * j % 1461 / 4,
            };
        }
        Rule::Julian => return YearDay {
            y: 4 * n / 1461,
            d: 4 * n % 1461 / 4,
        },
        Rule::Common => return YearDay {
            y: n / 365,
            d: n % 365,
        },
        Rule::Leap => return YearDay {
            y: n / 366,
            d: n % 366,
        },
        Rule::Thirty => return YearDay {
            y: n / 360,
            d: n % 360,
        },
    }
}
