// Calendar mode for months and years: one offset read as an instant, and an instant written as a whole offset, from a reference in the
// range. A run finds the start of its steps once, and reads each offset or writes each instant from it. A reader may rely on
// specs/Steps.antt and on the theorems of proofs/Demands.antt.
#![tactic(auto)]

ghost use Rattle.std.specs.Prelude.{◌≡◌, true, ◌<◌};
ghost use Rattle.instant.specs.Instant.{day_length, in_range};
ghost use Rattle.step.specs.Closed.{YearOf};
ghost use Rattle.step.specs.Steps.{days_back};
ghost use Rattle.axis_types.specs.Reading.{is_read, with_days_back};
ghost use Rattle.calendar_axis.specs.Steps.{read_from, read_steps, back_steps, write_from, write_steps};
ghost use Rattle.calendar_axis.specs.Start.{StartOf};

use axis_types::OffsetReading;
use calendar::{Calendar, Date};
use refusal::Refusal;
use step::Part;

// The date of a reference, its year, counted from -10000, and the time of day.
#[derive(Clone, Copy)]
pub struct Start {
    pub date: Date,
    pub year: u64,
    pub time: u64,
}

// The start of steps from a reference in the range.
pub fn start_of(c: Calendar, reference: i64) -> Start
    requires { in_range c reference ≡ true }
    ensures { StartOf c reference result }
{
    let s = instant::day_and_time(reference);
    let date = calendar::date_of_biased_day(c, s.day).unwrap();
    Start {
        date,
        year: step::year_of(c, date),
        time: s.time,
    }
}

// That a start has the year of its date stays a clause, and no type's fact: docs/PROMISES.md promises `read_from` and `instant_after` of a calendar
// and such a start, and `step` the same of a date and its year.

// A whole offset from a start; OutOfRange for the instant.
pub fn read_from(c: Calendar, part: Part, s: Start, n: i64) -> Result<OffsetReading, Refusal>
    requires { YearOf c s.date s.year × (s.time < day_length) }
    ensures { result ≡ with_days_back (read_from part c s.date s.time n) (days_back part c n s.date) }
{
    let day = step::day_reached(c, part, s.date, s.year, n)?;
    Ok(OffsetReading {
        instant: instant::instant_at(day.number, s.time),
        exact: true,
        days_back: day.days_back,
    })
}

// The instant of an offset that is known to be read.
pub fn instant_after(c: Calendar, part: Part, s: Start, n: i64) -> i64
    requires { YearOf c s.date s.year × (s.time < day_length) × (is_read (read_from part c s.date s.time n) ≡ true) }
    ensures { Ok (result, true) ≡ read_from part c s.date s.time n }
{
    instant::instant_at(step::day_after(c, part, s.date, s.year, n), s.time)
}

// A whole offset from a reference in the range; OutOfRange for the instant.
pub fn read_whole(c: Calendar, part: Part, reference: i64, n: i64) -> Result<OffsetReading, Refusal>
    requires { in_range c reference ≡ true }
    ensures { result ≡ with_days_back (read_steps part c reference n) (back_steps part c reference n) }
{
    read_from(c, part, start_of(c, reference), n)
}

// The whole offset from a start that reads as an instant of the range; Inexact where there is none.
pub fn write_from(c: Calendar, part: Part, s: Start, t: i64) -> Result<i64, Refusal>
    requires { YearOf c s.date s.year × (in_range c t ≡ true) }
    ensures { result ≡ write_from part c s.date s.time t }
{
    let e = start_of(c, t);
    match step::steps_between(c, part, s.date, s.year, e.date, e.year) {
        Some(n) if s.time == e.time => Ok(n),
        _ => Err(Refusal::Inexact),
    }
}

// The whole offset that reads as an instant, both in the range; Inexact where there is none.
pub fn write_instant(c: Calendar, part: Part, reference: i64, t: i64) -> Result<i64, Refusal>
    requires { (in_range c reference ≡ true) × (in_range c t ≡ true) }
    ensures { result ≡ write_steps part c reference t }
{
    write_from(c, part, start_of(c, reference), t)
}
