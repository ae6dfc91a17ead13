// Axes: one offset read as an instant, and an instant or fields written as a whole offset, in fixed and in calendar mode. Every call on an
// axis goes by `check_axis`. A reader may rely on specs/Axis.antt and on the theorems of proofs/Demands.antt.
#![tactic(auto)]

ghost use Rattle.std.specs.Prelude.{◌≡◌, true};
ghost use Rattle.instant.specs.Instant.{in_range};
ghost use Rattle.axis_types.specs.Reading.{with_days_back};
ghost use Rattle.axis.specs.Axis.{axis_check, step_on, whole_on, whole_back, by_whole, by_whole_back, double_on, double_back, offset_back, offset_on, read_whole_on, read_double_on, read_offset, write_instant_on, write_fields_on};

use axis_types::{Axis, Mode, Offset, OffsetReading, Period};
use instant::Fields;
use refusal::Refusal;
use step::Part;

pub fn check_axis(axis: Axis) -> Result<(), Refusal>
    ensures { result ≡ axis_check axis }
{
    let c = axis.calendar;
    if instant::in_range(c, axis.reference) {
        return Ok(());
    }
    return Err(Refusal::OutOfRange);
}

// What a whole offset moves on an axis: the time, or a part of the date. It is data that contracts speak of, and no closure: one that is handed
// out is refused.
#[derive(Clone, Copy)]
pub enum Step {
    Time,
    Date(Part),
}

pub fn step_on(axis: Axis) -> Step
    ensures { result ≡ step_on axis }
{
    let mode = axis.mode;
    let p = axis.period;
    match mode {
        Mode::Fixed => return Step::Time,
        Mode::Calendar => match p {
            Period::Month => return Step::Date(Part::Month),
            Period::Year => return Step::Date(Part::Year),
            _ => return Step::Time,
        },
    }
}

// ---- on a good axis

fn read_whole_on(axis: Axis, n: i64) -> Result<OffsetReading, Refusal>
    requires { in_range axis.calendar axis.reference ≡ true }
    ensures { result ≡ with_days_back (whole_on axis n) (whole_back axis n) }
{
    let c = axis.calendar;
    let p = axis.period;
    match step_on(axis) {
        Step::Time => return axis_types::unmoved(fixed_axis::read_whole(c, p, axis.reference, n)),
        Step::Date(part) => return calendar_axis::read_whole(c, part, axis.reference, n),
    }
}

// A double in calendar mode: the whole offset that it is, read as any other. That tests the axis once more, and is quicker than a call that does not.
fn read_as_whole(axis: Axis, x: f64) -> Result<OffsetReading, Refusal>
    requires { in_range axis.calendar axis.reference ≡ true }
    ensures { result ≡ with_days_back (by_whole (whole_on axis) x) (by_whole_back (whole_back axis) x) }
{
    let n = double::whole::whole_of(x)?;
    read_whole(axis, n)
}

fn read_double_on(axis: Axis, x: f64) -> Result<OffsetReading, Refusal>
    requires { in_range axis.calendar axis.reference ≡ true }
    ensures { result ≡ with_days_back (double_on axis x) (double_back axis x) }
{
    let c = axis.calendar;
    let p = axis.period;
    let mode = axis.mode;
    match mode {
        Mode::Fixed => return axis_types::unmoved(fixed_axis::read_double(c, p, axis.reference, x)),
        Mode::Calendar => return read_as_whole(axis, x),
    }
}

// The whole offset of an instant of the range.
fn write_on(axis: Axis, t: i64) -> Result<i64, Refusal>
    requires { (in_range axis.calendar axis.reference ≡ true) × (in_range axis.calendar t ≡ true) }
    ensures { result ≡ offset_on axis t }
{
    let c = axis.calendar;
    let p = axis.period;
    match step_on(axis) {
        Step::Time => return fixed_axis::write_instant(p, axis.reference, t),
        Step::Date(part) => return calendar_axis::write_instant(c, part, axis.reference, t),
    }
}

// ---- on any axis

// A whole offset; OutOfRange for the reference, then for the instant.
pub fn read_whole(axis: Axis, n: i64) -> Result<OffsetReading, Refusal>
    ensures { result ≡ with_days_back (read_whole_on axis n) (whole_back axis n) }
{
    check_axis(axis)?;
    read_whole_on(axis, n)
}

// A double; OutOfRange for the reference, then NotFinite, in calendar mode Inexact where it is not whole, then OutOfRange.
pub fn read_double(axis: Axis, x: f64) -> Result<OffsetReading, Refusal>
    ensures { result ≡ with_days_back (read_double_on axis x) (double_back axis x) }
{
    check_axis(axis)?;
    read_double_on(axis, x)
}

// An offset, whole or double.
pub fn read(axis: Axis, offset: Offset) -> Result<OffsetReading, Refusal>
    ensures { result ≡ with_days_back (read_offset axis offset) (offset_back axis offset) }
{
    match offset {
        Offset::Whole(n) => return read_whole(axis, n),
        Offset::Double(x) => return read_double(axis, x),
    }
}

// The whole offset that reads as an instant; OutOfRange for the reference, then for the instant, then Inexact where there is none.
pub fn write_instant(axis: Axis, t: i64) -> Result<i64, Refusal>
    ensures { result ≡ write_instant_on axis t }
{
    let c = axis.calendar;
    check_axis(axis)?;
    if instant::in_range(c, t) {
        return write_on(axis, t);
    }
    Err(Refusal::OutOfRange)
}

// The same of fields; OutOfRange for the reference, then as their instant is, then Inexact.
pub fn write_fields(axis: Axis, f: Fields) -> Result<i64, Refusal>
    ensures { result ≡ write_fields_on axis f }
{
    let c = axis.calendar;
    check_axis(axis)?;
    let t = instant::instant_of(c, f)?;
    write_on(axis, t)
}
