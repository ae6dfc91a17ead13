// Offsets on an axis of fixed mode, whose reference lies in the range: a whole offset or a double read as an instant, and an instant written
// as a whole offset. A reader may rely on specs/Fixed.antt and on the theorems of proofs/Demands.antt.
#![tactic(auto)]

ghost use Rattle.std.specs.Prelude.{◌≡◌, true, ◌+◌, ◌-◌, ◌*◌, ◌≤◌, ◌<◌, ◌^◌, nat_abs};
ghost use Rattle.std.specs.Int.Signed.{mag};
ghost use Rattle.axis_types.specs.Lengths.{length_of};
ghost use Rattle.axis_types.specs.Reading.{is_read};
ghost use Rattle.instant.specs.Instant.{in_range};
ghost use Rattle.fixed_axis.specs.Fixed.{time_after, reading_at, read_whole, read_double, write_instant};
ghost use Rattle.fixed_axis.specs.Closed.{Reaches};

use axis_types::Period;
use calendar::Calendar;
use double::Scale;
use refusal::Refusal;

// A period as a factor of doubles.
pub fn scale_of(p: Period) -> Scale
    ensures { result.micros ≡ length_of p }
{
    Scale::new(axis_types::microseconds(p))
}

// The count t where it lies in the range.
fn reading_at(c: Calendar, t: i64, exact: bool) -> Result<(i64, bool), Refusal>
    ensures { result ≡ reading_at c t exact }
{
    if instant::in_range(c, t) {
        Ok((t, exact))
    } else {
        Err(Refusal::OutOfRange)
    }
}

// Whether n periods may lead from one instant of the range to another: true only up to 2^61 microseconds, and false only from 2^60 on, which
// lead out of the range from each of its instants.
fn reaches(p: Period, n: i64) -> bool
    ensures { Reaches result (length_of p) n }
{
    n.unsigned_abs() < 1 << (scale_of(p).shift - 2)
}

// The time of a whole offset.
fn time_at(p: Period, reference: i64, n: i64) -> i64
    requires { (mag reference < 2 ^ 59) × (nat_abs n * length_of p ≤ 2 ^ 61) }
    ensures { result ≡ time_after p reference n }
{
    reference + n * (axis_types::microseconds(p) as i64)
}

// That the reference lies in the range is a clause of the four below and no type's fact: docs/PROMISES.md promises them of any calendar,
// period and reference.

// A whole offset; OutOfRange for the instant.
pub fn read_whole(c: Calendar, p: Period, reference: i64, n: i64) -> Result<(i64, bool), Refusal>
    requires { in_range c reference ≡ true }
    ensures { result ≡ read_whole c p reference n }
{
    if reaches(p, n) {
        reading_at(c, time_at(p, reference, n), true)
    } else {
        Err(Refusal::OutOfRange)
    }
}

// The instant of a whole offset that is known to be read: no test is left.
pub fn time_after(c: Calendar, p: Period, reference: i64, n: i64) -> i64
    requires begun { in_range c reference ≡ true }
    requires read { is_read (read_whole c p reference n) ≡ true }
    ensures { result ≡ time_after p reference n }
{
    time_at(p, reference, n)
}

// A double; NotFinite, then OutOfRange for the nearest count.
pub fn read_double(c: Calendar, p: Period, reference: i64, x: f64) -> Result<(i64, bool), Refusal>
    requires { in_range c reference ≡ true }
    ensures { result ≡ read_double c p reference x }
{
    let d = double::displacement_of(scale_of(p), x)?;
    reading_at(c, reference + d.count, d.exact)
}

// The instant of a double that is known to be read, and whether it is the exact time: the range is not tested again. The scale is that of the period.
pub fn nearest_time(c: Calendar, p: Period, reference: i64, scale: Scale, x: f64) -> (i64, bool)
    requires begun { in_range c reference ≡ true }
    requires scaled { scale.micros ≡ length_of p }
    requires read { is_read (read_double c p reference x) ≡ true }
    ensures { read_double c p reference x ≡ Ok result }
{
    let d = double::small_displacement(scale, x);
    (reference + d.count, d.exact)
}

// The whole offset that leads from the reference to an instant; Inexact where there is none. One division serves both signs.
pub fn write_instant(p: Period, reference: i64, t: i64) -> Result<i64, Refusal>
    ensures { result ≡ write_instant p reference t }
{
    let micros = axis_types::microseconds(p);
    let size = t.abs_diff(reference);
    if size % micros == 0 {
        Ok(signed::signed_size(t < reference, size / micros))
    } else {
        Err(Refusal::Inexact)
    }
}
