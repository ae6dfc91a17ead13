// A run checked by its ends: where its least and its greatest offset are read, every offset between them is. Where the ends do not show it,
// nothing is said. A reader may rely on specs/Ends.antt and on the theorems of proofs/Within.antt and proofs/Between.antt.
#![tactic(auto)]

ghost use Rattle.std.specs.Prelude.{◌≡◌, true, ◌&&◌, ℕ, ℤ, Result, Ok};
ghost use Rattle.refusal.specs.declared.Refusal.{Refusal};
ghost use Rattle.axis_types.specs.declared.Axis.{Axis};
ghost use Rattle.axis_types.specs.declared.Mode.{Mode};
ghost use Rattle.axis_types.specs.Reading.{is_read, with_days_back, Reading};
ghost use Rattle.double.specs.Whole.{whole_of};
ghost use Rattle.axis.specs.Axis.{read_double_on, read_whole_on};
ghost use Rattle.run_ends.specs.Each.{Each};

use crate::ends::Ends;
use axis_types::{Axis, Mode, OffsetReading};
use refusal::Refusal;

pub mod ends;

// What the offsets of a run are: whole numbers, or doubles.
pub trait Element: Copy {
    // What an axis reads one as.
    ghost read: { Axis → Self → Reading };

    // The whole number that one is.
    ghost whole: { Self → Result ℤ Refusal };

    fn read_on(self, axis: Axis) -> Result<OffsetReading, Refusal>
        ensures { (days : ℕ) × (result ≡ with_days_back (read axis self) days) };

    fn whole(self) -> Result<i64, Refusal>
        ensures { result ≡ whole self };
}

impl Element for i64 {
    ghost read = { read_whole_on };

    ghost whole = { λ n. Ok n };

    fn read_on(self, axis: Axis) -> Result<OffsetReading, Refusal> {
        axis::read_whole(axis, self)
    }

    fn whole(self) -> Result<i64, Refusal> {
        Ok(self)
    }
}

impl Element for f64 {
    ghost read = { read_double_on };

    ghost whole = { whole_of };

    fn read_on(self, axis: Axis) -> Result<OffsetReading, Refusal> {
        axis::read_double(axis, self)
    }

    fn whole(self) -> Result<i64, Refusal> {
        double::whole::whole_of(self)
    }
}

fn ends_read<E: Element>(axis: Axis, ends: Ends<E>) -> bool
    ensures { result ≡ (is_read (E.read axis ends.least) && is_read (E.read axis ends.greatest)) }
{
    ends.least.read_on(axis).is_ok() && ends.greatest.read_on(axis).is_ok()
}

// By the order of doubles, in fixed mode.
fn read_by_order(axis: Axis, source: &[f64]) -> bool
    requires { axis.mode ≡ Mode.Fixed }
    ensures { result ≡ true → Each (λ x. is_read (read_double_on axis x) ≡ true) source.now }
{
    match ends::double_ends(source) {
        Some(ends) => ends_read(axis, ends),
        None => false,
    }
}

// By the order of whole numbers, where each double must be one.
fn read_as_wholes(axis: Axis, source: &[f64]) -> bool
    requires { axis.mode ≡ Mode.Calendar }
    ensures { result ≡ true → Each (λ x. is_read (read_double_on axis x) ≡ true) source.now }
{
    match ends::ends_as_wholes(source) {
        Some(wholes) => ends_read(axis, wholes),
        None => false,
    }
}

// Whether the ends show that every double is read.
pub fn doubles_read(axis: Axis, source: &[f64]) -> bool
    ensures { result ≡ true → Each (λ x. is_read (read_double_on axis x) ≡ true) source.now }
{
    match axis.mode {
        Mode::Fixed => read_by_order(axis, source),
        Mode::Calendar => read_as_wholes(axis, source),
    }
}

// Whether the ends show that every whole offset is read.
pub fn wholes_read(axis: Axis, source: &[i64]) -> bool
    ensures { result ≡ true → Each (λ n. is_read (read_whole_on axis n) ≡ true) source.now }
{
    ends_read(axis, ends::whole_ends(source))
}
