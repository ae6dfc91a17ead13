// Numbers of a datetime64 unit and instants of `proleptic_gregorian`. A run finds the conversion of its unit once, and then checks each number
// or instant before it converts any. A reader may rely on specs/Numbers.antt and on the theorems of proofs/Theorems.antt.
#![tactic(auto)]

ghost use Rattle.std.specs.Prelude.{◌≡◌, true, false, ◌*◌, ◌≤◌, pos};
ghost use Rattle.axis_types.specs.Reading.{is_none, is_read, instant_of, refusal_of, offset_of, offset_refusal};
ghost use Rattle.datetime64_type.specs.Units.{unit_row_of};
ghost use Rattle.calendar.specs.declared.Calendar.TheVariants.{ProlepticGregorian};
ghost use Rattle.step.specs.Closed.{months_of};
ghost use Rattle.calendar_axis.specs.Steps.{read_steps};
ghost use Rattle.calendar_axis.specs.Start.{StartOf};
ghost use Rattle.datetime64_type.specs.declared.UnitRow.{UnitRow};
ghost use Rattle.datetime64_number.specs.Numbers.{is_not_a_time, read_number, write_number};
ghost use Rattle.datetime64_number.specs.Conversions.{ReadsByRatio, WritesByRatio, Reads, Writes, refusal_in, NearBounds};

use calendar::Calendar;
use calendar_axis::Start;
use datetime64_type::{UnitCode, UnitRow};
use ratio::{Bounds, Ratio};
use refusal::Refusal;
use step::Part;

// How the numbers of a unit become instants, or instants its numbers: by steps of the calendar, or by a fixed ratio. It is data that contracts
// speak of, and no closure: one that is handed out is refused.
// The functions below take a unit beside its part and start, or beside its ratio: docs/PROMISES.md names them, and their signatures stay.
#[derive(Clone, Copy)]
pub enum Conversion {
    Calendar(Part, Start),
    Fixed(Ratio),
}

// The microseconds from 1970 back to the first instant of the years -9999 to 9999, and on to the last.
const YEARS_BELOW: u64 = 377_705_116_800_000_000;

const YEARS_ABOVE: u64 = 253_402_300_799_999_999;

// The conversion of numbers into instants. What is multiplied lies in the years where it is an instant, and in 64 bits where it is a number.
pub fn reading_of(unit: UnitCode) -> Conversion
    ensures { Reads (unit_row_of unit) result }
{
    match datetime64_type::row_of(unit) {
        UnitRow::Steps(part) => {
            let start = calendar_axis::start_of(Calendar::ProlepticGregorian, 0);
            Conversion::Calendar(part, start)
        }
        UnitRow::Multiple(k) => {
            Conversion::Fixed(Ratio::new(1, k, YEARS_BELOW / k, YEARS_ABOVE / k))
        }
        UnitRow::Fraction(k) => {
            let most = 0x7fff_ffff_ffff_ffff / k;
            Conversion::Fixed(Ratio::new(k, 1, most, most))
        }
    }
}

// The conversion of instants into numbers: the same steps, and the ratio turned.
pub fn writing_of(unit: UnitCode) -> Conversion
    ensures { Writes (unit_row_of unit) result }
{
    match reading_of(unit) {
        Conversion::Calendar(part, start) => Conversion::Calendar(part, start),
        Conversion::Fixed(ratio) => Conversion::Fixed(ratio.turned()),
    }
}

// ---- reading

// A number of a unit with a fixed ratio. What is refused holds no time, leads out of the years, or is no whole count of microseconds.
fn check_fixed(unit: UnitCode, ratio: Ratio, n: i64) -> Result<(), Refusal>
    requires { ReadsByRatio (unit_row_of unit) ratio }
    ensures { refusal_in result ≡ refusal_of (read_number unit n) }
{
    if ratio.has(n) {
        return Ok(());
    }
    if n == i64::MIN {
        return Err(Refusal::NotATime);
    }
    if ratio.from == 1 {
        return Err(Refusal::OutOfRange);
    }
    Err(Refusal::Inexact)
}

// So many steps from 1970, on or back, are 8000 years, and stay in the years -9999 to 9999.
fn near_steps(part: Part) -> u64
    ensures { (result * months_of part ≡ 96000) × (result ≤ 96000) }
{
    match part {
        Part::Month => 96000,
        Part::Year => 8000,
    }
}

// Bounds between which every number of steps is read.
pub fn near_bounds(part: Part) -> Bounds
    ensures { NearBounds part result }
{
    let most = near_steps(part);
    Bounds {
        low: 0x8000_0000_0000_0000 - most,
        high: 0x8000_0000_0000_0000 + most,
    }
}

// A number of months or years.
fn check_steps(unit: UnitCode, part: Part, start: Start, n: i64) -> Result<(), Refusal>
    requires row { unit_row_of unit ≡ UnitRow.Steps part }
    requires from { StartOf ProlepticGregorian (pos 0) start }
    ensures { refusal_in result ≡ refusal_of (read_number unit n) }
{
    if n == i64::MIN {
        return Err(Refusal::NotATime);
    }
    calendar_axis::read_from(Calendar::ProlepticGregorian, part, start, n)?;
    Ok(())
}

// Whether a number is read.
pub fn check_number(unit: UnitCode, conversion: Conversion, n: i64) -> Result<(), Refusal>
    requires { Reads (unit_row_of unit) conversion }
    ensures { refusal_in result ≡ refusal_of (read_number unit n) }
{
    match conversion {
        Conversion::Calendar(part, start) => check_steps(unit, part, start, n),
        Conversion::Fixed(ratio) => check_fixed(unit, ratio, n),
    }
}

// The instant of a number of months or years that is known to be read.
pub fn instant_by_steps(unit: UnitCode, part: Part, start: Start, n: i64) -> i64
    requires row { unit_row_of unit ≡ UnitRow.Steps part }
    requires from { StartOf ProlepticGregorian (pos 0) start }
    requires read { is_read (read_number unit n) ≡ true }
    ensures { result ≡ instant_of (read_number unit n) }
{
    calendar_axis::instant_after(Calendar::ProlepticGregorian, part, start, n)
}

// The instant of a number of another unit that is known to be read.
pub fn instant_by_ratio(unit: UnitCode, ratio: Ratio, n: i64) -> i64
    requires ratio { ReadsByRatio (unit_row_of unit) ratio }
    requires read { is_read (read_number unit n) ≡ true }
    ensures { result ≡ instant_of (read_number unit n) }
{
    ratio.exchanged(n)
}

// ---- writing

// An instant in a unit with a fixed ratio.
fn check_fixed_instant(unit: UnitCode, ratio: Ratio, t: i64) -> Result<(), Refusal>
    requires { WritesByRatio (unit_row_of unit) ratio }
    ensures { refusal_in result ≡ offset_refusal (write_number unit t) }
{
    if ratio.has(t) {
        return Ok(());
    }
    if instant::in_range(Calendar::ProlepticGregorian, t) {
        return Err(Refusal::Inexact);
    }
    Err(Refusal::OutOfRange)
}

// An instant in months or years, as a number or a refusal.
fn write_steps(unit: UnitCode, part: Part, start: Start, t: i64) -> Result<i64, Refusal>
    requires row { unit_row_of unit ≡ UnitRow.Steps part }
    requires from { StartOf ProlepticGregorian (pos 0) start }
    ensures { result ≡ write_number unit t }
{
    if instant::in_range(Calendar::ProlepticGregorian, t) {
        return calendar_axis::write_from(Calendar::ProlepticGregorian, part, start, t);
    }
    Err(Refusal::OutOfRange)
}

// Whether an instant is written.
pub fn check_instant(unit: UnitCode, conversion: Conversion, t: i64) -> Result<(), Refusal>
    requires { Writes (unit_row_of unit) conversion }
    ensures { refusal_in result ≡ offset_refusal (write_number unit t) }
{
    match conversion {
        Conversion::Calendar(part, start) => write_steps(unit, part, start, t).map(|_| ()),
        Conversion::Fixed(ratio) => check_fixed_instant(unit, ratio, t),
    }
}

// The number of an instant in months or years that is known to be written.
pub fn number_by_steps(unit: UnitCode, part: Part, start: Start, t: i64) -> i64
    requires row { unit_row_of unit ≡ UnitRow.Steps part }
    requires from { StartOf ProlepticGregorian (pos 0) start }
    ensures { result ≡ offset_of (write_number unit t) }
{
    write_steps(unit, part, start, t).unwrap_or(0)
}

// The number of an instant in another unit that is known to be written.
pub fn number_by_ratio(unit: UnitCode, ratio: Ratio, t: i64) -> i64
    requires ratio { WritesByRatio (unit_row_of unit) ratio }
    requires written { is_none (offset_refusal (write_number unit t)) ≡ true }
    ensures { result ≡ offset_of (write_number unit t) }
{
    ratio.exchanged(t)
}
