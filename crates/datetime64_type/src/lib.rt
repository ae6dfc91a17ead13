// The type of a datetime64 array, as its identifier names it: the byte order of its records and one of thirteen units.
// A reader may rely on specs/Units.antt and specs/Identifier.antt.
#![tactic(auto)]

ghost use Rattle.std.specs.Prelude.{◌≡◌};
ghost use Rattle.datetime64_type.specs.Units.{unit_row_of};

use step::Part;

pub mod identifier;

#[derive(Clone, Copy)]
pub enum ByteOrder {
    Little,
    Big,
}

#[derive(Clone, Copy)]
pub enum UnitCode {
    Year,
    Month,
    Week,
    Day,
    Hour,
    Minute,
    Second,
    Millisecond,
    Microsecond,
    Nanosecond,
    Picosecond,
    Femtosecond,
    Attosecond,
}

#[derive(Clone, Copy)]
pub struct Datetime64Type {
    pub order: ByteOrder,
    pub unit: UnitCode,
}

// What one of a unit is: a calendar step, so many microseconds, or a microsecond divided by so many.
#[derive(Clone, Copy)]
pub enum UnitRow {
    Steps(Part),
    Multiple(u64),
    Fraction(u64),
}

pub fn row_of(unit: UnitCode) -> UnitRow
    ensures { result ≡ unit_row_of unit }
{
    match unit {
        UnitCode::Year => UnitRow::Steps(Part::Year),
        UnitCode::Month => UnitRow::Steps(Part::Month),
        UnitCode::Week => UnitRow::Multiple(604_800_000_000),
        UnitCode::Day => UnitRow::Multiple(86_400_000_000),
        UnitCode::Hour => UnitRow::Multiple(3_600_000_000),
        UnitCode::Minute => UnitRow::Multiple(60_000_000),
        UnitCode::Second => UnitRow::Multiple(1_000_000),
        UnitCode::Millisecond => UnitRow::Multiple(1_000),
        UnitCode::Microsecond => UnitRow::Multiple(1),
        UnitCode::Nanosecond => UnitRow::Fraction(1_000),
        UnitCode::Picosecond => UnitRow::Fraction(1_000_000),
        UnitCode::Femtosecond => UnitRow::Fraction(1_000_000_000),
        UnitCode::Attosecond => UnitRow::Fraction(1_000_000_000_000),
    }
}
