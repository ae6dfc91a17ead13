// One offset on an axis.
ghost use Rattle.std.specs.Prelude.{◌≡◌};
ghost use Rattle.uppinalo.specs.Offsets.{no_reading, of_offset_reading, no_offset, of_offset, uppinalo_read_whole, uppinalo_read_double, uppinalo_write_instant, uppinalo_write_fields};

use crate::texts::UppinaloReading;
use axis_types::OffsetReading;
use codes::UppinaloAxis;
use instant::Fields;
use refusal::Refusal;

#[repr(C)]
#[derive(Clone, Copy)]
pub struct UppinaloOffsetAnswer {
    pub number: u32,
    pub offset: i64,
}

fn no_reading(r: Refusal) -> UppinaloReading
    ensures { result ≡ no_reading r }
{
    UppinaloReading {
        number: refusal::number(r),
        instant: 0,
        exact: false,
        days_back: 0,
    }
}

fn of_reading(a: Result<OffsetReading, Refusal>) -> UppinaloReading
    ensures { result ≡ of_offset_reading a }
{
    match a {
        Ok(reading) => return UppinaloReading {
            number: 0,
            instant: reading.instant,
            exact: reading.exact,
            days_back: reading.days_back,
        },
        Err(r) => return no_reading(r),
    }
}

fn no_offset(r: Refusal) -> UppinaloOffsetAnswer
    ensures { result ≡ no_offset r }
{
    UppinaloOffsetAnswer {
        number: refusal::number(r),
        offset: 0,
    }
}

fn of_offset(a: Result<i64, Refusal>) -> UppinaloOffsetAnswer
    ensures { result ≡ of_offset a }
{
    match a {
        Ok(offset) => return UppinaloOffsetAnswer { number: 0, offset },
        Err(r) => return no_offset(r),
    }
}

// A whole offset read as an instant.
#[unsafe(no_mangle)]
pub extern "C" fn uppinalo_read_whole(axis: UppinaloAxis, offset: i64) -> UppinaloReading
    ensures { result ≡ uppinalo_read_whole axis offset }
{
    match codes::axis_of(axis) {
        Err(r) => return no_reading(r),
        Ok(a) => return of_reading(axis::read_whole(a, offset)),
    }
}

// A double read as an instant.
#[unsafe(no_mangle)]
pub extern "C" fn uppinalo_read_double(axis: UppinaloAxis, offset: f64) -> UppinaloReading
    ensures { result ≡ uppinalo_read_double axis offset }
{
    match codes::axis_of(axis) {
        Err(r) => return no_reading(r),
        Ok(a) => return of_reading(axis::read_double(a, offset)),
    }
}

// The whole offset that reads as an instant.
#[unsafe(no_mangle)]
pub extern "C" fn uppinalo_write_instant(axis: UppinaloAxis, instant: i64) -> UppinaloOffsetAnswer
    ensures { result ≡ uppinalo_write_instant axis instant }
{
    match codes::axis_of(axis) {
        Err(r) => return no_offset(r),
        Ok(a) => return of_offset(axis::write_instant(a, instant)),
    }
}

// The whole offset that reads as the instant of fields.
#[unsafe(no_mangle)]
pub extern "C" fn uppinalo_write_fields(axis: UppinaloAxis, fields: Fields) -> UppinaloOffsetAnswer
    ensures { result ≡ uppinalo_write_fields axis fields }
{
    match codes::axis_of(axis) {
        Err(r) => return no_offset(r),
        Ok(a) => return of_offset(axis::write_fields(a, fields)),
    }
}
