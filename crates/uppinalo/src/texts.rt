// Units text and ISO text.
ghost use Rattle.std.specs.Prelude.{◌≡◌};
ghost use Rattle.uppinalo.specs.Texts.{no_length, of_length, uppinalo_write_iso, uppinalo_write_iso_room, of_instant, uppinalo_read_iso, no_axis, of_axis, uppinalo_read_units};

use axis_types::Axis;
use calendar::Date;
use codes::UppinaloAxis;
use refusal::Refusal;

#[repr(C)]
#[derive(Clone, Copy)]
pub struct UppinaloReading {
    pub number: u32,
    pub instant: i64,
    pub exact: bool,
    pub days_back: u32,
}

#[repr(C)]
#[derive(Clone, Copy)]
pub struct UppinaloLengthAnswer {
    pub number: u32,
    pub length: usize,
}

#[repr(C)]
#[derive(Clone, Copy)]
pub struct UppinaloAxisAnswer {
    pub number: u32,
    pub axis: UppinaloAxis,
}

fn of_instant(a: Result<i64, Refusal>) -> UppinaloReading
    ensures { result ≡ of_instant a }
{
    match a {
        Ok(instant) => return UppinaloReading {
            number: 0,
            instant,
            exact: true,
            days_back: 0,
        },
        Err(r) => return UppinaloReading {
            number: refusal::number(r),
            instant: 0,
            exact: false,
            days_back: 0,
        },
    }
}

// The instant of an ISO text, in the calendar of a name with a cutover. What is read is exact, and no day is stepped back.
#[unsafe(no_mangle)]
pub extern "C" fn uppinalo_read_iso(calendar: &[u8], cutover: Date, text: &[u8]) -> UppinaloReading
    ensures { result ≡ uppinalo_read_iso calendar.now cutover text.now }
{
    of_instant(iso_text::read_iso(calendar, cutover, text))
}

pub(crate) fn no_axis(r: Refusal) -> UppinaloAxisAnswer
    ensures { result ≡ no_axis r }
{
    let axis = UppinaloAxis {
        calendar: 0,
        period: 0,
        mode: 0,
        reference: 0,
        cutover: cutover::first_cutover(),
    };
    UppinaloAxisAnswer {
        number: refusal::number(r),
        axis,
    }
}

// The axis that was read, with the cutover as it was given.
fn of_axis(a: Result<Axis, Refusal>, cutover: Date) -> UppinaloAxisAnswer
    ensures { result ≡ of_axis a cutover }
{
    match a {
        Ok(x) => {
            let axis = codes::axis_code(x, cutover);
            return UppinaloAxisAnswer { number: 0, axis };
        }
        Err(r) => return no_axis(r),
    }
}

// The axis of a units text, in the calendar of a name with a cutover.
#[unsafe(no_mangle)]
pub extern "C" fn uppinalo_read_units(
    calendar: &[u8],
    cutover: Date,
    text: &[u8],
) -> UppinaloAxisAnswer
    ensures { result ≡ uppinalo_read_units calendar.now cutover text.now }
{
    of_axis(axis_text::read_units(calendar, cutover, text), cutover)
}

fn no_length(r: Refusal) -> UppinaloLengthAnswer
    ensures { result ≡ no_length r }
{
    UppinaloLengthAnswer {
        number: refusal::number(r),
        length: 0,
    }
}

fn of_length(a: Result<usize, Refusal>) -> UppinaloLengthAnswer
    ensures { result ≡ of_length a }
{
    match a {
        Ok(length) => return UppinaloLengthAnswer { number: 0, length },
        Err(r) => return no_length(r),
    }
}

// The ISO text of an instant, written into lent room.
#[unsafe(no_mangle)]
pub extern "C" fn uppinalo_write_iso(
    calendar: u32,
    cutover: Date,
    instant: i64,
    room: &mut [u8],
) -> UppinaloLengthAnswer
    ensures value { result ≡ uppinalo_write_iso calendar cutover instant room.old }
    ensures room_after { room.new ≡ uppinalo_write_iso_room calendar cutover instant room.old }
{
    match codes::calendar_given(calendar, cutover) {
        Err(r) => return no_length(r),
        Ok(c) => return of_length(iso_text::write_iso(c, instant, room)),
    }
}
