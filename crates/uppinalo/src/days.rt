// Days and instants of a calendar, which `standard` is with a cutover.
ghost use Rattle.std.specs.Prelude.{◌≡◌};
ghost use Rattle.uppinalo.specs.Days.{no_date, no_day, no_fields, of_date, of_day, of_fields, uppinalo_date_of_day, uppinalo_day_of_date, uppinalo_fields_of};

use calendar::Date;
use instant::Fields;
use refusal::Refusal;

#[repr(C)]
#[derive(Clone, Copy)]
pub struct UppinaloDateAnswer {
    pub number: u32,
    pub date: Date,
}

#[repr(C)]
#[derive(Clone, Copy)]
pub struct UppinaloDayAnswer {
    pub number: u32,
    pub day: i64,
}

#[repr(C)]
#[derive(Clone, Copy)]
pub struct UppinaloFieldsAnswer {
    pub number: u32,
    pub fields: Fields,
}

fn no_date(r: Refusal) -> UppinaloDateAnswer
    ensures { result ≡ no_date r }
{
    let date = Date {
        year: 0,
        month: 0,
        day: 0,
    };
    UppinaloDateAnswer {
        number: refusal::number(r),
        date,
    }
}

fn of_date(a: Result<Date, Refusal>) -> UppinaloDateAnswer
    ensures { result ≡ of_date a }
{
    match a {
        Ok(d) => {
            // field by field: a date that is copied whole goes through memory
            let date = Date {
                year: d.year,
                month: d.month,
                day: d.day,
            };
            return UppinaloDateAnswer { number: 0, date };
        }
        Err(r) => return no_date(r),
    }
}

// The date of a day number.
#[unsafe(no_mangle)]
pub extern "C" fn uppinalo_date_of_day(calendar: u32, cutover: Date, day: i64) -> UppinaloDateAnswer
    ensures { result ≡ uppinalo_date_of_day calendar cutover day }
{
    match codes::calendar_given(calendar, cutover) {
        Err(refused) => return no_date(refused),
        Ok(c) => return of_date(calendar::date_of_day(c, day)),
    }
}

fn no_day(r: Refusal) -> UppinaloDayAnswer
    ensures { result ≡ no_day r }
{
    UppinaloDayAnswer {
        number: refusal::number(r),
        day: 0,
    }
}

fn of_day(a: Result<i64, Refusal>) -> UppinaloDayAnswer
    ensures { result ≡ of_day a }
{
    match a {
        Ok(day) => return UppinaloDayAnswer { number: 0, day },
        Err(r) => return no_day(r),
    }
}

// The day number of a date.
#[unsafe(no_mangle)]
pub extern "C" fn uppinalo_day_of_date(
    calendar: u32,
    cutover: Date,
    date: Date,
) -> UppinaloDayAnswer
    ensures { result ≡ uppinalo_day_of_date calendar cutover date }
{
    match codes::calendar_given(calendar, cutover) {
        Err(refused) => return no_day(refused),
        Ok(c) => return of_day(calendar::day_of_date(c, date)),
    }
}

fn no_fields(r: Refusal) -> UppinaloFieldsAnswer
    ensures { result ≡ no_fields r }
{
    let fields = Fields {
        year: 0,
        month: 0,
        day: 0,
        hour: 0,
        minute: 0,
        second: 0,
        microsecond: 0,
    };
    UppinaloFieldsAnswer {
        number: refusal::number(r),
        fields,
    }
}

fn of_fields(a: Result<Fields, Refusal>) -> UppinaloFieldsAnswer
    ensures { result ≡ of_fields a }
{
    match a {
        Ok(f) => {
            // field by field, as of a date
            let fields = Fields {
                year: f.year,
                month: f.month,
                day: f.day,
                hour: f.hour,
                minute: f.minute,
                second: f.second,
                microsecond: f.microsecond,
            };
            return UppinaloFieldsAnswer { number: 0, fields };
        }
        Err(r) => return no_fields(r),
    }
}

// The fields of an instant.
#[unsafe(no_mangle)]
pub extern "C" fn uppinalo_fields_of(
    calendar: u32,
    cutover: Date,
    instant: i64,
) -> UppinaloFieldsAnswer
    ensures { result ≡ uppinalo_fields_of calendar cutover instant }
{
    match codes::calendar_given(calendar, cutover) {
        Err(refused) => return no_fields(refused),
        Ok(c) => return of_fields(instant::fields_of(c, instant)),
    }
}
