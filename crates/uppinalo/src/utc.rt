// UTC by TT2000 and a lent list of leap seconds.
ghost use Rattle.std.specs.Prelude.{◌≡◌};
ghost use Rattle.uppinalo.specs.Utc.{no_utc_fields, of_utc, uppinalo_read_tt2000, no_tt2000, of_tt2000, uppinalo_write_tt2000};

use refusal::Refusal;
use tt2000::UtcFields;

#[repr(C)]
#[derive(Clone, Copy)]
pub struct UppinaloUtcFieldsAnswer {
    pub number: u32,
    pub fields: UtcFields,
}

#[repr(C)]
#[derive(Clone, Copy)]
pub struct UppinaloTt2000Answer {
    pub number: u32,
    pub tt2000: i64,
}

fn no_utc_fields(r: Refusal) -> UppinaloUtcFieldsAnswer
    ensures { result ≡ no_utc_fields r }
{
    let fields = UtcFields {
        year: 0,
        month: 0,
        day: 0,
        hour: 0,
        minute: 0,
        second: 0,
        nanosecond: 0,
    };
    UppinaloUtcFieldsAnswer {
        number: refusal::number(r),
        fields,
    }
}

fn of_utc(a: Result<UtcFields, Refusal>) -> UppinaloUtcFieldsAnswer
    ensures { result ≡ of_utc a }
{
    match a {
        Ok(f) => {
            // field by field, as the fields of an instant
            let fields = UtcFields {
                year: f.year,
                month: f.month,
                day: f.day,
                hour: f.hour,
                minute: f.minute,
                second: f.second,
                nanosecond: f.nanosecond,
            };
            return UppinaloUtcFieldsAnswer { number: 0, fields };
        }
        Err(r) => return no_utc_fields(r),
    }
}

// The fields of a TT2000.
#[unsafe(no_mangle)]
pub extern "C" fn uppinalo_read_tt2000(leaps: &[u8], tt2000: i64) -> UppinaloUtcFieldsAnswer
    ensures { result ≡ uppinalo_read_tt2000 leaps.now tt2000 }
{
    of_utc(tt2000::read_tt2000(leaps, tt2000))
}

fn no_tt2000(r: Refusal) -> UppinaloTt2000Answer
    ensures { result ≡ no_tt2000 r }
{
    UppinaloTt2000Answer {
        number: refusal::number(r),
        tt2000: 0,
    }
}

fn of_tt2000(a: Result<i64, Refusal>) -> UppinaloTt2000Answer
    ensures { result ≡ of_tt2000 a }
{
    match a {
        Ok(tt2000) => return UppinaloTt2000Answer { number: 0, tt2000 },
        Err(r) => return no_tt2000(r),
    }
}

// The TT2000 of fields.
#[unsafe(no_mangle)]
pub extern "C" fn uppinalo_write_tt2000(leaps: &[u8], fields: UtcFields) -> UppinaloTt2000Answer
    ensures { result ≡ uppinalo_write_tt2000 leaps.now fields }
{
    of_tt2000(tt2000::write_tt2000(leaps, fields))
}
