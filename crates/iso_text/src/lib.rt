// ISO text: an instant read from a calendar name, a cutover and a text, and an instant written into lent room (specs/Iso.antt). `read_iso` and
// `write_iso` are total. proofs/RoundTrip.antt shows that reading what was written gives the instant, so that no two instants of a calendar share a text.
#![tactic(auto)]

ghost use Rattle.std.specs.Prelude.{◌≡◌, true, nat_abs};
ghost use Rattle.calendar.specs.Calendar.{in_years};
ghost use Rattle.iso_text.specs.Iso.{read_iso, utc_date, write_iso, room_iso};

use calendar::{Calendar, Date};
use date_text::{Time, WrittenDate, Zone};
use instant::Fields;
use refusal::Refusal;

// The instant of a text in the calendar of a name with a cutover.
pub fn read_iso(name: &[u8], x: Date, text: &[u8]) -> Result<i64, Refusal>
    ensures { result ≡ read_iso name.now x text.now }
{
    let c = named_text::text_calendar(name, x, text)?;
    let Some(w) = date_text::read_date(text) else {
        return Err(Refusal::IllFormed);
    };
    written_instant::written_instant(c, w)
}

// A year of four digits without its sign.
fn year_digits(y: i64) -> u32
    requires { in_years y ≡ true }
    ensures { result ≡ nat_abs y }
{
    y.unsigned_abs() as u32
}

// Fields as a date that is written.
fn written_of(f: Fields) -> WrittenDate
    requires { in_years f.year ≡ true }
    ensures { result ≡ utc_date f }
{
    WrittenDate {
        negative: f.year < 0,
        year: year_digits(f.year),
        month: f.month,
        day: f.day,
        time: Time {
            hour: f.hour,
            minute: f.minute,
            second: f.second,
            microsecond: f.microsecond,
            zone: Zone {
                behind: false,
                hours: 0,
                minutes: 0,
            },
        },
    }
}

// Writes the text of an instant, and answers its length. Room beyond it keeps its bytes, and on a refusal all of it does.
pub fn write_iso(c: Calendar, t: i64, room: &mut [u8]) -> Result<usize, Refusal>
    ensures value { result ≡ write_iso c t room.old }
    ensures room_after { room.new ≡ room_iso c t room.old }
{
    let f = instant::fields_of(c, t)?;
    iso_form::write_form(written_of(f), room)
}
