// The instant of a date as it is written, in a calendar: local date and time, less the zone (specs/Instants.antt).
#![tactic(auto)]

ghost use Rattle.std.specs.Prelude.{◌≡◌, true};
ghost use Rattle.instant.specs.Instant.{in_range};
ghost use Rattle.written_instant.specs.Instants.{is_zone, ranged, less_zone, written_instant};

use calendar::Calendar;
use date_text::{WrittenDate, Zone};
use instant::Fields;
use refusal::Refusal;

// An instant, or that its year lies past -9999 to 9999.
fn ranged_instant(c: Calendar, t: i64) -> Result<i64, Refusal>
    ensures { result ≡ ranged c t }
{
    if instant::in_range(c, t) {
        return Ok(t);
    }
    return Err(Refusal::OutOfRange);
}

// Whether a zone is possible.
fn is_zone(z: Zone) -> bool
    ensures { result ≡ is_zone z }
{
    if 24 <= z.hours {
        return false;
    }
    return z.minutes < 60;
}

// A local instant less a zone.
fn less_zone(c: Calendar, z: Zone, t: i64) -> Result<i64, Refusal>
    requires { (is_zone z ≡ true) × (in_range c t ≡ true) }
    ensures { result ≡ less_zone c z (Ok t) }
{
    let m = ((z.hours as u64) * 60 + (z.minutes as u64)) * 60000000;
    if m == 0 {
        return Ok(t);
    }
    let k = signed::biased(t);
    if z.behind {
        return ranged_instant(c, signed::unbiased(k + m));
    }
    return ranged_instant(c, signed::unbiased(k - m));
}

// The instant of a written date: its zone stands beside the local fields.
pub fn written_instant(c: Calendar, w: WrittenDate) -> Result<i64, Refusal>
    ensures { result ≡ written_instant c w }
{
    let t = w.time;
    let z = t.zone;
    let f = Fields {
        year: signed::signed_size(w.negative, w.year as u64),
        month: w.month,
        day: w.day,
        hour: t.hour,
        minute: t.minute,
        second: t.second,
        microsecond: t.microsecond,
    };
    match instant::found_instant(c, f, is_zone(z)) {
        Some(u) => return less_zone(c, z, u),
        None => {
            return Err(instant::fields_refusal(c, f, is_zone(z)));
        }
    }
}
