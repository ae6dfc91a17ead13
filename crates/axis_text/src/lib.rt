// An axis read from a calendar name, a cutover and a units text (specs/Units.antt). `read_units` is total.
#![tactic(auto)]

ghost use Rattle.std.specs.Prelude.{◌≡◌};
ghost use Rattle.axis_text.specs.Units.{axis_of, read_units};

use axis_types::Axis;
use calendar::{Calendar, Date};
use refusal::Refusal;
use units_text::Units;

// The axis of units in a calendar.
fn axis_of(calendar: Calendar, u: Units) -> Result<Axis, Refusal>
    ensures { result ≡ axis_of calendar u }
{
    let period = u.period;
    let mode = u.mode;
    let reference = written_instant::written_instant(calendar, u.reference)?;
    Ok(Axis {
        calendar,
        period,
        mode,
        reference,
    })
}

// The axis of a units text in the calendar of a name with a cutover.
pub fn read_units(name: &[u8], x: Date, text: &[u8]) -> Result<Axis, Refusal>
    ensures { result ≡ read_units name.now x text.now }
{
    let calendar = named_text::text_calendar(name, x, text)?;
    let Some(u) = units_text::read_units(text) else {
        return Err(Refusal::IllFormed);
    };
    axis_of(calendar, u)
}
