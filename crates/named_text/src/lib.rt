// What comes before the grammar of a text that is read in the calendar of a name with a cutover (specs/Texts.antt): the text's length, then the
// name, then the cutover.
// `text_calendar` is total.
#![tactic(auto)]

ghost use Rattle.std.specs.Prelude.{◌≡◌};
ghost use Rattle.named_text.specs.Texts.{text_calendar};

use calendar::{Calendar, Date};
use refusal::Refusal;

// The calendar in which a text is read.
pub fn text_calendar(name: &[u8], x: Date, text: &[u8]) -> Result<Calendar, Refusal>
    ensures { result ≡ text_calendar name.now x text.now }
{
    if 128 < text.len() {
        return Err(Refusal::TextTooLong);
    }
    let Some(c) = calendar_name::calendar_of(name) else {
        return Err(Refusal::UnknownCalendar);
    };
    cutover::with_cutover(c, x)
}
