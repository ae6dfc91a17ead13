// Calendar names (specs/Names.antt): the calendar of a name, or that the name is not listed. `calendar_of` is total.
#![tactic(auto)]

ghost use Rattle.std.specs.Prelude.{◌≡◌, ◌≤◌, ◌<◌, length};
ghost use Rattle.word_table.specs.Table.{lookup};
ghost use Rattle.calendar_name.specs.Names.{calendar_names, calendar_of, calendar_named};

use calendar::Calendar;
use grammar::same_bytes;

// The calendar of a listed name.
fn listed(name: &[u8]) -> Option<Calendar>
    ensures { result ≡ calendar_named (lookup calendar_names name.now) }
{
    if same_bytes(name, b"standard") || same_bytes(name, b"gregorian") {
        return Some(Calendar::Standard(0));
    }
    if same_bytes(name, b"proleptic_gregorian") || same_bytes(name, b"ISO8601") {
        return Some(Calendar::ProlepticGregorian);
    }
    if same_bytes(name, b"julian") {
        return Some(Calendar::Julian);
    }
    if same_bytes(name, b"noleap") || same_bytes(name, b"no_leap") || same_bytes(name, b"365_day") {
        return Some(Calendar::NoLeap);
    }
    if same_bytes(name, b"all_leap") || same_bytes(name, b"366_day") {
        return Some(Calendar::AllLeap);
    }
    if same_bytes(name, b"uniform30day") || same_bytes(name, b"360_day") {
        return Some(Calendar::Day360);
    }
    None
}

// The calendar of a name; `standard` with the cutover of 1582.
pub fn calendar_of(name: &[u8]) -> Option<Calendar>
    ensures { result ≡ calendar_named (calendar_of name.now) }
{
    if name.is_empty() {
        return Some(Calendar::Standard(0));
    }
    listed(name)
}
