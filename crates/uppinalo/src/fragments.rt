// A units text in fragments. Each of the two calls over a state is thin: it takes the state out of the lent place, puts back what one
// function makes of it, and answers what another says of it.
ghost use Rattle.std.specs.Prelude.{◌≡◌};
ghost use Rattle.uppinalo.specs.Fragments.{uppinalo_start_units, uppinalo_add_units, uppinalo_add_units_state, read_so_far, uppinalo_end_units, uppinalo_end_units_state};

use crate::texts::{UppinaloAxisAnswer, no_axis, uppinalo_read_units};
use calendar::Date;
use refusal::Refusal;
use units_fragments::UnitsState;

// A fresh state.
#[unsafe(no_mangle)]
pub extern "C" fn uppinalo_start_units() -> UnitsState
    ensures { result ≡ uppinalo_start_units }
{
    units_fragments::fresh_state()
}

// What adding answers, whatever the fragment is.
fn add_answer(s: UnitsState, fragment: &[u8]) -> u32
    ensures { result ≡ uppinalo_add_units s fragment.now }
{
    if units_fragments::is_open(s) {
        return 0;
    }
    refusal::number(Refusal::NotOpen)
}

// A fragment, added to the state.
#[unsafe(no_mangle)]
pub extern "C" fn uppinalo_add_units(state: &mut UnitsState, fragment: &[u8]) -> u32
    ensures answered { result ≡ uppinalo_add_units state.old fragment.now }
    ensures written { state.new ≡ uppinalo_add_units_state state.old fragment.now }
{
    let old = *state;
    *state = units_fragments::after_fragment(old, fragment);
    add_answer(old, fragment)
}

// The state that the end leaves, whatever the name and the cutover are.
fn end_state(s: UnitsState, calendar: &[u8], cutover: Date) -> UnitsState
    ensures { result ≡ uppinalo_end_units_state s calendar.now cutover }
{
    units_fragments::after_end(s)
}

// The axis of the bytes so far.
fn read_so_far(s: UnitsState, calendar: &[u8], cutover: Date) -> UppinaloAxisAnswer
    ensures { result ≡ read_so_far s calendar.now cutover }
{
    if 128 < s.count {
        return no_axis(Refusal::TextTooLong);
    }
    let n = s.count as usize;
    let bytes = s.bytes;
    uppinalo_read_units(calendar, cutover, &bytes[..n])
}

// What the end answers.
fn end_answer(s: UnitsState, calendar: &[u8], cutover: Date) -> UppinaloAxisAnswer
    ensures { result ≡ uppinalo_end_units s calendar.now cutover }
{
    if units_fragments::is_open(s) {
        return read_so_far(s, calendar, cutover);
    }
    no_axis(Refusal::NotOpen)
}

// The end: the axis of the units text, in the calendar of a name with a cutover.
#[unsafe(no_mangle)]
pub extern "C" fn uppinalo_end_units(
    state: &mut UnitsState,
    calendar: &[u8],
    cutover: Date,
) -> UppinaloAxisAnswer
    ensures answered { result ≡ uppinalo_end_units state.old calendar.now cutover }
    ensures written { state.new ≡ uppinalo_end_units_state state.old calendar.now cutover }
{
    let old = *state;
    *state = end_state(old, calendar, cutover);
    end_answer(old, calendar, cutover)
}
