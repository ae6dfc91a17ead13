// A units text that arrives in fragments: the state that a host lends to each call, and by value what a call makes of it
// (specs/Fragments.antt). All functions that are `pub` are total.
#![tactic(auto)]

ghost use Rattle.std.specs.Prelude.{◌≡◌, ◌+◌, ◌≤◌};
ghost use Rattle.units_fragments.specs.Fragments.{fresh_state, is_open, count_of, with_fragment, after_fragment, after_end};

// The text so far: `count` is the number of its bytes, 129 once there are more than 128, and `ended` is 0 until the end.
#[repr(C)]
#[derive(Clone, Copy)]
pub struct UnitsState {
    pub count: u32,
    pub ended: u32,
    pub bytes: [u8; 128],
}

pub fn fresh_state() -> UnitsState
    ensures { result ≡ fresh_state }
{
    UnitsState {
        count: 0,
        ended: 0,
        bytes: [0; 128],
    }
}

// Whether a state takes a fragment or an end.
pub fn is_open(s: UnitsState) -> bool
    ensures { result ≡ is_open s }
{
    s.ended == 0 && s.count <= 129
}

// The count with n bytes more.
fn count_after(count: usize, n: usize) -> u32
    requires { count ≤ 128 }
    ensures { result ≡ count_of (count + n) }
{
    if 128 - count < n {
        129
    } else {
        (count + n) as u32
    }
}

// A state with a fragment more: the bytes that fit are copied behind those so far. The bytes alone are taken out of the state, since a state
// that is changed would be copied once more.
fn with_fragment(s: UnitsState, fragment: &[u8]) -> UnitsState
    requires { s.count ≤ 129 }
    ensures { result ≡ with_fragment s fragment.now }
{
    if s.count == 129 {
        return s;
    }
    let count = s.count as usize;
    let n = (128 - count).min(fragment.len());
    let mut bytes = s.bytes;
    bytes[count..count + n].copy_from_slice(&fragment[..n]);
    UnitsState {
        count: count_after(count, fragment.len()),
        bytes,
        ..s
    }
}

// The state that a fragment leaves.
#[tactic(auto, unfolding(crate::specs::Fragments::after_fragment))]
pub fn after_fragment(s: UnitsState, fragment: &[u8]) -> UnitsState
    ensures { result ≡ after_fragment s fragment.now }
{
    if is_open(s) {
        with_fragment(s, fragment)
    } else {
        s
    }
}

// The state that the end leaves, refused or not.
#[tactic(auto, unfolding(crate::specs::Fragments::after_end))]
pub fn after_end(s: UnitsState) -> UnitsState
    ensures { result ≡ after_end s }
{
    if is_open(s) {
        UnitsState { ended: 1, ..s }
    } else {
        s
    }
}
