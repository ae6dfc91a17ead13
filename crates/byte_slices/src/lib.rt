// A copy to the front of a slice of bytes, and a search for a byte in a part of one.
#![tactic(auto)]

ghost use Rattle.std.specs.Prelude.{◌≡◌, ◌+◌, ◌≤◌, ◌++◌, ◌==◌, length, drop, position};
ghost use Rattle.byte_slices.specs.Bytes.{index_of, slice};

// Copies bytes to the front of room that is long enough, and answers how many they are.
pub fn copy(from: &[u8], room: &mut [u8]) -> usize
    requires { length from.now ≤ length room.old }
    ensures count { result ≡ length from.now }
    ensures copied { room.new ≡ from.now ++ drop (length from.now) room.old }
{
    let n = from.len();
    room[..n].copy_from_slice(from);
    n
}

// The first place of a byte.
fn place(bytes: &[u8], byte: u8) -> Option<usize>
    ensures { result ≡ position (λ b. b == byte) bytes.now }
{
    bytes.iter().position(|b| *b == byte)
}

// The first place of a byte from one place on and before another, or that other place.
#[tactic(auto, using(crate::proofs::Places::found, crate::proofs::Places::missed))]
pub fn find(bytes: &[u8], from: usize, to: usize, byte: u8) -> usize
    requires { (from ≤ to) × (to ≤ length bytes.now) }
    ensures value { result ≡ from + index_of byte (slice from to bytes.now) }
    ensures inside { (from ≤ result) × (result ≤ to) }
{
    match place(&bytes[from..to], byte) {
        Some(i) => from + i,
        None => to,
    }
}
