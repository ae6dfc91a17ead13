// Numbers of 64 bits as eight bytes, the least significant first.
#![tactic(auto)]

ghost use Rattle.std.specs.Prelude.{◌≡◌, length};
ghost use Rattle.int64_bytes.specs.LittleEndian.{little_endian, little_bytes};

// The number of eight bytes that lie one after another. The compiler makes one load of it.
#[tactic(auto, using(crate::proofs::Words::number_is))]
pub fn little_endian(bytes: &[u8]) -> u64
    requires { length bytes.now ≡ 8 }
    ensures { result ≡ little_endian bytes.now }
{
    u64::from_le_bytes(*bytes.as_array().unwrap())
}

// The eight bytes of a number.
#[tactic(auto, using(crate::proofs::Words::bytes_are))]
pub fn little_bytes(w: u64) -> [u8; 8]
    ensures { result ≡ little_bytes 8 w }
{
    w.to_le_bytes()
}
