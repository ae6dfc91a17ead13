// Tables of words (specs/Table.antt). A word of at most eight bytes is looked up as one number, with two
// hexadecimal digits for each byte, by a `match`; proofs/Words.antt has the laws for such a function.
#![tactic(auto)]

ghost use Rattle.std.specs.Prelude.{◌≡◌, ◌≤◌, length};
ghost use Rattle.word_table.specs.Packed.{packed};

// A word of at most eight bytes as one number.
pub fn packed_of(d: &[u8]) -> u64
    requires { length d.now ≤ 8 }
    ensures { result ≡ packed d.now }
{
    let mut v = 0;
    for &b in d {
        v = v * 256 + u64::from(b);
    }
    v
}
