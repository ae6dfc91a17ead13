// Products past 64 bits and their quotients by powers of two, rounded to the nearest whole number, a tie to the even one.
// A reader may rely on `closest a d` of the library lib.Ieee.Nearest: every rounding here is an equation with it.
#![tactic(auto)]

ghost use Rattle.std.specs.Prelude.{◌≡◌, ◌+◌, ◌*◌, ◌/◌, ◌^◌, ◌≤◌, ◌<◌};
ghost use Rattle.rounding.specs.Rounding.{RoundedTo};
ghost use Rattle.rounding.specs.Columns.{high_columns};
ghost use Rattle.rounding.specs.Steps.{sticky_of, increment_of};

// A rounded quotient, and whether nothing was left over.
#[derive(Clone, Copy)]
pub struct Rounded {
    pub count: u64,
    pub exact: bool,
}

// a * b
pub fn product(a: u64, b: u64) -> u128
    ensures { result ≡ a * b }
{
    u128::from(a) * u128::from(b)
}

// The high word of a * b, which the columns in base 2^32 give too.
#[tactic(auto, using(crate::proofs::Columns::high_word))]
pub fn high_product(a: u64, b: u64) -> u64
    ensures value { result ≡ a * b / 2 ^ 64 }
    ensures columns { result ≡ high_columns a b }
{
    (product(a, b) >> 64) as u64
}

// The sticky bit: 1 for every number but 0.
fn sticky(n: u64) -> u64
    ensures { result ≡ sticky_of n }
{
    u64::from(n != 0)
}

// What rounding adds to a quotient whose last digit is `odd`, where a rest of 2^63 is the half: 1 above it, 0 below it, and at it 1
// to an odd one.
fn increment(rest: u64, odd: u64) -> u64
    requires { odd ≤ 1 }
    ensures { result ≡ increment_of rest odd }
{
    u64::from(0x8000_0000_0000_0000 - odd < rest)
}

// n / 2^(64 + shift), rounded. The digits that are shifted out of the high word stand at the top of `rest`, and the low word is folded into
// a sticky bit: shifts of n itself, of 128 bits, are slower.
pub fn round_high(n: u128, shift: u64) -> Rounded
    requires { (1 ≤ shift) × (shift < 64) }
    ensures { RoundedTo result n (2 ^ (64 + shift)) }
{
    let high = (n >> 64) as u64;
    let low = (n % (1 << 64)) as u64;
    let whole = high >> shift;
    let rest = (high << (64 - shift)) + sticky(low);
    let more = increment(rest, whole % 2);
    Rounded {
        count: whole + more,
        exact: rest == 0,
    }
}
