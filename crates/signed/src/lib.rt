// The border between signed and unsigned numbers. Arithmetic on dates is unsigned: a signed number goes there as the natural number
// n + 2^63, and comes back by `unbiased`. Both directions are total.
#![tactic(auto)]

ghost use Rattle.std.specs.Prelude.{◌≡◌, ◌<◌, ◌^◌};
ghost use Rattle.signed.specs.Bias.{biased, unbiased};
ghost use Rattle.signed.specs.Sign.{with_sign};

const BIAS: u64 = 1 << 63;

// n + 2^63
pub fn biased(n: i64) -> u64
    ensures { result ≡ biased n }
{
    n.cast_unsigned().wrapping_add(BIAS)
}

// k - 2^63
pub fn unbiased(k: u64) -> i64
    ensures { result ≡ unbiased k }
{
    k.wrapping_sub(BIAS).cast_signed()
}

// n, or -n.
pub fn signed_size(negative: bool, n: u64) -> i64
    requires { n < 2 ^ 63 }
    ensures { result ≡ with_sign negative n }
{
    let size = n as i64;
    if negative { -size } else { size }
}
