// A double as a whole 64-bit offset, for calendar mode. A reader may rely on `whole_of` of specs/Whole.antt.
ghost use Rattle.std.specs.Prelude.{◌≡◌, ◌<◌};
ghost use Rattle.signed.specs.Sign.{with_sign};
ghost use Rattle.double.specs.Whole.{whole_of, in64};
ghost use Rattle.double.specs.Fields.{WholeSize};

use crate::Pattern;
use refusal::Refusal;

// 0 among the numbers with their bias.
const ZERO: u64 = 1 << 63;

// The size of a finite double; Inexact for a fraction, and OutOfRange for a whole number of 2^64 or more.
fn size_of(p: Pattern) -> Result<u64, Refusal>
    requires { p.field < 2047 }
    ensures { WholeSize result p.field p.digits }
{
    if 1087 <= p.field {
        return Err(Refusal::OutOfRange);
    }
    if p.field < 1023 {
        if p.field + p.digits == 0 {
            return Ok(0);
        }
        return Err(Refusal::Inexact);
    }
    let q = p.digits + 0x10_0000_0000_0000;
    if 1075 < p.field {
        return Ok(q << (p.field - 1075));
    }
    let n = q >> (1075 - p.field);
    if n << (1075 - p.field) == q {
        Ok(n)
    } else {
        Err(Refusal::Inexact)
    }
}

// A size with its sign, where it fits.
fn with_sign(n: u64, negative: bool) -> Result<i64, Refusal>
    ensures { result ≡ in64 (with_sign negative n) }
{
    if negative {
        if n <= ZERO {
            Ok(signed::unbiased(ZERO - n))
        } else {
            Err(Refusal::OutOfRange)
        }
    } else if n < ZERO {
        Ok(n as i64)
    } else {
        Err(Refusal::OutOfRange)
    }
}

pub fn whole_of(x: f64) -> Result<i64, Refusal>
    ensures { result ≡ whole_of x }
{
    let p = Pattern::of_finite(x)?;
    with_sign(size_of(p)?, p.negative)
}
