// Doubles by their exact value, with no floating-point arithmetic: on a fixed axis the displacement in microseconds that is nearest to a
// number of periods, a tie to the even one, and whether nothing was rounded; as a whole offset in module `whole`. A reader may rely on
// specs/Displacement.antt, and on the theorems about the nearest count in proofs/Distance.antt and proofs/Order.antt.
#![tactic(auto)]

ghost use Rattle.std.specs.Prelude.{◌≡◌, not, ◌+◌, ◌*◌, ◌^◌, ◌≤◌, ◌<◌, T};
ghost use Rattle.std.specs.Float.Ieee.{is_nan};
ghost use Rattle.std.specs.Int.Signed.{mag};
ghost use Rattle.rounding.specs.Rounding.{RoundedTo};
ghost use Rattle.double.specs.Scale.{IsScale};
ghost use Rattle.double.specs.Displacement.{IsSmall, DisplacementOf, DisplacementAnswerOf};

use refusal::Refusal;
use rounding::Rounded;

pub mod whole;

// A displacement in microseconds, and whether nothing was rounded.
#[derive(Clone, Copy)]
pub struct Displacement {
    pub count: i64,
    pub exact: bool,
}

// The length of a period in microseconds, and the same as factor / 2^shift, with a factor from 2^62 on.
#[derive(Clone, Copy)]
pub struct Scale {
    pub micros: u64,
    pub factor: u64,
    pub shift: u64,
    pub ghost is: { IsScale micros factor shift },
}

impl Scale {
    pub fn new(micros: u64) -> Scale
        requires { (0 < micros) × (micros < 2 ^ 63) }
        ensures { result.micros ≡ micros }
    {
        let shift = u64::from(micros.leading_zeros()) - 1;
        Scale {
            micros,
            factor: micros << shift,
            shift,
        }
    }
}

// The fields of a double's bit pattern: the sign, the exponent's field, and the digits below the leading one.
#[derive(Clone, Copy)]
pub struct Pattern {
    pub negative: bool,
    pub field: u64,
    pub digits: u64,
    pub ghost short: { digits < 2 ^ 52 },
}

impl Pattern {
    ghost use Rattle.double.specs.Fields.{pattern_of, field_size, PatternDisplacement, FinitePattern};

    pub fn of(x: f64) -> Pattern
        requires { T (not (is_nan x)) }
        ensures { result ≡ pattern_of x }
    {
        let bits = x.to_bits();
        Pattern {
            negative: bits >= 1 << 63,
            field: (bits / 0x10_0000_0000_0000) % 2048,
            digits: bits % 0x10_0000_0000_0000,
        }
    }

    // The pattern of a finite double; NotFinite of another. A field of all ones is an infinity's.
    pub fn of_finite(x: f64) -> Result<Pattern, Refusal>
        ensures { FinitePattern result x }
    {
        if x.is_nan() {
            return Err(Refusal::NotFinite);
        }
        let p = Pattern::of(x);
        if p.field == 2047 {
            return Err(Refusal::NotFinite);
        }
        Ok(p)
    }

    // The size of a finite double times a period, rounded. A low exponent makes it less than half a microsecond.
    fn scaled_size(self, scale: Scale) -> Rounded
        requires { self.field < 1021 + scale.shift }
        ensures { RoundedTo result (field_size self.field self.digits * scale.micros) (2 ^ 1074) }
    {
        if self.field + 63 < 1021 + scale.shift {
            return Rounded {
                count: 0,
                exact: self.field + self.digits == 0,
            };
        }
        let n = rounding::product((self.digits + 0x10_0000_0000_0000) * 1024, scale.factor);
        rounding::round_high(n, 1021 + scale.shift - self.field)
    }

    // The nearest displacement of a finite double that is not too large for a scale.
    fn displacement(self, scale: Scale) -> Displacement
        requires { self.field < 1021 + scale.shift }
        ensures { PatternDisplacement result self scale.micros }
    {
        let r = self.scaled_size(scale);
        Displacement {
            count: signed::signed_size(self.negative, r.count),
            exact: r.exact,
        }
    }
}

// The nearest displacement of a finite double whose size is known to be less than 2^60: no test of it is left.
pub fn small_displacement(scale: Scale, x: f64) -> Displacement
    requires { IsSmall scale.micros x }
    ensures { DisplacementOf result scale.micros x × (mag result.count ≤ 2 ^ 62) }
{
    Pattern::of(x).displacement(scale)
}

// The nearest displacement of any double; NotFinite, then OutOfRange for one that is 2^60 microseconds or more.
pub fn displacement_of(scale: Scale, x: f64) -> Result<Displacement, Refusal>
    ensures { DisplacementAnswerOf result scale.micros x }
{
    let p = Pattern::of_finite(x)?;
    if 1021 + scale.shift <= p.field {
        return Err(Refusal::OutOfRange);
    }
    Ok(p.displacement(scale))
}
