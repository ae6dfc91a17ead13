// The multiples of one step exchanged for those of another: m * from for m * to, for each m from -below to above. Both lie in 64 bits.
// A run divides nothing: the place of a number among the multiples is found by the step's reciprocal.
// A reader may rely on specs/Multiples.antt.
#![tactic(auto)]

ghost use Rattle.std.specs.Prelude.{◌≡◌, ℕ, ◌+◌, ◌-◌, ◌*◌, ◌≤◌, true, false};
ghost use Rattle.signed.specs.Bias.{biased};
ghost use Rattle.ratio.specs.Steps.{Steps, Place, reciprocal_of};

// 0 among the numbers with their bias.
const ZERO: u64 = 1 << 63;

#[derive(Clone, Copy)]
pub struct Ratio {
    pub from: u64,
    pub to: u64,
    pub below: u64,
    pub above: u64,
    pub reciprocal: u64,
    pub ghost steps: { Steps from to below above },
    pub ghost inverse: { reciprocal ≡ reciprocal_of from },
}

// 2^64 divided by the step, rounded up; 0 for the step 1, which is not sought by it.
fn reciprocal_of(step: u64) -> u64
    ensures { result ≡ reciprocal_of step }
{
    if step < 2 { 0 } else { u64::MAX / step + 1 }
}

impl Ratio {
    ghost use Rattle.ratio.specs.Multiples.{IsRatio, IsMultiple, IsBounds};

    pub fn new(from: u64, to: u64, below: u64, above: u64) -> Ratio
        requires { Steps from to below above }
        ensures { IsRatio result from to below above }
    {
        let reciprocal = reciprocal_of(from);
        Ratio {
            from,
            to,
            below,
            above,
            reciprocal,
        }
    }

    // The ratio that exchanges the other way.
    pub fn turned(self) -> Ratio
        ensures { IsRatio result self.to self.from self.below self.above }
    {
        Ratio::new(self.to, self.from, self.below, self.above)
    }

    // Of a multiple v of the step, how many times the step it is. Of another number it is not more than of the greatest multiple.
    fn times_in(self, v: u64) -> u64
        ensures found { (i : ℕ) → v ≡ i * self.from → result ≡ i }
        ensures bounded { v ≤ (self.below + self.above) * self.from → result ≤ self.below + self.above }
    {
        if self.from == 1 {
            v
        } else {
            rounding::high_product(v, self.reciprocal)
        }
    }

    // Whether x is one of the multiples.
    pub fn has(self, x: i64) -> bool
        ensures found { result ≡ true → IsMultiple self (biased x) }
        ensures missed { result ≡ false → IsMultiple self (biased x) → ⊥ }
    {
        let first = ZERO - self.below * self.from;
        // below the least multiple this wraps, and is greater than all of them
        let v = signed::biased(x).wrapping_sub(first);
        v <= (self.below + self.above) * self.from && self.times_in(v) * self.from == v
    }

    // What x is exchanged for, which is one of the multiples.
    pub fn exchanged(self, x: i64) -> i64
        requires { IsMultiple self (biased x) }
        ensures { (i : ℕ) → Place self.from self.below self.above (biased x) i → Place self.to self.below self.above (biased result) i }
    {
        if self.from == self.to {
            return x;
        }
        let first = ZERO - self.below * self.from;
        let n = self.times_in(signed::biased(x) - first);
        signed::unbiased(ZERO - self.below * self.to + n * self.to)
    }

    // Bounds between which every number is one of the multiples: of the step 1 all of them, of another only 0.
    pub fn bounds(self) -> Bounds
        ensures { IsBounds self result }
    {
        if self.from == 1 {
            return Bounds {
                low: ZERO - self.below,
                high: ZERO + self.above,
            };
        }
        Bounds {
            low: ZERO,
            high: ZERO,
        }
    }
}

// Two numbers around 0, with their bias of 2^63.
#[derive(Clone, Copy)]
pub struct Bounds {
    pub low: u64,
    pub high: u64,
    pub ghost at_most: { low ≤ 9223372036854775808 },
    pub ghost at_least: { 9223372036854775808 ≤ high },
}

impl Bounds {
    ghost use Rattle.ratio.specs.Multiples.{Between};

    // How far x lies above the lower bound. Below it this wraps, and is more than the bounds lie apart.
    pub fn above_low(self, x: i64) -> u64
        ensures { result ≤ self.high - self.low → Between self (biased x) }
    {
        signed::biased(x).wrapping_sub(self.low)
    }
}
