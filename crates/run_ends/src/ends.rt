// The passes that find the ends of a run: the least and the greatest of its offsets and zero. Doubles of calendar mode are compared as the
// whole numbers that they are.
ghost use Rattle.std.specs.Prelude.{◌≡◌};
ghost use Rattle.std.specs.Float.Ieee.{lt};
ghost use Rattle.std.specs.Int.Signed.{lt_z};
ghost use Rattle.run_ends.specs.Ends.{lesser, greater, double_ends, whole_ends, ends_as_wholes};

use crate::Element;

// The ends of a run and zero.
#[derive(Clone, Copy)]
pub struct Ends<T> {
    pub least: T,
    pub greatest: T,
}

impl Ends<f64> {
    // The ends with one double more, which is no NaN. Of two zeros the first stays, where `f64::min` may answer either.
    fn with(self, x: f64) -> Ends<f64>
        ensures least { result.least ≡ lesser lt x self.least }
        ensures greatest { result.greatest ≡ greater lt x self.greatest }
    {
        Ends {
            least: if x < self.least { x } else { self.least },
            greatest: if self.greatest < x { x } else { self.greatest },
        }
    }
}

// The ends of a run of doubles, of which none may be a NaN, since that lies in no order.
pub fn double_ends(source: &[f64]) -> Option<Ends<f64>>
    ensures { result ≡ double_ends source.now }
{
    let mut ends = Ends {
        least: 0.0,
        greatest: 0.0,
    };
    for x in source {
        if x.is_nan() {
            return None;
        }
        ends = ends.with(*x);
    }
    Some(ends)
}

impl Ends<i64> {
    // The ends with one number more.
    fn with(self, n: i64) -> Ends<i64>
        ensures least { result.least ≡ lesser lt_z n self.least }
        ensures greatest { result.greatest ≡ greater lt_z n self.greatest }
    {
        Ends {
            least: self.least.min(n),
            greatest: self.greatest.max(n),
        }
    }
}

// The ends of a run of offsets as whole numbers, if each of them is one.
pub fn ends_as_wholes<E: Element>(source: &[E]) -> Option<Ends<i64>>
    ensures { result ≡ ends_as_wholes E.whole source.now }
{
    let mut ends = Ends {
        least: 0,
        greatest: 0,
    };
    for x in source {
        ends = ends.with(x.whole().ok()?);
    }
    Some(ends)
}

// The ends of a run of whole offsets, which always has them.
pub fn whole_ends(source: &[i64]) -> Ends<i64>
    ensures { result ≡ whole_ends source.now }
{
    ends_as_wholes(source).unwrap()
}
