// Runs of numbers, those of records or instants themselves, and the passes that look at each of them.
ghost use Rattle.std.specs.Prelude.{◌≡◌, true, ℕ, ℤ, List, ◌<◌, ◌+◌, ◌*◌, ◌≤◌, pos, length, get_or, map, Result};
ghost use Rattle.std.specs.Int.{w64};
ghost use Rattle.std.proofs.Common.{SFits};
ghost use Rattle.std.proofs.Math.Option.{Option as Maybe};
ghost use Rattle.signed.specs.Bias.{biased};
ghost use Rattle.refusal.specs.declared.Refusal.{Refusal};
ghost use Rattle.runs.specs.Run.{first_refused};
ghost use Rattle.ratio.specs.Multiples.{Between, IsMultiple};
ghost use Rattle.datetime64_number.specs.Conversions.{refusal_in};
ghost use Rattle.datetime64_runs.specs.Records.{record_number, records_in};

use crate::records;
use datetime64_type::ByteOrder;
use ratio::{Bounds, Ratio};
use refusal::Refusal;
use runs::RefusedAt;

// Numbers at places that are counted from 0.
pub trait Numbers: Copy {
    ghost numbers: { Self → List ℤ };

    fn count(self) -> usize
        ensures { result ≡ length (numbers self) };

    fn at(self, i: usize) -> i64
        requires { i < length (numbers self) }
        ensures { result ≡ get_or (numbers self) i (pos 0) };
}

// The numbers of records that lie one after another.
#[derive(Clone, Copy)]
pub struct Records<'a> {
    pub order: ByteOrder,
    pub bytes: &'a [u8],
}

impl<'a> Numbers for Records<'a> {
    ghost numbers = { λ r. map (record_number r.order) (records_in r.bytes.now) };

    fn count(self) -> usize {
        self.bytes.len() / 8
    }

    fn at(self, i: usize) -> i64 {
        records::number_at(self.order, self.bytes, i)
    }
}

impl<'a> Numbers for &'a [i64] {
    ghost numbers = { λ s. s.now };

    fn count(self) -> usize {
        self.len()
    }

    fn at(self, i: usize) -> i64 {
        self[i]
    }
}

// Whether every number surely lies between bounds around 0: joined, their differences from the lower bound are no less than the greatest of
// them. No number decides by itself, so that the compiler can take several at once. A no says nothing.
pub fn all_between<N: Numbers>(numbers: N, bounds: Bounds) -> bool
    ensures { result ≡ true → (i : ℕ) → i < length (N.numbers numbers) → let n = get_or (N.numbers numbers) i (pos 0) in SFits w64 n × Between bounds (biased n) }
{
    let span = bounds.high - bounds.low;
    let mut joined = 0;
    for i in 0..numbers.count() {
        joined |= bounds.above_low(numbers.at(i));
    }
    joined <= span
}

// Whether every number is one of the multiples of a ratio.
pub fn all_multiples<N: Numbers>(numbers: N, ratio: Ratio) -> bool
    ensures { result ≡ true → (i : ℕ) → i < length (N.numbers numbers) → let n = get_or (N.numbers numbers) i (pos 0) in SFits w64 n × IsMultiple ratio (biased n) }
{
    for i in 0..numbers.count() {
        if !ratio.has(numbers.at(i)) {
            return false;
        }
    }
    true
}

// The first number that a check refuses, and its place.
pub fn first_refused<N: Numbers, F: Fn(i64) -> Result<(), Refusal>>(
    numbers: N,
    check: F,
) -> Result<(), RefusedAt>
    requires { F.IsAlwaysCallable check }
    ensures { (refusal : ℤ → Maybe Refusal) → ((n : ℤ) (r : Result (Unit {0}) Refusal) → SFits w64 n → F.post check n r → refusal_in r ≡ refusal n) → result ≡ first_refused refusal (N.numbers numbers) }
{
    for place in 0..numbers.count() {
        if let Err(refusal) = check(numbers.at(place)) {
            return Err(RefusedAt { refusal, place });
        }
    }
    Ok(())
}
