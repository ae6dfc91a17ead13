// The pass that checks. The ends of a run mostly show that every offset is read; where they do not, each is read to find the first that is not.
ghost use Rattle.std.specs.Prelude.{◌≡◌, Ok, Err, IfOk, IfErr};
ghost use Rattle.axis.specs.Axis.{axis_check};
ghost use Rattle.runs.specs.Run.{checked, run_check};

use crate::good_axis::GoodAxis;
use crate::{RefusedAt, RunElement};
use axis_types::Axis;
use refusal::Refusal;
use run_ends::Element;

fn first_refused<E: Element>(axis: Axis, source: &[E]) -> Result<(), RefusedAt>
    ensures { result ≡ checked (E.read axis) source.now }
{
    for (place, x) in source.iter().enumerate() {
        if let Err(refusal) = x.read_on(axis) {
            return Err(RefusedAt { refusal, place });
        }
    }
    Ok(())
}

// What a run comes to, with so much room; where nothing of it is refused, its axis is a good one.
#[tactic(auto, using(crate::proofs::Passes::refused_first, crate::proofs::Passes::short_room, crate::proofs::Passes::in_room, crate::proofs::Passes::each_read))]
pub fn check<E: RunElement>(axis: Axis, source: &[E], room: usize) -> Result<GoodAxis, RefusedAt>
    ensures passed { IfOk result (λ on. (on.axis ≡ axis) × (run_check (E.read axis) (axis_check axis) source.now room ≡ Ok tt)) }
    ensures refused { IfErr result (λ at. run_check (E.read axis) (axis_check axis) source.now room ≡ Err at) }
{
    let on = GoodAxis::of(axis)?;
    if room < source.len() {
        return Err(RefusedAt::from(Refusal::NoRoom));
    }
    if !E::surely_read(axis, source) {
        first_refused(axis, source)?;
    }
    Ok(on)
}
