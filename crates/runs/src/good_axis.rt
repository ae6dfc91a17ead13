// An axis that is not refused.
ghost use Rattle.std.specs.Prelude.{◌≡◌, Ok, Err, IfOk, IfErr};
ghost use Rattle.axis.specs.Axis.{axis_check};

use axis_types::Axis;
use refusal::Refusal;

#[derive(Clone, Copy)]
pub struct GoodAxis {
    pub axis: Axis,
    pub ghost good: { axis_check axis ≡ Ok tt },
}

impl GoodAxis {
    pub fn of(axis: Axis) -> Result<GoodAxis, Refusal>
        ensures good { IfOk result (λ on. on.axis ≡ axis) }
        ensures refused { IfErr result (λ r. axis_check axis ≡ Err r) }
    {
        axis::check_axis(axis)?;
        Ok(GoodAxis { axis })
    }
}
