// One offset of a run that is known to be read, by what offsets move on the axis: no test of the range is left.
ghost use Rattle.std.specs.Prelude.{◌≡◌, true};
ghost use Rattle.axis_types.specs.declared.Mode.{Mode};
ghost use Rattle.axis_types.specs.Reading.{instant_of, is_read};
ghost use Rattle.calendar_axis.specs.Start.{StartOf};
ghost use Rattle.axis.specs.Axis.{read_double_on, read_whole_on, step_on};
ghost use Rattle.axis.specs.declared.Step.{Step};
ghost use Rattle.runs.specs.Passes.{ScaleOf, Begins};

use crate::good_axis::GoodAxis;
use axis_types::Axis;
use calendar_axis::Start;
use double::Scale;
use step::Part;

// A double in fixed mode, and whether it is the exact time.
pub fn nearest_instant(on: GoodAxis, scale: Scale, x: f64) -> (i64, bool)
    requires scaled { ScaleOf on.axis scale }
    requires fixed { on.axis.mode ≡ Mode.Fixed }
    requires read { is_read (read_double_on on.axis x) ≡ true }
    ensures { read_double_on on.axis x ≡ Ok result }
{
    let axis = on.axis;
    fixed_axis::nearest_time(axis.calendar, axis.period, axis.reference, scale, x)
}

// A whole offset that moves the time.
pub fn instant_by_time(on: GoodAxis, n: i64) -> i64
    requires step { step_on on.axis ≡ Step.Time }
    requires read { is_read (read_whole_on on.axis n) ≡ true }
    ensures { result ≡ instant_of (read_whole_on on.axis n) }
{
    let axis = on.axis;
    fixed_axis::time_after(axis.calendar, axis.period, axis.reference, n)
}

// What steps by months and years start from: the reference's date, its year and its time of day.
pub fn start_on(on: GoodAxis) -> Start
    ensures { StartOf on.axis.calendar on.axis.reference result }
{
    calendar_axis::start_of(on.axis.calendar, on.axis.reference)
}

// A whole offset that moves the month or the year.
pub fn instant_by_part(axis: Axis, part: Part, start: Start, n: i64) -> i64
    requires begins { Begins axis part start }
    requires read { is_read (read_whole_on axis n) ≡ true }
    ensures { result ≡ instant_of (read_whole_on axis n) }
{
    calendar_axis::instant_after(axis.calendar, part, start, n)
}
