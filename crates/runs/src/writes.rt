// The pass that writes, over offsets that are all read: each instant at its own offset's place. Places are counted: what a `zip` over
// `iter_mut` writes gets no proof. That the room is enough stays a clause: it is of the two slices of a call, which nothing else holds together.
ghost use Rattle.std.specs.Prelude.{◌≡◌, ◌≤◌, true, length};
ghost use Rattle.axis_types.specs.declared.Mode.{Mode};
ghost use Rattle.axis_types.specs.Reading.{instant_of, is_read};
ghost use Rattle.axis.specs.Axis.{read_double_on, read_whole_on, step_on};
ghost use Rattle.axis.specs.declared.Step.{Step};
ghost use Rattle.std.specs.List.{All};
ghost use Rattle.run_ends.specs.Ends.{whole_number};
ghost use Rattle.runs.specs.Run.{checked, rounded_count, overlaid};
ghost use Rattle.runs.specs.Passes.{ReadAsWholes, Written, Begins};

use crate::element;
use crate::good_axis::GoodAxis;
use axis::Step;
use run_ends::Element;

// Doubles in fixed mode, and how many were rounded.
pub fn write_nearest(on: GoodAxis, source: &[f64], destination: &mut [i64]) -> usize
    requires room { length source.now ≤ length destination.old }
    requires fixed { on.axis.mode ≡ Mode.Fixed }
    requires read { checked (read_double_on on.axis) source.now ≡ Ok tt }
    ensures counted { result ≡ rounded_count (read_double_on on.axis) source.now }
    ensures written { destination.new ≡ overlaid (read_double_on on.axis) source.now destination.old }
{
    let scale = fixed_axis::scale_of(on.axis.period);
    let mut rounded = 0;
    for (place, x) in source.iter().enumerate() {
        let (instant, exact) = element::nearest_instant(on, scale, *x);
        destination[place] = instant;
        rounded += usize::from(!exact);
    }
    rounded
}

// What a call makes of the whole number that each offset is, at the offset's own place.
fn write_each<E: Element, F: Fn(i64) -> i64>(source: &[E], destination: &mut [i64], instant: F)
    requires room { length source.now ≤ length destination.old }
    requires callable { All (λ x. F.pre instant (whole_number (E.whole x))) source.now }
    ensures { Written (λ x t. F.post instant (whole_number (E.whole x)) t) source.now destination.old destination.new }
{
    for (place, x) in source.iter().enumerate() {
        destination[place] = instant(x.whole().unwrap_or(0));
    }
}

// Offsets that are read as the whole numbers that they are.
pub fn write_as_wholes<E: Element>(on: GoodAxis, source: &[E], destination: &mut [i64])
    requires room { length source.now ≤ length destination.old }
    requires wholes { ReadAsWholes (E.read on.axis) (λ x. whole_number (E.whole x)) (read_whole_on on.axis) }
    requires read { checked (E.read on.axis) source.now ≡ Ok tt }
    ensures { destination.new ≡ overlaid (E.read on.axis) source.now destination.old }
{
    match axis::step_on(on.axis) {
        Step::Time => {
            let instant = |n: i64| -> i64
                requires time { step_on on.axis ≡ Step.Time }
                requires read { is_read (read_whole_on on.axis n) ≡ true }
                ensures { result ≡ instant_of (read_whole_on on.axis n) }
            { element::instant_by_time(on, n) };
            write_each(source, destination, instant)
        }
        Step::Date(part) => {
            let start = element::start_on(on);
            let instant = |n: i64| -> i64
                requires begins { Begins on.axis part start }
                requires read { is_read (read_whole_on on.axis n) ≡ true }
                ensures { result ≡ instant_of (read_whole_on on.axis n) }
            { element::instant_by_part(on.axis, part, start, n) };
            write_each(source, destination, instant)
        }
    }
}
