// Runs: offsets of one axis that are lent together, and read into lent room for instants, all or none: what checks comes before what writes.
// A reader may rely on specs/Run.antt.
#![tactic(auto)]

ghost use Rattle.std.specs.Prelude.{◌≡◌, ◌≤◌, true, length};
ghost use Rattle.axis_types.specs.Reading.{is_read};
ghost use Rattle.axis.specs.Axis.{axis_check};
ghost use Rattle.run_ends.specs.Each.{Each};
ghost use Rattle.runs.specs.Run.{answer_of, checked, overlaid, rounded_count, run_answer, run_check, run_written, with_rounded};

use crate::good_axis::GoodAxis;
use axis_types::{Axis, Mode};
use refusal::Refusal;
use run_ends::Element;

pub mod checks;
pub mod element;
pub mod good_axis;
pub mod writes;

// Where a run is refused: the first refusal and its place, counted from 0.
#[derive(Clone, Copy)]
pub struct RefusedAt {
    pub refusal: Refusal,
    pub place: usize,
}

// What is refused of a run before any offset is refused at its first place.
impl From<Refusal> for RefusedAt {
    ghost from_gives = { λ refusal at. at ≡ record { refusal = refusal; place = 0 } };

    fn from(refusal: Refusal) -> RefusedAt {
        RefusedAt { refusal, place: 0 }
    }
}

// The answer of a run: 0, how many offsets there are and how many of them are not exact; or the number of a refusal and its place.
#[repr(C)]
#[derive(Clone, Copy)]
pub struct RunAnswer {
    pub number: u32,
    pub place: usize,
    pub length: usize,
    pub rounded: usize,
}

pub fn answer(rounded: Result<usize, RefusedAt>, length: usize) -> RunAnswer
    ensures { result ≡ answer_of rounded length }
{
    match rounded {
        Err(RefusedAt { refusal, place }) => RunAnswer {
            number: refusal::number(refusal),
            place,
            length: 0,
            rounded: 0,
        },
        Ok(rounded) => RunAnswer {
            number: 0,
            place: 0,
            length,
            rounded,
        },
    }
}

// What the offsets of a run are, and how a run of them is checked and written. It stands apart from `Element`, since an impl that calls what
// its own trait bounds gets no proof.
pub trait RunElement: Element {
    // Whether the ends of a run show that every offset is read.
    fn surely_read(axis: Axis, source: &[Self]) -> bool
        ensures { result ≡ true → Each (λ x. is_read (Self.read axis x) ≡ true) source.now };

    // The instants of offsets that are all read, each at its own offset's place, and how many of them were rounded.
    fn write(on: GoodAxis, source: &[Self], destination: &mut [i64]) -> usize
        requires room { length source.now ≤ length destination.old }
        requires read { checked (Self.read on.axis) source.now ≡ Ok tt }
        ensures counted { result ≡ rounded_count (Self.read on.axis) source.now }
        ensures written { destination.new ≡ overlaid (Self.read on.axis) source.now destination.old };
}

impl RunElement for f64 {
    fn surely_read(axis: Axis, source: &[f64]) -> bool {
        run_ends::doubles_read(axis, source)
    }

    #[tactic(auto, using(crate::proofs::Passes::none_rounded, crate::proofs::Steps::double_unmarked, crate::proofs::Steps::as_whole_lem))]
    fn write(on: GoodAxis, source: &[f64], destination: &mut [i64]) -> usize {
        match on.axis.mode {
            Mode::Fixed => writes::write_nearest(on, source, destination),
            Mode::Calendar => {
                writes::write_as_wholes(on, source, destination);
                0
            }
        }
    }
}

impl RunElement for i64 {
    fn surely_read(axis: Axis, source: &[i64]) -> bool {
        run_ends::wholes_read(axis, source)
    }

    #[tactic(auto, using(crate::proofs::Passes::none_rounded, crate::proofs::Steps::whole_unmarked))]
    fn write(on: GoodAxis, source: &[i64], destination: &mut [i64]) -> usize {
        writes::write_as_wholes(on, source, destination);
        0
    }
}

#[tactic(auto, using(crate::proofs::Passes::passed, crate::proofs::Passes::refused_first))]
fn read_all<E: RunElement>(
    axis: Axis,
    source: &[E],
    destination: &mut [i64],
) -> Result<usize, RefusedAt>
    ensures counted { result ≡ with_rounded (run_check (E.read axis) (axis_check axis) source.now (length destination.old)) (rounded_count (E.read axis) source.now) }
    ensures written { destination.new ≡ run_written (E.read axis) (axis_check axis) source.now destination.old }
{
    let on = checks::check(axis, source, destination.len())?;
    Ok(E::write(on, source, destination))
}

// A run of offsets of either kind.
pub fn read<E: RunElement>(axis: Axis, source: &[E], destination: &mut [i64]) -> RunAnswer
    ensures answered { result ≡ run_answer (E.read axis) (axis_check axis) source.now destination.old }
    ensures written { destination.new ≡ run_written (E.read axis) (axis_check axis) source.now destination.old }
{
    answer(read_all(axis, source, destination), source.len())
}
