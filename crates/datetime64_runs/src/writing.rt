// Instants written as records. Reading and writing stay two modules of one shape: what is lent, what is refused and what is written differ,
// and one function over both would be no plainer. What is the same of them is in numbers.rt.
ghost use Rattle.std.specs.Prelude.{◌≡◌, true, ◌++◌, ℤ, ◌*◌, ◌≤◌, length, drop, Ok};
ghost use Rattle.std.specs.Int.{w64};
ghost use Rattle.std.proofs.Common.{SFits};
ghost use Rattle.axis_types.specs.Reading.{is_none, offset_of, offset_refusal};
ghost use Rattle.runs.specs.Run.{first_refused};
ghost use Rattle.datetime64_type.specs.Units.{unit_row_of};
ghost use Rattle.datetime64_number.specs.Numbers.{write_number};
ghost use Rattle.datetime64_number.specs.Conversions.{Writes};
ghost use Rattle.datetime64_runs.specs.OneProof.{writes_once};
ghost use Rattle.datetime64_runs.specs.Runs.{instant_refusal, instants_check, records_written, type_named, write_check, write_answer, write_room};

use crate::{numbers, records};
use datetime64_number::Conversion;
use datetime64_type::Datetime64Type;
use refusal::Refusal;
use runs::{RefusedAt, RunAnswer};

// A type of records, and how the numbers of its unit are found.
#[derive(Clone, Copy)]
struct Writer {
    t: Datetime64Type,
    conversion: Conversion,
    ghost writes: { Writes (unit_row_of t.unit) conversion } by { writes_once (unit_row_of t.unit) conversion },
}

impl Writer {
    // Whether every instant is known to be written. Where it is not known, nothing is said.
    fn surely_written(self, instants: &[i64]) -> bool
        ensures { result ≡ true → first_refused (instant_refusal self.t) instants.now ≡ Ok tt }
    {
        match self.conversion {
            Conversion::Calendar(_, _) => false,
            Conversion::Fixed(ratio) => {
                if ratio.from == 1 && numbers::all_between(instants, ratio.bounds()) {
                    return true;
                }
                numbers::all_multiples(instants, ratio)
            }
        }
    }

    // The first instant that is refused, of those that are not all known to be written.
    fn first_refused_instant(self, instants: &[i64]) -> Result<(), RefusedAt>
        ensures { result ≡ first_refused (instant_refusal self.t) instants.now }
    {
        let unit = self.t.unit;
        let conversion = self.conversion;
        numbers::first_refused(instants, move |x| {
            datetime64_number::check_instant(unit, conversion, x)
        })
    }

    // What the run comes to, with room of so many bytes.
    fn check_instants(self, instants: &[i64], room: usize) -> Result<(), RefusedAt>
        ensures { result ≡ instants_check self.t instants.now room }
    {
        if room / 8 < instants.len() {
            return Err(RefusedAt {
                refusal: Refusal::NoRoom,
                place: 0,
            });
        }
        if self.surely_written(instants) {
            return Ok(());
        }
        self.first_refused_instant(instants)
    }

    // The records of instants that are all written, one after another.
    fn write_each<F: Fn(i64) -> i64>(self, instants: &[i64], bytes: &mut [u8], number: F)
        requires room { 8 * length instants.now ≤ length bytes.old }
        requires written { first_refused (instant_refusal self.t) instants.now ≡ Ok tt }
        requires callable { (x : ℤ) → SFits w64 x → is_none (offset_refusal (write_number self.t.unit x)) ≡ true → F.pre number x }
        requires gives { (x n : ℤ) → SFits w64 x → is_none (offset_refusal (write_number self.t.unit x)) ≡ true → F.post number x n → n ≡ offset_of (write_number self.t.unit x) }
        ensures { bytes.new ≡ records_written self.t instants.now ++ drop (8 * length instants.now) bytes.old }
    {
        let order = self.t.order;
        for (i, x) in instants.iter().enumerate() {
            records::put_number(order, bytes, i, number(*x));
        }
    }

    fn write_records(self, instants: &[i64], bytes: &mut [u8])
        requires room { 8 * length instants.now ≤ length bytes.old }
        requires written { first_refused (instant_refusal self.t) instants.now ≡ Ok tt }
        ensures { bytes.new ≡ records_written self.t instants.now ++ drop (8 * length instants.now) bytes.old }
    {
        let unit = self.t.unit;
        match self.conversion {
            Conversion::Calendar(part, start) => self.write_each(instants, bytes, move |x| {
                datetime64_number::number_by_steps(unit, part, start, x)
            }),
            Conversion::Fixed(ratio) => self.write_each(instants, bytes, move |x| {
                datetime64_number::number_by_ratio(unit, ratio, x)
            }),
        }
    }
}

// A run of instants as records of the type that an identifier names: the records are written, or the first refusal is told.
fn write_named(identifier: &[u8], instants: &[i64], bytes: &mut [u8]) -> Result<(), RefusedAt>
    ensures checked { result ≡ write_check (type_named identifier.now) instants.now (length bytes.old) }
    ensures written { bytes.new ≡ write_room (type_named identifier.now) instants.now bytes.old }
{
    let t = datetime64_type::identifier::type_of(identifier).ok_or(RefusedAt {
        refusal: Refusal::IllFormed,
        place: 0,
    })?;
    let conversion = datetime64_number::writing_of(t.unit);
    let writer = Writer { t, conversion };
    writer.check_instants(instants, bytes.len())?;
    writer.write_records(instants, bytes);
    Ok(())
}

// The same, and its answer.
pub fn write_datetime64(identifier: &[u8], instants: &[i64], bytes: &mut [u8]) -> RunAnswer
    ensures answered { result ≡ write_answer (type_named identifier.now) instants.now bytes.old }
    ensures written { bytes.new ≡ write_room (type_named identifier.now) instants.now bytes.old }
{
    let written = write_named(identifier, instants, bytes);
    runs::answer(written.map(|()| 0), instants.len())
}
