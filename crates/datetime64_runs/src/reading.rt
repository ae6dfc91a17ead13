// Records read as instants.
ghost use Rattle.std.specs.Prelude.{◌≡◌, true, ℤ, ◌%◌, ◌≤◌, length, Ok};
ghost use Rattle.std.specs.Int.{w64};
ghost use Rattle.std.proofs.Common.{SFits};
ghost use Rattle.axis_types.specs.Reading.{is_read, instant_of};
ghost use Rattle.runs.specs.Run.{checked, overlaid};
ghost use Rattle.datetime64_type.specs.Units.{unit_row_of};
ghost use Rattle.datetime64_number.specs.Numbers.{read_number};
ghost use Rattle.datetime64_number.specs.Conversions.{Reads};
ghost use Rattle.datetime64_runs.specs.OneProof.{reads_once};
ghost use Rattle.datetime64_runs.specs.Records.{record_count, records_in};
ghost use Rattle.datetime64_runs.specs.Runs.{read_record, records_check, type_named, read_check, read_answer, read_destination};

use crate::numbers::{self, Records};
use crate::records;
use datetime64_number::Conversion;
use datetime64_type::{ByteOrder, Datetime64Type};
use refusal::Refusal;
use runs::{RefusedAt, RunAnswer};

// Whether bounds are the quicker test. Big-endian records would have to be turned round several at once, for which the machine has no instruction.
fn several_at_once(order: ByteOrder, step: u64) -> bool {
    match order {
        ByteOrder::Little => step == 1,
        ByteOrder::Big => false,
    }
}

// A type of records, and how the numbers of its unit are read.
#[derive(Clone, Copy)]
struct Reader {
    t: Datetime64Type,
    conversion: Conversion,
    ghost reads: { Reads (unit_row_of t.unit) conversion } by { reads_once (unit_row_of t.unit) conversion },
}

impl Reader {
    // Whether every record is known to be read, by bounds or else as a multiple. Where it is not known, nothing is said.
    fn surely_read(self, bytes: &[u8]) -> bool
        ensures { result ≡ true → checked (read_record self.t) (records_in bytes.now) ≡ Ok tt }
    {
        let order = self.t.order;
        let records = Records { order, bytes };
        match self.conversion {
            Conversion::Calendar(part, _) => {
                numbers::all_between(records, datetime64_number::near_bounds(part))
            }
            Conversion::Fixed(ratio) => {
                if several_at_once(order, ratio.from)
                    && numbers::all_between(records, ratio.bounds())
                {
                    return true;
                }
                numbers::all_multiples(records, ratio)
            }
        }
    }

    // The first record that is refused, of those that are not all known to be read.
    fn first_refused_record(self, bytes: &[u8]) -> Result<(), RefusedAt>
        requires { length bytes.now % 8 ≡ 0 }
        ensures { result ≡ checked (read_record self.t) (records_in bytes.now) }
    {
        let unit = self.t.unit;
        let conversion = self.conversion;
        let records = Records {
            order: self.t.order,
            bytes,
        };
        numbers::first_refused(records, move |n| {
            datetime64_number::check_number(unit, conversion, n)
        })
    }

    // What the run comes to, with so much room.
    fn check_records(self, bytes: &[u8], room: usize) -> Result<(), RefusedAt>
        ensures { result ≡ records_check self.t bytes.now room }
    {
        if bytes.len() % 8 != 0 {
            return Err(RefusedAt {
                refusal: Refusal::PartRecord,
                place: 0,
            });
        }
        if room < bytes.len() / 8 {
            return Err(RefusedAt {
                refusal: Refusal::NoRoom,
                place: 0,
            });
        }
        if self.surely_read(bytes) {
            return Ok(());
        }
        self.first_refused_record(bytes)
    }

    // The instants of records that are all read, each at its own record's place.
    // A closure that owns what it reads lets the compiler take several records at once.
    fn write_each<F: Fn(i64) -> i64>(self, bytes: &[u8], destination: &mut [i64], instant: F)
        requires room { record_count bytes.now ≤ length destination.old }
        requires read { checked (read_record self.t) (records_in bytes.now) ≡ Ok tt }
        requires callable { (n : ℤ) → SFits w64 n → is_read (read_number self.t.unit n) ≡ true → F.pre instant n }
        requires gives { (n z : ℤ) → SFits w64 n → is_read (read_number self.t.unit n) ≡ true → F.post instant n z → z ≡ instant_of (read_number self.t.unit n) }
        ensures { destination.new ≡ overlaid (read_record self.t) (records_in bytes.now) destination.old }
    {
        let order = self.t.order;
        for i in 0..bytes.len() / 8 {
            destination[i] = instant(records::number_at(order, bytes, i));
        }
    }

    fn write_instants(self, bytes: &[u8], destination: &mut [i64])
        requires room { record_count bytes.now ≤ length destination.old }
        requires read { checked (read_record self.t) (records_in bytes.now) ≡ Ok tt }
        ensures { destination.new ≡ overlaid (read_record self.t) (records_in bytes.now) destination.old }
    {
        let unit = self.t.unit;
        match self.conversion {
            Conversion::Calendar(part, start) => self.write_each(bytes, destination, move |n| {
                datetime64_number::instant_by_steps(unit, part, start, n)
            }),
            Conversion::Fixed(ratio) => self.write_each(bytes, destination, move |n| {
                datetime64_number::instant_by_ratio(unit, ratio, n)
            }),
        }
    }
}

// A run of records of the type that an identifier names: the instants are written, or the first refusal is told.
fn read_named(identifier: &[u8], bytes: &[u8], destination: &mut [i64]) -> Result<(), RefusedAt>
    ensures checked { result ≡ read_check (type_named identifier.now) bytes.now (length destination.old) }
    ensures written { destination.new ≡ read_destination (type_named identifier.now) bytes.now destination.old }
{
    let t = datetime64_type::identifier::type_of(identifier).ok_or(RefusedAt {
        refusal: Refusal::IllFormed,
        place: 0,
    })?;
    let conversion = datetime64_number::reading_of(t.unit);
    let reader = Reader { t, conversion };
    reader.check_records(bytes, destination.len())?;
    reader.write_instants(bytes, destination);
    Ok(())
}

// The same, and its answer, of which nothing is rounded.
pub fn read_datetime64(identifier: &[u8], bytes: &[u8], destination: &mut [i64]) -> RunAnswer
    ensures answered { result ≡ read_answer (type_named identifier.now) bytes.now destination.old }
    ensures written { destination.new ≡ read_destination (type_named identifier.now) bytes.now destination.old }
{
    let read = read_named(identifier, bytes, destination);
    runs::answer(read.map(|()| 0), bytes.len() / 8)
}
