// datetime64 arrays.
ghost use Rattle.std.specs.Prelude.{◌≡◌};
ghost use Rattle.uppinalo.specs.Datetime64.{uppinalo_read_datetime64, uppinalo_read_datetime64_destination, uppinalo_write_datetime64, uppinalo_write_datetime64_records};

use runs::RunAnswer;

// The records of a datetime64 array, read whole or not at all as instants.
#[unsafe(no_mangle)]
pub extern "C" fn uppinalo_read_datetime64(
    identifier: &[u8],
    records: &[u8],
    destination: &mut [i64],
) -> RunAnswer
    ensures answered { result ≡ uppinalo_read_datetime64 identifier.now records.now destination.old }
    ensures written { destination.new ≡ uppinalo_read_datetime64_destination identifier.now records.now destination.old }
{
    datetime64_runs::reading::read_datetime64(identifier, records, destination)
}

// Instants, written whole or not at all as the records of a datetime64 array.
#[unsafe(no_mangle)]
pub extern "C" fn uppinalo_write_datetime64(
    identifier: &[u8],
    instants: &[i64],
    records: &mut [u8],
) -> RunAnswer
    ensures answered { result ≡ uppinalo_write_datetime64 identifier.now instants.now records.old }
    ensures written { records.new ≡ uppinalo_write_datetime64_records identifier.now instants.now records.old }
{
    datetime64_runs::writing::write_datetime64(identifier, instants, records)
}
