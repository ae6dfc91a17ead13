// Runs of offsets on an axis.
ghost use Rattle.std.specs.Prelude.{◌≡◌};
ghost use Rattle.uppinalo.specs.Runs.{no_run, uppinalo_read_wholes, uppinalo_read_wholes_destination, uppinalo_read_doubles, uppinalo_read_doubles_destination};

use codes::UppinaloAxis;
use refusal::Refusal;
use runs::RunAnswer;

fn no_run(r: Refusal) -> RunAnswer
    ensures { result ≡ no_run r }
{
    RunAnswer {
        number: refusal::number(r),
        place: 0,
        length: 0,
        rounded: 0,
    }
}

// A run of whole offsets, read whole or not at all.
#[unsafe(no_mangle)]
pub extern "C" fn uppinalo_read_wholes(
    axis: UppinaloAxis,
    source: &[i64],
    destination: &mut [i64],
) -> RunAnswer
    ensures answered { result ≡ uppinalo_read_wholes axis source.now destination.old }
    ensures written { destination.new ≡ uppinalo_read_wholes_destination axis source.now destination.old }
{
    match codes::axis_of(axis) {
        Err(r) => return no_run(r),
        Ok(a) => return runs::read(a, source, destination),
    }
}

// A run of doubles, read whole or not at all.
#[unsafe(no_mangle)]
pub extern "C" fn uppinalo_read_doubles(
    axis: UppinaloAxis,
    source: &[f64],
    destination: &mut [i64],
) -> RunAnswer
    ensures answered { result ≡ uppinalo_read_doubles axis source.now destination.old }
    ensures written { destination.new ≡ uppinalo_read_doubles_destination axis source.now destination.old }
{
    match codes::axis_of(axis) {
        Err(r) => return no_run(r),
        Ok(a) => return runs::read(a, source, destination),
    }
}
