// One record: eight bytes in either byte order.
ghost use Rattle.std.specs.Prelude.{◌≡◌, ◌+◌, ◌*◌, ◌≤◌, length, take, drop, ◌++◌};
ghost use Rattle.int64_bytes.specs.LittleEndian.{little_endian, little_bytes};
ghost use Rattle.datetime64_runs.specs.Records.{in_order, record_number, number_at, record_of};

use datetime64_type::ByteOrder;

// The number whose bytes are those of w in an order.
#[tactic(auto, using(int64_bytes::proofs::Words::turned_is, int64_bytes::proofs::Bytes::little_back))]
fn in_order(order: ByteOrder, w: u64) -> u64
    ensures { result ≡ little_endian (in_order order (little_bytes 8 w)) }
{
    match order {
        ByteOrder::Little => w,
        ByteOrder::Big => w.swap_bytes(),
    }
}

// The number of a record.
fn number_in(order: ByteOrder, r: &[u8]) -> i64
    requires { length r.now ≡ 8 }
    ensures { result ≡ record_number order r.now }
{
    in_order(order, int64_bytes::little_endian(r)).cast_signed()
}

// The number of the record at place i.
pub fn number_at(order: ByteOrder, bytes: &[u8], i: usize) -> i64
    requires { 8 * i + 8 ≤ length bytes.now }
    ensures { result ≡ number_at order bytes.now i }
{
    number_in(order, &bytes[8 * i..8 * i + 8])
}

// The record of a number.
fn record_of(order: ByteOrder, n: i64) -> [u8; 8]
    ensures { result ≡ record_of order n }
{
    int64_bytes::little_bytes(in_order(order, n.cast_unsigned()))
}

// Writes the record of a number at place i.
pub fn put_number(order: ByteOrder, bytes: &mut [u8], i: usize, n: i64)
    requires { 8 * i + 8 ≤ length bytes.old }
    ensures { bytes.new ≡ take (8 * i) bytes.old ++ (record_of order n ++ drop (8 * i + 8) bytes.old) }
{
    bytes[8 * i..8 * i + 8].copy_from_slice(&record_of(order, n));
}
