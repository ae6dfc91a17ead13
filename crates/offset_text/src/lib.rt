// The text of an offset in a line of the listing program: a whole number in decimal digits, or the bits of a double in hexadecimal ones
// (specs/OffsetRule.antt). `read_offset` is total.
#![tactic(auto)]

ghost use Rattle.std.specs.Prelude.{◌≡◌, ◌^◌, ◌≤◌, length};
ghost use Rattle.std.specs.Option.{unwrap_or};
ghost use Rattle.std.specs.Float.{binary64};
ghost use Rattle.std.specs.Float.Ieee.{of_bits};
ghost use Rattle.grammar.specs.Reader.{read};
ghost use Rattle.grammar.specs.Rules.{number};
ghost use Rattle.offset_text.specs.OffsetRule.{digit_of, negative, positive, bits, offset, offset_answer};
ghost use Rattle.offset_text.specs.Closed.{digits_from, digits_in};

use axis_types::Offset;

// The value of a digit.
fn digit_of(b: u8) -> Option<u64>
    ensures { digit_of b ≡ unwrap_or result 16 }
{
    match b {
        b'0'..=b'9' => Some(u64::from(b - b'0')),
        b'a'..=b'f' => Some(u64::from(b - b'a') + 10),
        _ => None,
    }
}

// The number that a text writes to a base, where every byte of it is a digit of that base.
fn number_to(base: u64, s: &[u8]) -> Option<u64>
    requires le_base { (1 ≤ base) × (base ≤ 16) }
    requires s_bound { base ^ length s.now ≤ 2 ^ 64 }
    ensures { digits_from base 0 s.now ≡ digits_in result }
{
    let mut v = 0;
    for &b in s {
        let d = digit_of(b)?;
        if base <= d {
            return None;
        }
        v = v * base + d;
    }
    Some(v)
}

// The number that 1 to 19 decimal digits write.
fn decimal_of(s: &[u8]) -> Option<u64>
    ensures { read (number 19) s.now ≡ digits_in result }
{
    if s.is_empty() {
        return None;
    }
    if 19 < s.len() {
        return None;
    }
    number_to(10, s)
}

// A whole offset, after its minus.
fn read_negative(s: &[u8]) -> Option<Offset>
    ensures { result ≡ offset_answer (read negative s.now) }
{
    let n = decimal_of(s)?;
    let whole = 0_i64.checked_sub_unsigned(n)?;
    Some(Offset::Whole(whole))
}

// A whole offset without a minus. The two signs have no number to differ in: one function would ask for the sign twice.
fn read_positive(s: &[u8]) -> Option<Offset>
    ensures { result ≡ offset_answer (read positive s.now) }
{
    let n = decimal_of(s)?;
    let whole = 0_i64.checked_add_unsigned(n)?;
    Some(Offset::Whole(whole))
}

// The double of a bit pattern. A NaN is made without its pattern.
fn double_of(n: u64) -> f64
    ensures { result ≡ of_bits binary64 n }
{
    if 0x7ff0_0000_0000_0000 < n % 0x8000_0000_0000_0000 {
        return 0.0 / 0.0;
    }
    f64::from_bits(n)
}

// A double, after its x.
fn read_bits(s: &[u8]) -> Option<Offset>
    ensures { result ≡ offset_answer (read bits s.now) }
{
    if s.len() != 16 {
        return None;
    }
    let n = number_to(16, s)?;
    Some(Offset::Double(double_of(n)))
}

// The offset that a text writes.
pub fn read_offset(text: &[u8]) -> Option<Offset>
    ensures { result ≡ offset_answer (read offset text.now) }
{
    match text {
        [b'x', digits @ ..] => read_bits(digits),
        [b'-', digits @ ..] => read_negative(digits),
        _ => read_positive(text),
    }
}
