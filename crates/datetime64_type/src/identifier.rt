// The identifier of a datetime64 array (specs/Identifier.antt). `type_of` is total.
ghost use Rattle.std.specs.Prelude.{◌≡◌, ◌≤◌, length};
ghost use Rattle.grammar.specs.Reader.{read};
ghost use Rattle.word_table.specs.Table.{lookup};
ghost use Rattle.datetime64_type.specs.Identifier.{unit_words, identifier, type_answer};
ghost use Rattle.datetime64_type.specs.Closed.{order_words, order_in, unit_in};

use crate::{ByteOrder, Datetime64Type, UnitCode};
use grammar::same_bytes;

// The byte order that the first four bytes of an identifier name.
fn order_of(word: &[u8]) -> Option<ByteOrder>
    ensures { lookup order_words word.now ≡ order_in result }
{
    if same_bytes(word, b"<M8[") {
        return Some(ByteOrder::Little);
    }
    if same_bytes(word, b">M8[") {
        return Some(ByteOrder::Big);
    }
    None
}

// The unit that a word names.
fn unit_of(word: &[u8]) -> Option<UnitCode>
    ensures { lookup unit_words word.now ≡ unit_in result }
{
    match word {
        b"Y" => Some(UnitCode::Year),
        b"M" => Some(UnitCode::Month),
        b"W" => Some(UnitCode::Week),
        b"D" => Some(UnitCode::Day),
        b"h" => Some(UnitCode::Hour),
        b"m" => Some(UnitCode::Minute),
        b"s" => Some(UnitCode::Second),
        b"ms" => Some(UnitCode::Millisecond),
        b"us" => Some(UnitCode::Microsecond),
        b"ns" => Some(UnitCode::Nanosecond),
        b"ps" => Some(UnitCode::Picosecond),
        b"fs" => Some(UnitCode::Femtosecond),
        b"as" => Some(UnitCode::Attosecond),
        _ => None,
    }
}

// The type of an identifier: four bytes, the word of a unit, a bracket.
pub fn type_of(text: &[u8]) -> Option<Datetime64Type>
    ensures { result ≡ type_answer (read identifier text.now) }
{
    let n = text.len();
    if n < 6 {
        return None;
    }
    let order = order_of(&text[..4])?;
    let end = n - 1;
    let unit = unit_of(&text[4..end])?;
    if text[end] != b']' {
        return None;
    }
    Some(Datetime64Type { order, unit })
}
