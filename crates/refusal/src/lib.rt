// The refusals of document 01, "Numbers returned", and of document 02: why a call gives no result.
// A reader may rely on `number`, which is the table's number.
#![tactic(auto)]

ghost use Rattle.std.specs.Prelude.{◌≡◌};
ghost use Rattle.refusal.specs.Number.{number_of};

#[derive(Clone, Copy)]
pub enum Refusal {
    TextTooLong,
    UnknownCalendar,
    IllFormed,
    ImpossibleField,
    OutOfRange,
    Inexact,
    NoRoom,
    NotFinite,
    PartRecord,
    NotATime,
    NotOpen,
    MissingDate,
    DroppedDate,
    BadLeapSeconds,
    Before1972,
    CutoverNotAllowed,
}

// The number of a refusal in the C interface; 0 is kept for success.
pub fn number(r: Refusal) -> u32
    ensures { result ≡ number_of r }
{
    match r {
        Refusal::TextTooLong => return 1,
        Refusal::UnknownCalendar => return 2,
        Refusal::IllFormed => return 3,
        Refusal::ImpossibleField => return 4,
        Refusal::OutOfRange => return 5,
        Refusal::Inexact => return 6,
        Refusal::NoRoom => return 7,
        Refusal::NotFinite => return 8,
        Refusal::PartRecord => return 9,
        Refusal::NotATime => return 10,
        Refusal::NotOpen => return 11,
        Refusal::MissingDate => return 12,
        Refusal::DroppedDate => return 13,
        Refusal::BadLeapSeconds => return 14,
        Refusal::Before1972 => return 15,
        Refusal::CutoverNotAllowed => return 16,
    }
}
