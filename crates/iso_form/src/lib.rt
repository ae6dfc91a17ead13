// The one form of ISO text: the 27 bytes of a date in UTC, or 28 with a minus (specs/Form.antt), written into
// lent room. proofs/Back.antt shows that the date rule reads such a text back as the date that was written.
#![tactic(auto)]

ghost use Rattle.std.specs.Prelude.{◌≡◌, ◌∷◌};
ghost use Rattle.iso_form.specs.Form.{body, iso_text, length_answer, over};
ghost use Rattle.iso_form.specs.Closed.{lead};

use date_text::WrittenDate;
use refusal::Refusal;

// The text of 28 bytes, whose first byte is the minus.
fn text(w: WrittenDate) -> [u8; 28]
    ensures { result ≡ 45 ∷ body w }
{
    let t = w.time;
    [
        45,
        (w.year / 1000 % 10) as u8 + 48,
        (w.year / 100 % 10) as u8 + 48,
        (w.year / 10 % 10) as u8 + 48,
        (w.year / 1 % 10) as u8 + 48,
        45,
        (w.month / 10 % 10) as u8 + 48,
        (w.month / 1 % 10) as u8 + 48,
        45,
        (w.day / 10 % 10) as u8 + 48,
        (w.day / 1 % 10) as u8 + 48,
        84,
        (t.hour / 10 % 10) as u8 + 48,
        (t.hour / 1 % 10) as u8 + 48,
        58,
        (t.minute / 10 % 10) as u8 + 48,
        (t.minute / 1 % 10) as u8 + 48,
        58,
        (t.second / 10 % 10) as u8 + 48,
        (t.second / 1 % 10) as u8 + 48,
        46,
        (t.microsecond / 100000 % 10) as u8 + 48,
        (t.microsecond / 10000 % 10) as u8 + 48,
        (t.microsecond / 1000 % 10) as u8 + 48,
        (t.microsecond / 100 % 10) as u8 + 48,
        (t.microsecond / 10 % 10) as u8 + 48,
        (t.microsecond / 1 % 10) as u8 + 48,
        90,
    ]
}

// Where in the 28 bytes the text starts.
fn start(negative: bool) -> usize
    ensures { result ≡ lead negative }
{
    if negative { 0 } else { 1 }
}

// Writes the text of a date in UTC; room that is too short keeps its bytes.
pub fn write_form(w: WrittenDate, room: &mut [u8]) -> Result<usize, Refusal>
    ensures value { result ≡ length_answer (iso_text w) room.old }
    ensures room_after { room.new ≡ over (iso_text w) room.old }
{
    let t = text(w);
    let a = start(w.negative);
    let n = 28 - a;
    if room.len() < n {
        return Err(Refusal::NoRoom);
    }
    room[..n].copy_from_slice(&t[a..]);
    Ok(n)
}
