// One line of the listing program (specs/Line.antt): what a line of input answers, and the bytes that are printed for it. `read_line` and
// `answer` are total. A reader may rely on the theorems of proofs/Theorems.antt.
#![tactic(auto)]

ghost use Rattle.std.specs.Prelude.{◌≡◌, true, ◌∷◌, ◌++◌, ◌+◌, ◌≤◌, ◌<◌, length};
ghost use Rattle.std.proofs.Math.Option.{some};
ghost use Rattle.instant.specs.Instant.{in_range};
ghost use Rattle.grammar.specs.Rules.{bytes as bytes_of};
ghost use Rattle.iso_form.specs.Form.{two_digits, length_answer, over};
ghost use Rattle.listing_line.specs.Line.{with_offset, line_answer, refused_text, rounded_text, newline, answer_text, line_text};
ghost use Rattle.listing_line.specs.Closed.{BarsOf};

use axis_types::Offset;
use byte_slices::find;
use calendar::Calendar;
use refusal::Refusal;

// What a line shows: an instant of a calendar, and whether it is the exact time.
#[derive(Clone, Copy)]
pub struct Shown {
    pub calendar: Calendar,
    pub instant: i64,
    pub exact: bool,
}

// The places of the bars, where there are exactly two.
fn bars_of(line: &[u8]) -> Option<(usize, usize)>
    ensures { BarsOf line.now result }
{
    let n = line.len();
    let a = find(line, 0, n, b'|');
    if a == n {
        return None;
    }
    let b = find(line, a + 1, n, b'|');
    if b == n {
        return None;
    }
    if find(line, b + 1, n, b'|') == n {
        return Some((a, b));
    }
    None
}

// The answer of an offset on the axis of a calendar name and a units text, with the cutover of 1582.
fn read_parts(name: &[u8], units: &[u8], offset: Offset) -> Result<Shown, Refusal>
    ensures { result ≡ with_offset name.now units.now (some offset) }
{
    let axis = axis_text::read_units(name, cutover::first_cutover(), units)?;
    let reading = axis::read(axis, offset)?;
    Ok(Shown {
        calendar: axis.calendar,
        instant: reading.instant,
        exact: reading.exact,
    })
}

// What a line answers, its newline left out.
pub fn read_line(line: &[u8]) -> Result<Shown, Refusal>
    ensures { result ≡ line_answer line.now }
{
    if 255 < line.len() {
        return Err(Refusal::TextTooLong);
    }
    let Some((a, b)) = bars_of(line) else {
        return Err(Refusal::IllFormed);
    };
    let start: usize = 0;
    let units = a + 1;
    let offset = b + 1;
    let Some(offset) = offset_text::read_offset(&line[offset..]) else {
        return Err(Refusal::IllFormed);
    };
    return read_parts(&line[start..a], &line[units..b], offset);
}

// Puts a text at the front of the room, where there is room for it.
fn put(text: &[u8], room: &mut [u8]) -> Result<usize, Refusal>
    ensures value { result ≡ length_answer text.now room.old }
    ensures room_after { room.new ≡ over text.now room.old }
{
    if room.len() < text.len() {
        return Err(Refusal::NoRoom);
    }
    let n = byte_slices::copy(text, room);
    return Ok(n);
}

fn one_digit(n: u32) -> [u8; 10]
    requires { n < 10 }
    ensures { result ≡ bytes_of "refused " ++ (n + 48) ∷ newline }
{
    [114, 101, 102, 117, 115, 101, 100, 32, n as u8 + 48, 10]
}

fn two_digits(n: u32) -> [u8; 11]
    ensures { result ≡ bytes_of "refused " ++ two_digits n ++ newline }
{
    [
        114,
        101,
        102,
        117,
        115,
        101,
        100,
        32,
        (n / 10 % 10) as u8 + 48,
        (n / 1 % 10) as u8 + 48,
        10,
    ]
}

fn put_refused(r: Refusal, room: &mut [u8]) -> Result<usize, Refusal>
    ensures value { result ≡ length_answer (refused_text r ++ newline) room.old }
    ensures room_after { room.new ≡ over (refused_text r ++ newline) room.old }
{
    let n = refusal::number(r);
    if n < 10 {
        let text = one_digit(n);
        return put(&text, room);
    }
    let text = two_digits(n);
    return put(&text, room);
}

// Puts what stands after ISO text into room that is long enough.
fn put_end(exact: bool, room: &mut [u8]) -> usize
    requires { 9 ≤ length room.old }
    ensures value { result ≡ length (rounded_text exact ++ newline) }
    ensures room_after { room.new ≡ over (rounded_text exact ++ newline) room.old }
{
    if exact {
        return byte_slices::copy(b"\n", room);
    }
    return byte_slices::copy(b" rounded\n", room);
}

// Puts ISO text and what stands after it into room that is long enough.
fn put_instant(shown: Shown, room: &mut [u8]) -> usize
    requires t_value { in_range shown.calendar shown.instant ≡ true }
    requires in_bounds { 37 ≤ length room.old }
    ensures value { result ≡ length (answer_text (Ok shown) ++ newline) }
    ensures room_after { room.new ≡ over (answer_text (Ok shown) ++ newline) room.old }
{
    let n = iso_text::write_iso(shown.calendar, shown.instant, room).unwrap();
    n + put_end(shown.exact, &mut room[n..])
}

fn put_shown(shown: Shown, room: &mut [u8]) -> Result<usize, Refusal>
    requires { in_range shown.calendar shown.instant ≡ true }
    ensures value { result ≡ length_answer (answer_text (Ok shown) ++ newline) room.old }
    ensures room_after { room.new ≡ over (answer_text (Ok shown) ++ newline) room.old }
{
    let mut text = [0u8; 37];
    let n = put_instant(shown, &mut text);
    let start: usize = 0;
    return put(&text[start..n], room);
}

// Puts what is printed for a line, its newline too, at the front of the room, and answers how many bytes these are. Room beyond them
// keeps its bytes; room that is too short is refused, and keeps all of them. 37 bytes are enough for any line.
pub fn answer(line: &[u8], room: &mut [u8]) -> Result<usize, Refusal>
    ensures value { result ≡ length_answer (line_text line.now) room.old }
    ensures room_after { room.new ≡ over (line_text line.now) room.old }
{
    match read_line(line) {
        Err(r) => put_refused(r, room),
        Ok(shown) => put_shown(shown, room),
    }
}
