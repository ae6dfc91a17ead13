// Answers gathered in a buffer, and the buffer written out.
ghost use Rattle.std.specs.Prelude.{◌≡◌, ◌+◌, ◌≤◌, length, IfOk, IfErr};
ghost use Rattle.listing.specs.Failure.{IsOfOutput};
ghost use Rattle.iso_form.specs.Form.{over};
ghost use Rattle.listing_line.specs.Line.{line_text};

use crate::buffer::Buffer;
use crate::failure::{Failure, try_again};
use std::io;
use std::io::{ErrorKind, Write};

// Room for answers.
pub(crate) type Answers = Buffer<65536>;

// A write that took nothing and names no error has none to wait for, and is not tried again.
fn nothing_taken() -> Failure
    ensures { IsOfOutput result }
{
    Failure::Output(io::Error::new(ErrorKind::WriteZero, "Nothing was taken"))
}

// Writes out all bytes. A write may take a part, and the next one goes on with the rest. The writes are counted, to a number that no run
// reaches.
fn write_all<W: Write>(to: &mut W, bytes: &[u8]) -> Result<(), Failure>
    ensures { IfErr result IsOfOutput }
{
    let mut rest = bytes;
    for _ in 0..u64::MAX {
        if rest.is_empty() {
            return Ok(());
        }
        match to.write(rest) {
            Ok(0) => return Err(nothing_taken()),
            Ok(n) => rest = &rest[n..],
            Err(error) => {
                if !try_again(&error) {
                    return Err(Failure::Output(error));
                }
            }
        }
    }
    Err(nothing_taken())
}

// Writes out the answers, and makes room for others.
pub(crate) fn flush<W: Write>(to: &mut W, out: &mut Answers) -> Result<(), Failure>
    ensures ok { IfOk result (λ u. out.new.used ≡ 0) }
    ensures err { IfErr result IsOfOutput }
{
    write_all(to, out.gathered())?;
    out.clear();
    Ok(())
}

// Room for the next answer: the buffer is written out where too little is left of it.
pub(crate) fn make_room<W: Write>(to: &mut W, out: &mut Answers) -> Result<(), Failure>
    ensures ok { IfOk result (λ u. out.new.used + 64 ≤ 65536) }
    ensures err { IfErr result IsOfOutput }
{
    if 64 <= out.left() {
        return Ok(());
    }
    flush(to, out)
}

// The answer to a line, at the front of room that is enough for any.
fn put(line: &[u8], room: &mut [u8]) -> usize
    requires { 64 ≤ length room.old }
    ensures answered { (result ≡ length (line_text line.now)) × (result ≤ 64) }
    ensures written { room.new ≡ over (line_text line.now) room.old }
{
    listing_line::answer(line, room).unwrap()
}

// The answer to a line, where there is room for any.
pub(crate) fn answer(line: &[u8], out: &mut Answers)
    requires { out.old.used + 64 ≤ 65536 }
    ensures { out.new.used ≡ out.old.used + length (line_text line.now) }
{
    out.used += put(line, &mut out.bytes[out.used..]);
}
