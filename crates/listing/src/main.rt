// The listing program: reads lines of calendar, units and offset from standard input to its end, and writes the date of each, or its
// refusal. What a line prints is `listing_line::answer`, whose promise says it to the byte; here the lines are cut from the input and the answers
// gathered into larger writes. What a read has brought is answered and written out before the next read, so that whoever waits for an
// answer gets it. A read or a write that fails ends the program, which tells the system's reason on standard error.
#![tactic(auto)]

ghost use Rattle.std.specs.Prelude.{◌≡◌, ◌==◌, ◌<◌, IfErr, IfSome, length, position};
ghost use Rattle.listing.specs.Failure.{IsOfOutput};

mod buffer;
mod failure;
mod output;

use buffer::Buffer;
use failure::{Failure, try_again};
use output::Answers;
use std::io::{Read, Write};
use std::process::ExitCode;

// A line is gathered in 256 bytes, one more than a line may have: of a longer one the rest is left out, and it is too long all the same.
type Line = Buffer<256>;

// Where the first line of some bytes ends.
fn newline(bytes: &[u8]) -> Option<usize>
    ensures place { result ≡ position (λ b. b == 10) bytes.now }
    ensures inside { IfSome result (λ n. n < length bytes.now) }
{
    bytes.iter().position(|b| *b == b'\n')
}

// The bytes of one read: each newline ends a line, the first of which may have begun before; what follows the last newline is gathered.
// After a write that failed nothing is answered of a line that was cut off.
fn feed<W: Write>(
    to: &mut W,
    chunk: &[u8],
    line: &mut Line,
    out: &mut Answers,
) -> Result<(), Failure>
    ensures { IfErr result IsOfOutput }
{
    let mut rest = chunk;
    while let Some(end) = newline(rest) {
        let (text, next) = rest.split_at(end);
        line.gather(text);
        output::make_room(to, out)?;
        output::answer(line.gathered(), out);
        line.clear();
        rest = &next[1..];
    }
    line.gather(rest);
    output::flush(to, out)
}

// One read, and what it brought; answers whether nothing more is read.
fn turn<R: Read, W: Write>(
    from: &mut R,
    to: &mut W,
    buffer: &mut [u8],
    line: &mut Line,
    out: &mut Answers,
) -> Result<bool, Failure> {
    match from.read(buffer) {
        Ok(0) => Ok(true),
        Ok(n) => {
            feed(to, &buffer[..n], line, out)?;
            Ok(false)
        }
        Err(error) => {
            if try_again(&error) {
                return Ok(false);
            }
            Err(Failure::Input(error))
        }
    }
}

// All of the input; a last line without a newline is left in `line`. Nothing says that an input ends, so the reads are counted, to a number
// that no run reaches.
fn run<R: Read, W: Write>(
    from: &mut R,
    to: &mut W,
    line: &mut Line,
    out: &mut Answers,
) -> Result<(), Failure> {
    let mut buffer = [0u8; 65536];
    for _ in 0..u64::MAX {
        if turn(from, to, &mut buffer, line, out)? {
            return Ok(());
        }
    }
    Ok(())
}

// The last line, where it lacks its newline.
fn finish<W: Write>(to: &mut W, line: &Line, out: &mut Answers) -> Result<(), Failure>
    ensures { IfErr result IsOfOutput }
{
    if line.gathered().is_empty() {
        return Ok(());
    }
    output::make_room(to, out)?;
    output::answer(line.gathered(), out);
    output::flush(to, out)
}

// The whole listing, from what is read to what is written.
fn list<R: Read, W: Write>(from: &mut R, to: &mut W) -> Result<(), Failure> {
    let mut line = Line::new();
    let mut out = Answers::new();
    run(from, to, &mut line, &mut out)?;
    finish(to, &line, &mut out)
}

fn main(rt: HostRuntime) -> ExitCode {
    match list(&mut rt.stdin(), &mut rt.stdout()) {
        Ok(()) => ExitCode::SUCCESS,
        Err(failure) => {
            // to nobody where standard error takes nothing either
            let _ = failure.tell(&rt.stderr());
            ExitCode::FAILURE
        }
    }
}
