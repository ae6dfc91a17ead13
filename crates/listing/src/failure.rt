// What ends the listing before its input does: a read or a write that failed, and is not to be tried again.
use std::io::{ErrorKind, Write};
use std::{io, thread};

// The side that failed, and the reason.
#[derive(Drop)]
pub(crate) enum Failure {
    Input(io::Error),
    Output(io::Error),
}

// After a read or a write that failed: whether it is to be tried again, since it was interrupted or would have had to wait.
pub(crate) fn try_again(error: &io::Error) -> bool {
    match error.kind() {
        ErrorKind::Interrupted => true,
        ErrorKind::WouldBlock => {
            thread::yield_now();
            true
        }
        _ => false,
    }
}

// The reason alone: an error of the system is written with its number after it.
fn without_number(text: &str) -> &str {
    match text.split_once(" (os error ") {
        Some((reason, _)) => reason,
        None => text,
    }
}

impl Failure {
    // Tells what failed, and the reason.
    pub(crate) fn tell(self, to: &impl Print) -> io::Result<()> {
        let (side, error) = match self {
            Failure::Input(error) => ("input", error),
            Failure::Output(error) => ("output", error),
        };
        let mut room = [0u8; 320];
        let mut rest: &mut [u8] = &mut room;
        let _ = write!(rest, "{error}");
        let end = byte_slices::find(&room, 0, room.len(), 0);
        let text = std::str::from_utf8(&room[..end]).unwrap_or("");
        println!(to; "listing: standard {side}: {}", without_number(text))
    }
}
