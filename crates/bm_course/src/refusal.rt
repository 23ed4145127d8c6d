// What stops a command.
ghost use Rattle.std.specs.Prelude.{◌≡◌};
ghost use Rattle.bm_course.specs.declared.refusal.Stop.TheVariants as stop;
ghost use Rattle.bm_course.specs.Refusals.{stop_of};

use bm_base::Piece;
use bm_io::SinkFault;
use std::alloc::AllocError;

/// What the words or a content refuse.
#[derive(Drop)]
pub enum Refusal<'a> {
    /// The words match no row of the command table.
    Usage,
    /// The file `name` has at least `len` bytes, and may have `most`.
    TooLong {
        /// The file's name, as the words have it.
        name: &'a str,
        /// How many bytes were read of it: `most + 1`, since no more of it is read.
        len: usize,
        /// How many bytes it may have.
        most: usize,
    },
    /// A content is refused with this status and this line.
    Plain {
        /// The status, one of those of contents.
        status: u8,
        /// The line, with the LF at its end.
        line: Piece,
    },
    /// A content is refused with this status and a line that quotes a part of it, as it is.
    Quoting {
        /// The status, one of those of contents.
        status: u8,
        /// The line up to the part.
        before: Piece,
        /// The part of the content.
        part: Vec<u8>,
        /// The line behind the part, with the LF at its end.
        after: Piece,
    },
}

/// Why a command is stopped.
#[derive(Drop)]
pub enum Stop<'a> {
    /// The words or a content are refused.
    Refused(Refusal<'a>),
    /// The file `name` cannot be read.
    Unread { name: &'a str },
    /// The file `name` cannot be written.
    UnwrittenFile { name: &'a str },
    /// A write of the text failed.
    Unwritten,
    /// There is no memory.
    Memory,
}

impl<'a> From<AllocError> for Stop<'a> {
    ghost from_gives = { λ _ stopped. stopped ≡ stop.Memory };

    fn from(_: AllocError) -> Stop<'a> {
        Stop::Memory
    }
}

impl<'a> From<SinkFault> for Stop<'a> {
    ghost from_gives = { λ fault stopped. stopped ≡ stop_of fault };

    fn from(fault: SinkFault) -> Stop<'a> {
        match fault {
            SinkFault::Failed => Stop::Unwritten,
            SinkFault::Memory => Stop::Memory,
        }
    }
}
