// The refusals of scripts and of data.
ghost use Rattle.std.specs.Prelude.{◌≡◌, ◌≤◌, ◌+◌, ◌++◌, length, codes, decimal};
ghost use Rattle.std.specs.Option.{option_map};
ghost use Rattle.bm_course.specs.Refusals.{refused_as};
ghost use Rattle.bm_inputs.specs.ScriptLines.{script_refused};
ghost use Rattle.bm_inputs.specs.DataLines.{data_refused};

use crate::pieces::{numbered, plain, twice_numbered};
use bm_base::Piece;
use bm_course::{Refusal, status};
use timing_script::{DataFault, ScriptFault};

/// The line of a count of values.
fn count_line(line: u32, given: u32, room: u32) -> Piece
    ensures { result ≡ codes "error 32: data line " ++ decimal line ++ codes " gives " ++ decimal given ++ codes " values for "
        ++ decimal room ++ codes "\n" }
{
    let mut piece = numbered(b"error 32: data line ", line, b" gives ");
    piece.count(u64::from(given));
    piece.text(b" values for ");
    piece.count(u64::from(room));
    piece.text(b"\n");
    piece
}

/// What a fault of a script is refused with, none where it is want of memory.
pub(crate) fn script_refusal(fault: ScriptFault) -> Option<Refusal<'static>>
    ensures { option_map refused_as result ≡ script_refused fault }
{
    match fault {
        ScriptFault::ScriptText { line } => plain(
            status::SCRIPT,
            numbered(b"error 29: script line ", line, b"\n"),
        ),
        ScriptFault::Memory => None,
    }
}

/// What a fault of data is refused with, none where it is want of memory.
pub(crate) fn data_refusal(fault: DataFault) -> Option<Refusal<'static>>
    ensures { option_map refused_as result ≡ data_refused fault }
{
    match fault {
        DataFault::DataText { line } => plain(
            status::DATA,
            numbered(b"error 30: data line ", line, b"\n"),
        ),
        DataFault::DataName { line } => plain(
            status::DATA,
            numbered(b"error 31: data line ", line, b" names nothing\n"),
        ),
        DataFault::DataTwice { line, first } => plain(
            status::DATA,
            twice_numbered(b"error 33: data line ", line, b" repeats line ", first),
        ),
        DataFault::DataCount { line, given, room } => plain(
            status::DATA,
            count_line(line, given, room),
        ),
        DataFault::Memory => None,
    }
}
