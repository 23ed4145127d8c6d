// The files that a command reads, and the one that it writes.
ghost use Rattle.std.specs.Prelude.{◌≡◌, ◌≤◌, ◌+◌, length, IfOk, IfErr};
ghost use Rattle.bm_course.specs.Course.{file};
ghost use Rattle.bm_course.specs.Limited.{IsContent, IsReadFault, IsLimit, limited};
ghost use Rattle.bm_course.specs.Seen.{files_seen};
ghost use Rattle.bm_course.specs.Ends.{Comes};

use crate::{Refusal, Stop};
use bm_io::{FileFault, Files};
use std::alloc::Global;

/// The content of a file, up to `most + 1` bytes.
pub fn read_file<'a, F: Files>(
    alloc: Global,
    files: &mut F,
    name: &'a str,
    most: usize,
) -> Result<Vec<u8>, Stop<'a>>
    ensures comes { Comes IsContent (files_seen F.held F.asked F.faults files.old) (files_seen F.held F.asked F.faults files.new)
        (file name.now most) result }
    ensures short { IfOk result (λ bytes. length bytes.items ≤ most + 1) }
    ensures fault { IfErr result (IsReadFault name.entry) }
{
    match files.read(alloc, name, most) {
        Ok(bytes) => Ok(bytes),
        Err(FileFault::Failed) => Err(Stop::Unread { name }),
        Err(FileFault::Memory) => Err(Stop::Memory),
    }
}

/// The content of a file of at most `most` bytes. A longer one is refused before its content is looked at, with
/// the length `most + 1`, since no more of it is read.
pub fn read_limited<'a, F: Files>(
    alloc: Global,
    files: &mut F,
    name: &'a str,
    most: usize,
) -> Result<Vec<u8>, Stop<'a>>
    ensures comes { Comes IsContent (files_seen F.held F.asked F.faults files.old) (files_seen F.held F.asked F.faults files.new)
        (limited name.now most) result }
    ensures short { IfOk result (λ bytes. length bytes.items ≤ most) }
    ensures long { IfErr result (IsLimit name.entry most) }
{
    let bytes = read_file(alloc, files, name, most)?;
    let len = bytes.len();
    if len > most {
        return Err(Stop::Refused(Refusal::TooLong { name, len, most }));
    }
    Ok(bytes)
}
