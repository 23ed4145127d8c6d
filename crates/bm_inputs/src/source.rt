// The program of a source file.
ghost use Rattle.std.specs.Prelude.{◌≡◌, ◌<◌, ◌^◌, IfOk};
ghost use Rattle.src_names.specs.Sizes.{AllFewNodes, statements};
ghost use Rattle.bm_course.specs.Seen.{files_seen};
ghost use Rattle.bm_course.specs.Ends.{Comes};
ghost use Rattle.bm_inputs.specs.Sources.{source_course};
ghost use Rattle.bm_inputs.specs.Standing.{IsProgram};

use crate::source_lines::source_refusal;
use bm_base::MOST_SOURCE_BYTES;
use bm_course::{Stop, read_limited};
use bm_io::Files;
use src_front::read_source;
use src_names::Resolved;
use std::alloc::Global;

/// The program of a source file.
pub fn source_of<'a, F: Files>(
    alloc: Global,
    files: &mut F,
    name: &'a str,
) -> Result<Resolved, Stop<'a>>
    ensures comes { Comes IsProgram (files_seen F.held F.asked F.faults files.old) (files_seen F.held F.asked F.faults files.new)
        (source_course name.now) result }
    // It has at most 120 nodes in each statement, and fewer than 2^28 statements.
    ensures nodes { IfOk result (λ p. AllFewNodes p.body) }
    ensures statements { IfOk result (λ p. statements p.body < 2 ^ 28) }
{
    let bytes = read_limited(alloc, files, name, MOST_SOURCE_BYTES)?;
    match read_source(alloc, &bytes) {
        Ok(program) => Ok(program),
        Err(fault) => match source_refusal(fault) {
            Some(refusal) => Err(Stop::Refused(refusal)),
            None => Err(Stop::Memory),
        },
    }
}
