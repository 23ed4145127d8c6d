// The command `run`: reads an image, a script and data, and writes the run.
ghost use Rattle.std.specs.Prelude.{◌≡◌, ◌≤◌, IfOk};
ghost use Rattle.bm_base.specs.Memories.{IsMemoryOf};
ghost use Rattle.bm_words.specs.Seen.{seen_run};
ghost use Rattle.bm_course.specs.Seen.{files_seen, sink_seen};
ghost use Rattle.bm_course.specs.Ends.{Comes, Concludes};
ghost use Rattle.bm_inputs.specs.Images.{loaded_course};
ghost use Rattle.bm_inputs.specs.Beginning.{begun_course, IsBegun};
ghost use Rattle.bmimd_top.specs.Command.{run_course};

use crate::running::write_text;
use bm_base::MOST_BUDGET;
use bm_course::Stop;
use bm_inputs::{Begun, begin, loaded_image};
use bm_io::{Files, Sink};
use bm_words::RunWords;
use std::alloc::Global;

/// What the run of the image of a file begins with.
pub(crate) fn begun_image<'a, F: Files>(
    alloc: Global,
    files: &mut F,
    name: &'a str,
    run: RunWords<'a>,
) -> Result<Begun, Stop<'a>>
    ensures comes { Comes IsBegun (files_seen F.held F.asked F.faults files.old) (files_seen F.held F.asked F.faults files.new)
        (begun_course (loaded_course name.now) (seen_run run.entry)) result }
    ensures memory { IfOk result (λ begun. IsMemoryOf begun.image.names begun.store) }
{
    let image = loaded_image(alloc, files, name)?;
    begin(alloc, files, image, run)
}

/// Runs the image of a file.
pub(crate) fn run_image<'a, F: Files, O: Sink>(
    alloc: Global,
    name: &'a str,
    run: RunWords<'a>,
    files: &mut F,
    out: &mut O,
) -> Result<u8, Stop<'a>>
    requires early { run.budget ≤ MOST_BUDGET }
    ensures { Concludes (files_seen F.held F.asked F.faults files.old) (files_seen F.held F.asked F.faults files.new)
        (sink_seen O.taken O.faults out.old) (sink_seen O.taken O.faults out.new)
        (run_course name.now (seen_run run.entry)) result }
{
    let begun = begun_image(alloc, files, name, run)?;
    Ok(write_text(alloc, out, begun, run)?)
}
