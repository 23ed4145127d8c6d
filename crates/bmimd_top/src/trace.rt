// The command `trace`: reads an image, a script and data, and writes the trace of the run.
ghost use Rattle.std.specs.Prelude.{◌≡◌, ◌≤◌};
ghost use Rattle.bm_words.specs.Seen.{seen_run};
ghost use Rattle.bm_course.specs.Seen.{files_seen, sink_seen};
ghost use Rattle.bm_course.specs.Ends.{Concludes};
ghost use Rattle.bmimd_top.specs.Command.{trace_course};

use crate::run::begun_image;
use crate::running::write_traced;
use bm_base::MOST_BUDGET;
use bm_course::Stop;
use bm_io::{Files, Sink};
use bm_words::RunWords;
use std::alloc::Global;

/// Tells the events of the run of the image of a file.
pub(crate) fn trace_image<'a, F: Files, O: Sink>(
    alloc: Global,
    name: &'a str,
    run: RunWords<'a>,
    files: &mut F,
    out: &mut O,
) -> Result<u8, Stop<'a>>
    requires early { run.budget ≤ MOST_BUDGET }
    ensures { Concludes (files_seen F.held F.asked F.faults files.old) (files_seen F.held F.asked F.faults files.new)
        (sink_seen O.taken O.faults out.old) (sink_seen O.taken O.faults out.new)
        (trace_course name.now (seen_run run.entry)) result }
{
    let begun = begun_image(alloc, files, name, run)?;
    Ok(write_traced(alloc, out, begun, run)?)
}
