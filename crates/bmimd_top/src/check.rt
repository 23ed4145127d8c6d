// The command `check`: reads an image, and writes what it has.
ghost use Rattle.bm_io.specs.declared.sinks.SinkFault.TheVariants.{Failed};
ghost use Rattle.bm_io.specs.Causes.{HasCause};
ghost use Rattle.bm_course.specs.Seen.{files_seen, sink_seen};
ghost use Rattle.bm_course.specs.Sends.{Sends};
ghost use Rattle.bm_course.specs.Ends.{Concludes};
ghost use Rattle.bmimd_top.specs.Running.{counts_text};
ghost use Rattle.bmimd_top.specs.Command.{check_course};

use bm_course::{Stop, status};
use bm_inputs::{image_line, loaded_image};
use bm_io::{Files, Sink, SinkFault};
use std::alloc::Global;
use stream_image::Image;

/// Writes the line of an image's counts.
fn write_counts<O: Sink>(out: &mut O, image: &Image) -> Result<u8, SinkFault>
    ensures sent { Sends (O.taken out.old) (O.taken out.new) (counts_text image.now) result }
    ensures cause { HasCause Failed (O.faults out.old) (O.faults out.new) result }
{
    out.write(image_line(image).bytes())?;
    Ok(status::ENDED)
}

/// Counts what the image of a file has.
pub(crate) fn check<'a, F: Files, O: Sink>(
    alloc: Global,
    name: &'a str,
    files: &mut F,
    out: &mut O,
) -> Result<u8, Stop<'a>>
    ensures { Concludes (files_seen F.held F.asked F.faults files.old) (files_seen F.held F.asked F.faults files.new)
        (sink_seen O.taken O.faults out.old) (sink_seen O.taken O.faults out.new)
        (check_course name.now) result }
{
    let image = loaded_image(alloc, files, name)?;
    Ok(write_counts(out, &image)?)
}
