// The command `show`: reads a source and a machine, and lists the blocks of what they are compiled to.
ghost use Rattle.std.specs.Prelude.{◌≡◌, map};
ghost use Rattle.bm_io.specs.declared.sinks.SinkFault.TheVariants.{Failed};
ghost use Rattle.bm_io.specs.Causes.{HasCause};
ghost use Rattle.bm_io.specs.Sink.{Sent};
ghost use Rattle.bm_words.specs.Seen.{seen_machine};
ghost use Rattle.bm_report.specs.Summary.{summary_lines};
ghost use Rattle.bm_course.specs.Seen.{files_seen, sink_seen};
ghost use Rattle.bm_course.specs.Sends.{Sends};
ghost use Rattle.bm_course.specs.Ends.{Comes, Concludes};
ghost use Rattle.bmimd_top.specs.Listing.{listed_course, text_of, IsListed};
ghost use Rattle.bmimd_top.specs.Command.{show_course};

use crate::compile::line_of;
use bm_base::Sequence;
use bm_course::{Stop, send_lines, status};
use bm_inputs::{named_machine, source_of};
use bm_io::{Files, Sink, SinkFault};
use bm_report::Summary;
use bm_words::MachineWord;
use compiled_image::compile;
use show_text::{ShownBlock, show_program, write_listing};
use std::alloc::Global;

/// What is shown of a program's blocks, and its summary.
#[derive(Drop)]
pub(crate) struct Listing {
    shown: Sequence<ShownBlock>,
    summary: Summary,
}

/// What is shown of the program of a source file on a machine.
fn listing_of<'a, F: Files>(
    alloc: Global,
    files: &mut F,
    program: &'a str,
    machine: MachineWord<'a>,
) -> Result<Listing, Stop<'a>>
    ensures { Comes IsListed (files_seen F.held F.asked F.faults files.old) (files_seen F.held F.asked F.faults files.new)
        (listed_course program.now (seen_machine machine.entry)) result }
{
    let source = source_of(alloc, files, program)?;
    let spec = named_machine(alloc, files, machine)?;
    let shown = show_program(alloc, &source, &spec)?;
    let compiled = compile(alloc, &source, spec)?;
    Ok(Listing {
        shown,
        summary: compiled.summary,
    })
}

/// Writes the lines of a summary.
fn write_summary<O: Sink>(out: &mut O, summary: &Summary) -> Result<(), SinkFault>
    ensures sent { Sent (O.taken out.old) (O.taken out.new) (summary_lines summary.now) result }
    ensures cause { HasCause Failed (O.faults out.old) (O.faults out.new) result }
{
    let blocks = line_of(summary, 0);
    let tuples = line_of(summary, 1);
    let pairs = line_of(summary, 2);
    let masks = line_of(summary, 3);
    let estimate = line_of(summary, 4);
    let lines = [
        blocks.bytes(),
        tuples.bytes(),
        pairs.bytes(),
        masks.bytes(),
        estimate.bytes(),
    ];
    send_lines(out, &lines)
}

/// Writes the listing, and then the summary.
fn write_shown<O: Sink>(out: &mut O, listing: &Listing) -> Result<u8, SinkFault>
    ensures sent { Sends (O.taken out.old) (O.taken out.new) (text_of listing.now.shown listing.now.summary) result }
    ensures cause { HasCause Failed (O.faults out.old) (O.faults out.new) result }
{
    write_listing(out, listing.shown.items())?;
    write_summary(out, &listing.summary)?;
    Ok(status::ENDED)
}

/// Lists the blocks of the program of a source file, as they are compiled for a machine.
pub(crate) fn show<'a, F: Files, O: Sink>(
    alloc: Global,
    program: &'a str,
    machine: MachineWord<'a>,
    files: &mut F,
    out: &mut O,
) -> Result<u8, Stop<'a>>
    ensures { Concludes (files_seen F.held F.asked F.faults files.old) (files_seen F.held F.asked F.faults files.new)
        (sink_seen O.taken O.faults out.old) (sink_seen O.taken O.faults out.new)
        (show_course program.now (seen_machine machine.entry)) result }
{
    let listing = listing_of(alloc, files, program, machine)?;
    Ok(write_shown(out, &listing)?)
}
