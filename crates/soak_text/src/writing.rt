// The text of a soak, one write a line.
ghost use Rattle.std.specs.Prelude.{◌≡◌, ◌≤◌, ◌<◌, ◌^◌, ◌++◌, [], ◌∷◌};
ghost use Rattle.bm_base.specs.Spec.{standard};
ghost use Rattle.bm_io.specs.declared.sinks.SinkFault.TheVariants.{Failed};
ghost use Rattle.bm_io.specs.Causes.{HasCause};
ghost use Rattle.bm_io.specs.Sink.{Sent};
ghost use Rattle.bm_report.specs.Summary.{summary_lines};
ghost use Rattle.bm_course.specs.Course.{Output};
ghost use Rattle.bm_course.specs.Sends.{Sends};
ghost use Rattle.run_text.specs.declared.kind.UnitKind.{UnitKind};
ghost use Rattle.run_text.specs.declared.kind.UnitKind.TheVariants.{Static, Dynamic};
ghost use Rattle.soak_text.specs.declared.pace.Pace.{Pace};
ghost use Rattle.soak_text.specs.Lines.{Shown, source_part, run_part, unit_parts, parts};
ghost use Rattle.soak_text.specs.Soak.{Shows, AreShown, outcome_of, soak_text, IsSoak};
ghost use Rattle.soak_text.specs.Parts.{SendsParts};

use crate::evaluating::evaluate;
use crate::lines::{line_of_summary, run_line, source_line};
use crate::program::read_program;
use crate::running::run_image;
use crate::{Pace, runs_are_shown, soaks_have_one_text};
use bm_base::{MOST_STATEMENTS, Spec};
use bm_course::status;
use bm_io::{Sink, SinkFault};
use bm_report::Summary;
use compiled_image::{Compiled, compile};
use run_text::UnitKind;
use src_meaning::End;
use src_names::Resolved;
use std::alloc::Global;
use stream_image::Image;

/// Writes the five lines of a summary.
fn write_summary<O: Sink>(out: &mut O, summary: &Summary) -> Result<(), SinkFault>
    ensures sent { Sent (O.taken out.old) (O.taken out.new) (summary_lines summary.now) result }
    ensures cause { HasCause Failed (O.faults out.old) (O.faults out.new) result }
{
    for row in 0..5 {
        out.write(line_of_summary(summary, row).bytes())?;
    }
    Ok(())
}

/// Writes the line of the source's outcome, and answers whether it is still going.
fn write_source<O: Sink>(alloc: Global, out: &mut O, program: &Resolved) -> Result<bool, SinkFault>
    ensures sent { SendsParts (O.taken out.old) (O.taken out.new) (source_part (outcome_of program.now) ∷ []) result }
    ensures cause { HasCause Failed (O.faults out.old) (O.faults out.new) result }
{
    let evaluated = evaluate(alloc, program)?;
    out.write(source_line(evaluated).bytes())?;
    Ok(matches!(evaluated.end, End::More))
}

/// Writes the line of a run, and answers whether it is still going.
fn write_run<O: Sink>(
    alloc: Global,
    out: &mut O,
    image: &Image,
    seed: u64,
    kind: UnitKind,
    pace: Pace,
) -> Result<bool, SinkFault>
    ensures sent { (shown : Shown) → Shows image.now seed kind pace shown
        → SendsParts (O.taken out.old) (O.taken out.new) (run_part kind pace shown ∷ []) result }
    ensures cause { HasCause Failed (O.faults out.old) (O.faults out.new) result }
{
    // Only for its contract.
    runs_are_shown();
    let ran = run_image(alloc, image, seed, kind, pace)?;
    out.write(run_line(kind, pace, ran).bytes())?;
    Ok(ran.end.is_none())
}

/// Writes the lines of the runs on a unit of this kind, and answers whether one of them is still going.
fn write_unit<O: Sink>(
    alloc: Global,
    out: &mut O,
    image: &Image,
    seed: u64,
    kind: UnitKind,
) -> Result<bool, SinkFault>
    ensures sent { (shown : UnitKind → Pace → Shown) → AreShown image.now seed shown
        → SendsParts (O.taken out.old) (O.taken out.new) (unit_parts kind shown) result }
    ensures cause { HasCause Failed (O.faults out.old) (O.faults out.new) result }
{
    let least = write_run(alloc, out, image, seed, kind, Pace::Least)?;
    let most = write_run(alloc, out, image, seed, kind, Pace::Most)?;
    let seeded = write_run(alloc, out, image, seed, kind, Pace::Seeded)?;
    Ok(least | most | seeded)
}

/// Writes the seven lines, and answers whether one of them is still going.
fn write_parts<O: Sink>(
    alloc: Global,
    out: &mut O,
    program: &Resolved,
    image: &Image,
    seed: u64,
) -> Result<bool, SinkFault>
    ensures sent { (shown : UnitKind → Pace → Shown) → AreShown image.now seed shown
        → SendsParts (O.taken out.old) (O.taken out.new) (parts (outcome_of program.now) shown) result }
    ensures cause { HasCause Failed (O.faults out.old) (O.faults out.new) result }
{
    let source = write_source(alloc, out, program)?;
    let fixed = write_unit(alloc, out, image, seed, UnitKind::Static)?;
    let dynamic = write_unit(alloc, out, image, seed, UnitKind::Dynamic)?;
    Ok(source | fixed | dynamic)
}

/// Writes the summary of a compiled program and its seven lines, and answers the status.
fn write_compiled<O: Sink>(
    alloc: Global,
    out: &mut O,
    program: &Resolved,
    compiled: &Compiled,
    seed: u64,
) -> Result<u8, SinkFault>
    ensures sent { (shown : UnitKind → Pace → Shown) → AreShown compiled.now.image seed shown → Sends (O.taken out.old) (O.taken out.new)
        (soak_text compiled.now.summary (parts (outcome_of program.now) shown)) result }
    ensures cause { HasCause Failed (O.faults out.old) (O.faults out.new) result }
{
    write_summary(out, &compiled.summary)?;
    if write_parts(alloc, out, program, &compiled.image, seed)? {
        Ok(status::GOING)
    } else {
        Ok(status::ENDED)
    }
}

/// Writes the soak of a seed and a number of items: the summary of the generated program on the
/// default machine, how its source stands after a million turns of its loops, and how its runs stand
/// after 10^9 ticks, on both units with the least times, the greatest, and those of the seed.
///
/// The program is what the text of the generated tree reads as. It answers 8 where the source or a run
/// is still going, else 0. Where there is no memory for a line, nothing of it and of those behind it is
/// written; after a fault of the sink nothing more is.
pub fn write_soak<O: Sink>(
    alloc: Global,
    out: &mut O,
    seed: u64,
    statements: u32,
) -> Result<u8, SinkFault>
    requires { statements ≤ MOST_STATEMENTS }
    ensures sent { (text : Output) × IsSoak seed statements text × Sends (O.taken out.old) (O.taken out.new) text result }
    ensures cause { HasCause Failed (O.faults out.old) (O.faults out.new) result }
{
    // Only for their contracts.
    soaks_have_one_text();
    runs_are_shown();
    let program = read_program(alloc, seed, statements)?;
    let compiled = compile(alloc, &program, Spec::standard())?;
    write_compiled(alloc, out, &program, &compiled, seed)
}
