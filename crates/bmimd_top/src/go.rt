// The command `go`: reads a source, a machine, a script and data, and writes the run of what the first two are compiled to.
ghost use Rattle.std.specs.Prelude.{◌≡◌, ◌≤◌, ◌<◌, ◌^◌, IfOk};
ghost use Rattle.bm_base.specs.Memories.{IsMemoryOf};
ghost use Rattle.bm_words.specs.Seen.{seen_machine, seen_run};
ghost use Rattle.bm_course.specs.Seen.{files_seen, sink_seen};
ghost use Rattle.bm_course.specs.Ends.{Comes, Concludes};
ghost use Rattle.bm_inputs.specs.Beginning.{IsBegun};
ghost use Rattle.src_names.specs.Sizes.{AllFewNodes, statements};
ghost use Rattle.bmimd_top.specs.Command.{go_course};
ghost use Rattle.bmimd_top.specs.Running.{compiled_course, sourced_course};

use crate::running::write_text;
use bm_base::{MOST_BUDGET, Spec};
use bm_course::Stop;
use bm_inputs::{Begun, given_memory, named_machine, named_script, source_of};
use bm_io::{Files, Sink};
use bm_words::{MachineWord, RunWords};
use compiled_image::compile;
use src_names::Resolved;
use std::alloc::Global;

/// What the run of a program on a machine begins with, as the words have it: the script's file is read, and then that
/// of the data, and then the program is compiled.
fn compiled_begin<'a, F: Files>(
    alloc: Global,
    files: &mut F,
    source: &Resolved,
    spec: Spec,
    run: RunWords<'a>,
) -> Result<Begun, Stop<'a>>
    requires nodes { AllFewNodes source.now.body }
    requires few { statements source.now.body < 2 ^ 28 }
    ensures comes { Comes IsBegun (files_seen F.held F.asked F.faults files.old) (files_seen F.held F.asked F.faults files.new)
        (compiled_course (seen_run run.entry) spec source.now) result }
    ensures memory { IfOk result (λ begun. IsMemoryOf begun.image.names begun.store) }
{
    let script = named_script(alloc, files, run.script)?;
    let store = given_memory(alloc, files, source.names(), run.given)?;
    let image = compile(alloc, source, spec)?.image;
    Ok(Begun {
        image,
        script,
        store,
    })
}

/// What the run of the program of a source file on a machine begins with.
fn begun_of<'a, F: Files>(
    alloc: Global,
    files: &mut F,
    program: &'a str,
    machine: MachineWord<'a>,
    run: RunWords<'a>,
) -> Result<Begun, Stop<'a>>
    ensures comes { Comes IsBegun (files_seen F.held F.asked F.faults files.old) (files_seen F.held F.asked F.faults files.new)
        (sourced_course program.now (seen_machine machine.entry) (seen_run run.entry)) result }
    ensures memory { IfOk result (λ begun. IsMemoryOf begun.image.names begun.store) }
{
    let source = source_of(alloc, files, program)?;
    let spec = named_machine(alloc, files, machine)?;
    compiled_begin(alloc, files, &source, spec, run)
}

/// Runs the program of a source file on a machine.
pub(crate) fn go<'a, F: Files, O: Sink>(
    alloc: Global,
    program: &'a str,
    machine: MachineWord<'a>,
    run: RunWords<'a>,
    files: &mut F,
    out: &mut O,
) -> Result<u8, Stop<'a>>
    requires early { run.budget ≤ MOST_BUDGET }
    ensures { Concludes (files_seen F.held F.asked F.faults files.old) (files_seen F.held F.asked F.faults files.new)
        (sink_seen O.taken O.faults out.old) (sink_seen O.taken O.faults out.new)
        (go_course program.now (seen_machine machine.entry) (seen_run run.entry)) result }
{
    let begun = begun_of(alloc, files, program, machine, run)?;
    Ok(write_text(alloc, out, begun, run)?)
}
