// The command `eval`: reads a source and data, and writes the evaluation.
ghost use Rattle.std.specs.Prelude.{◌≡◌, IfOk};
ghost use Rattle.bm_base.specs.Memories.{IsMemoryOf};
ghost use Rattle.bm_words.specs.Seen.{seen_data};
ghost use Rattle.bm_course.specs.Seen.{files_seen, sink_seen};
ghost use Rattle.bm_course.specs.Ends.{Comes, Concludes};
ghost use Rattle.bmimd_top.specs.Evaluating.{ready_course, IsReady};
ghost use Rattle.bmimd_top.specs.Command.{eval_course};

use bm_base::Store;
use bm_course::Stop;
use bm_inputs::{given_memory, source_of};
use bm_io::{Files, Sink};
use bm_words::DataWord;
use run_text::write_evaluation;
use src_names::Resolved;
use std::alloc::Global;

/// A program, and the memory that its evaluation begins with.
#[derive(Drop)]
pub(crate) struct Ready {
    program: Resolved,
    store: Store,
}

/// The program of a source file, and the memory that a word gives its names.
fn ready_source<'a, F: Files>(
    alloc: Global,
    files: &mut F,
    name: &'a str,
    given: DataWord<'a>,
) -> Result<Ready, Stop<'a>>
    ensures comes { Comes IsReady (files_seen F.held F.asked F.faults files.old) (files_seen F.held F.asked F.faults files.new)
        (ready_course name.now (seen_data given.entry)) result }
    ensures memory { IfOk result (λ ready. IsMemoryOf ready.program.names ready.store) }
{
    let program = source_of(alloc, files, name)?;
    let store = given_memory(alloc, files, program.names(), given)?;
    Ok(Ready { program, store })
}

/// Evaluates the source of a file.
pub(crate) fn evaluate<'a, F: Files, O: Sink>(
    alloc: Global,
    name: &'a str,
    given: DataWord<'a>,
    turns: u64,
    files: &mut F,
    out: &mut O,
) -> Result<u8, Stop<'a>>
    ensures { Concludes (files_seen F.held F.asked F.faults files.old) (files_seen F.held F.asked F.faults files.new)
        (sink_seen O.taken O.faults out.old) (sink_seen O.taken O.faults out.new)
        (eval_course name.now (seen_data given.entry) turns) result }
{
    let ready = ready_source(alloc, files, name, given)?;
    let Ready { program, store } = ready;
    Ok(write_evaluation(out, &program, store, turns)?)
}
