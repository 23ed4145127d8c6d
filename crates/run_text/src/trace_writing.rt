// The trace of a run, as the machine runs.
ghost use Rattle.std.specs.Prelude.{◌≡◌, ◌≤◌, ℕ, length};
ghost use Rattle.bm_base.specs.Memories.{IsMemoryOf};
ghost use Rattle.bm_io.specs.declared.sinks.SinkFault.TheVariants.{Failed};
ghost use Rattle.bm_io.specs.Causes.{HasCause};
ghost use Rattle.line_model.specs.Streams.{masks};
ghost use Rattle.unit_law.specs.State.{code_at};
ghost use Rattle.unit_law.specs.OnUnit.{IsLawfulChoice};
ghost use Rattle.bm_machine.specs.Next.{Stays};
ghost use Rattle.run_text.specs.Runs.{TellsTo};
ghost use Rattle.bm_course.specs.Course.{Output};
ghost use Rattle.bm_course.specs.Sends.{Sends};
ghost use Rattle.run_text.specs.TraceText.{IsTraceOf};
ghost use Rattle.run_text.specs.EventLines.{with_event_line, LeavesEvent};
ghost use Rattle.run_text.specs.TraceBegins.{SendsTrace};

use crate::{EventLines, RunEnd, run, runs_have_one_trace, write_ending};
use bm_base::{MOST_BUDGET, Names, Store};
use bm_io::{Sink, SinkFault};
use bm_machine::Machine;
use std::alloc::Global;
use stream_image::Image;
use timing_law::Timing;
use unit_law::BarrierUnit;

/// Writes a line for each event of a machine's run at clocks of at most the budget.
fn write_events<U: BarrierUnit, T: Timing, O: Sink>(
    out: &mut O,
    machine: &mut Machine<'_, U, T>,
    budget: u64,
) -> Result<RunEnd, SinkFault>
    requires early { budget ≤ MOST_BUDGET }
    ensures stays { Stays U.choice machine.old machine.new }
    ensures tells { TellsTo U.choice T.duration machine.old machine.new budget with_event_line LeavesEvent
        (O.taken out.old) (O.taken out.new) result }
    ensures cause { HasCause Failed (O.faults out.old) (O.faults out.new) result }
{
    let mut lines = EventLines::new(out);
    run(machine, budget, &mut lines)
}

/// Writes what a machine's run tells at clocks of at most the budget, from its beginning.
fn show<U: BarrierUnit, T: Timing, O: Sink>(
    out: &mut O,
    machine: &mut Machine<'_, U, T>,
    names: &Names,
    budget: u64,
) -> Result<u8, SinkFault>
    requires early { budget ≤ MOST_BUDGET }
    requires names { names.now ≡ machine.old.program.names }
    ensures sent { SendsTrace U.choice T.duration machine.old budget (O.taken out.old) (O.taken out.new) result }
    ensures cause { HasCause Failed (O.faults out.old) (O.faults out.new) result }
{
    // Only for its contract.
    runs_have_one_trace();
    let end = write_events(out, machine, budget)?;
    write_ending(out, machine, names, budget, end)
}

/// Writes the trace of the run of a program from this memory, on this unit with this timing, at clocks
/// of at most `budget` ticks.
///
/// It answers 0 where the run has ended, and 8 where it is still going. The unit has room for the
/// masks of each block. Where there is no memory for the machine nothing is written; after a fault of
/// the sink nothing more is.
pub fn write_trace_on<U: BarrierUnit, T: Timing, O: Sink>(
    alloc: Global,
    out: &mut O,
    image: &Image,
    store: Store,
    unit: U,
    timing: T,
    budget: u64,
) -> Result<u8, SinkFault>
    requires early { budget ≤ MOST_BUDGET }
    requires memory { IsMemoryOf image.now.names store }
    requires room { (b : ℕ) → length (masks (code_at image.now b).line) ≤ U.capacity unit }
    requires lawful { IsLawfulChoice (U.choice unit) image.now }
    ensures sent { (text : Output) × IsTraceOf (U.choice unit) (T.duration timing) image.now store budget text
        × Sends (O.taken out.old) (O.taken out.new) text result }
    ensures cause { HasCause Failed (O.faults out.old) (O.faults out.new) result }
{
    // Only for their contracts.
    let _blocks = image.blocks();
    runs_have_one_trace();
    let mut machine = Machine::new(alloc, image, store, unit, timing)?;
    show(out, &mut machine, image.names(), budget)
}
