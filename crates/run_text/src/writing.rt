// The text of a run, as the machine runs.
ghost use Rattle.std.specs.Prelude.{◌≡◌, ◌≤◌, ℕ, IfOk, length};
ghost use Rattle.bm_base.specs.Memories.{IsMemoryOf};
ghost use Rattle.bm_io.specs.declared.sinks.SinkFault.TheVariants.{Failed};
ghost use Rattle.bm_io.specs.Causes.{HasCause};
ghost use Rattle.bm_io.specs.LineValues.{with_line, LeavesPrefix};
ghost use Rattle.line_model.specs.Streams.{masks};
ghost use Rattle.unit_law.specs.State.{code_at};
ghost use Rattle.unit_law.specs.OnUnit.{IsLawfulChoice};
ghost use Rattle.bm_machine.specs.Next.{Stays};
ghost use Rattle.run_text.specs.Runs.{RunsTo, GivesOn};
ghost use Rattle.bm_course.specs.Course.{Output};
ghost use Rattle.bm_course.specs.Sends.{Sends};
ghost use Rattle.run_text.specs.RunText.{IsTextOf, IsRunText};
ghost use Rattle.run_text.specs.Begins.{Begins, SendsText};

use crate::{
    Prints, RunEnd, UnitKind, a_run_begins, run_prints, runs_have_some_text,
    runs_on_any_unit_have_one_text, write_ending,
};
use bm_base::{MOST_BUDGET, Names, Store};
use bm_io::{LineValues, Sink, SinkFault};
use bm_machine::Machine;
use dbm_unit::Dbm;
use sbm_unit::Sbm;
use std::alloc::{AllocError, Global};
use stream_image::Image;
use timing_law::Timing;
use timing_script::Script;
use unit_law::{BarrierUnit, choices_are_lawful};

/// A machine before the first event of the run of a program from this memory, on this unit with this
/// timing. The unit has room for the masks of each block.
///
/// # Errors
///
/// `AllocError` where there is no memory for the machine.
pub fn machine_before<'a, U: BarrierUnit, T: Timing>(
    alloc: Global,
    image: &'a Image,
    store: Store,
    unit: U,
    timing: T,
) -> Result<Machine<'a, U, T>, AllocError>
    requires memory { IsMemoryOf image.now.names store }
    requires room { (b : ℕ) → length (masks (code_at image.now b).line) ≤ U.capacity unit }
    ensures program { IfOk result (λ machine. machine.program ≡ image.now) }
    ensures choice { IfOk result (λ machine. U.choice machine.unit ≡ U.choice unit) }
    ensures timing { IfOk result (λ machine. machine.timing ≡ timing) }
    ensures begins { IfOk result (λ machine. Begins (U.choice unit) (T.duration timing) image.now store machine.state machine.counts) }
{
    // Only for its contract.
    a_run_begins();
    Machine::new(alloc, image, store, unit, timing)
}

/// Writes a line for each print of a machine's run at clocks of at most the budget.
fn write_prints<U: BarrierUnit, T: Timing, O: Sink>(
    out: &mut O,
    machine: &mut Machine<'_, U, T>,
    budget: u64,
) -> Result<RunEnd, SinkFault>
    requires early { budget ≤ MOST_BUDGET }
    ensures stays { Stays U.choice machine.old machine.new }
    ensures runs { RunsTo U.choice T.duration machine.old machine.new budget with_line LeavesPrefix (O.taken out.old)
        (O.taken out.new) result }
    ensures took { GivesOn U.choice T.duration machine.old budget with_line LeavesPrefix (O.taken out.old) (O.taken out.new) result }
    ensures cause { HasCause Failed (O.faults out.old) (O.faults out.new) result }
{
    let values = LineValues::new(out);
    let mut prints = Prints::new(values);
    run_prints(machine, budget, &mut prints)
}

/// Writes what a machine's run shows at clocks of at most the budget, from its beginning.
fn show<U: BarrierUnit, T: Timing, O: Sink>(
    out: &mut O,
    machine: &mut Machine<'_, U, T>,
    names: &Names,
    budget: u64,
) -> Result<u8, SinkFault>
    requires early { budget ≤ MOST_BUDGET }
    requires names { names.now ≡ machine.old.program.names }
    ensures sent { SendsText U.choice T.duration machine.old budget (O.taken out.old) (O.taken out.new) result }
    ensures cause { HasCause Failed (O.faults out.old) (O.faults out.new) result }
{
    // Only for its contract.
    runs_on_any_unit_have_one_text();
    let end = write_prints(out, machine, budget)?;
    write_ending(out, machine, names, budget, end)
}

/// Writes the text of the run of a program from this memory, on this unit with this timing, at clocks
/// of at most `budget` ticks.
///
/// It answers 0 where the run has ended, and 8 where it is still going. The unit has room for the
/// masks of each block. Where there is no memory for the machine nothing is written; after a fault of
/// the sink nothing more is.
pub fn write_run_on<U: BarrierUnit, T: Timing, O: Sink>(
    alloc: Global,
    out: &mut O,
    image: &Image,
    store: Store,
    unit: U,
    timing: T,
    budget: u64,
) -> Result<u8, SinkFault>
    requires early { budget ≤ MOST_BUDGET }
    requires memory { IsMemoryOf image.now.names store }
    requires room { (b : ℕ) → length (masks (code_at image.now b).line) ≤ U.capacity unit }
    requires lawful { IsLawfulChoice (U.choice unit) image.now }
    ensures sent { (text : Output) × IsTextOf (U.choice unit) (T.duration timing) image.now store budget text
        × Sends (O.taken out.old) (O.taken out.new) text result }
    ensures cause { HasCause Failed (O.faults out.old) (O.faults out.new) result }
{
    // Only for their contracts.
    let _blocks = image.blocks();
    runs_on_any_unit_have_one_text();
    let mut machine = machine_before(alloc, image, store, unit, timing)?;
    show(out, &mut machine, image.names(), budget)
}

/// Writes the text of the run of a program from this memory, on a unit of this kind, with the durations of
/// a script, at clocks of at most `budget` ticks, as `write_run_on` does.
pub fn write_run<O: Sink>(
    alloc: Global,
    out: &mut O,
    image: &Image,
    store: Store,
    kind: UnitKind,
    script: Script,
    budget: u64,
) -> Result<u8, SinkFault>
    requires early { budget ≤ MOST_BUDGET }
    requires memory { IsMemoryOf image.now.names store }
    ensures sent { (text : Output) × IsRunText image.now kind script store budget text
        × Sends (O.taken out.old) (O.taken out.new) text result }
    ensures cause { HasCause Failed (O.faults out.old) (O.faults out.new) result }
{
    // Only for their contracts.
    let _blocks = image.blocks();
    choices_are_lawful();
    runs_have_some_text();
    match kind {
        UnitKind::Static => {
            let unit = Sbm::new(alloc, image.most_masks())?;
            write_run_on(alloc, out, image, store, unit, script, budget)
        }
        UnitKind::Dynamic => {
            let unit = Dbm::new(alloc, image.most_masks())?;
            write_run_on(alloc, out, image, store, unit, script, budget)
        }
    }
}
