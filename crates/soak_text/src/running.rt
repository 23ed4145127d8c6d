// The runs of the image.
ghost use Rattle.std.specs.Prelude.{◌≡◌, ◌≤◌, ℕ, IfOk, IfErr, IsOk, List, length};
ghost use Rattle.bm_base.specs.Memories.{IsMemoryOf};
ghost use Rattle.bm_base.specs.Memory.{Content, initial};
ghost use Rattle.bm_io.specs.FoldValues.{with_value, NeverLeaves};
ghost use Rattle.bm_io.specs.declared.sinks.SinkFault.TheVariants.{Memory};
ghost use Rattle.line_model.specs.Streams.{masks};
ghost use Rattle.timing_script.specs.Script.{script_duration};
ghost use Rattle.unit_law.specs.State.{code_at};
ghost use Rattle.bm_machine.specs.Next.{Stays};
ghost use Rattle.run_text.specs.Runs.{RunsTo};
ghost use Rattle.run_text.specs.Begins.{Begins};
ghost use Rattle.run_text.specs.RunText.{choice_of};
ghost use Rattle.soak_text.specs.Lines.{budget};
ghost use Rattle.soak_text.specs.Soak.{script_of};
ghost use Rattle.soak_text.specs.Parts.{HasRan};

use crate::Pace;
use crate::folding::Folding;
use bm_base::Store;
use bm_io::{FoldValues, SinkFault};
use bm_machine::Machine;
use dbm_unit::Dbm;
use run_text::{Prints, RunEnd, UnitKind, machine_before, run_prints};
use sbm_unit::Sbm;
use std::alloc::Global;
use stream_image::Image;
use timing_law::Timing;
use timing_script::Script;
use unit_law::BarrierUnit;

/// How many ticks each run has.
pub(crate) const BUDGET: u64 = 1_000_000_000;

/// How a run stands after its ticks, and what it has printed by then.
#[derive(Clone, Copy, Debug, PartialEq, Eq)]
pub(crate) struct Ran {
    /// The clock at which it has ended, if it has.
    pub(crate) end: Option<u64>,
    /// What it has printed.
    pub(crate) prints: FoldValues,
}

/// Carries a machine to its run's end or to its budget, and folds what it prints.
fn carry<U: BarrierUnit, T: Timing>(
    machine: &mut Machine<'_, U, T>,
    prints: &mut FoldValues,
) -> Result<RunEnd, SinkFault>
    ensures runs { RunsTo U.choice T.duration machine.old machine.new budget with_value NeverLeaves prints.old prints.new result }
    ensures sure { IsOk result }
{
    let values = Folding::new(prints);
    let mut prints = Prints::new(values);
    run_prints(machine, BUDGET, &mut prints)
}

/// What is kept of the run of a machine from its beginning. It never fails.
fn fold_run<U: BarrierUnit, T: Timing>(machine: &mut Machine<'_, U, T>) -> Result<Ran, SinkFault>
    ensures value { IfOk result (λ ran. (memory : List Content)
        → Begins (U.choice machine.old.unit) (T.duration machine.old.timing) machine.old.program memory machine.old.state machine.old.counts
        → HasRan (U.choice machine.old.unit) (T.duration machine.old.timing) machine.old.program memory ran) }
    ensures sure { IsOk result }
{
    let mut prints = FoldValues { count: 0, fold: 0 };
    match carry(machine, &mut prints)? {
        RunEnd::Ended => Ok(Ran {
            end: Some(machine.clock()),
            prints,
        }),
        RunEnd::Going => Ok(Ran { end: None, prints }),
    }
}

/// What is kept of the run of a program on this unit with this timing. It fails only where memory
/// runs out.
fn run_on<U: BarrierUnit, T: Timing>(
    alloc: Global,
    image: &Image,
    unit: U,
    timing: T,
) -> Result<Ran, SinkFault>
    requires room { (b : ℕ) → length (masks (code_at image.now b).line) ≤ U.capacity unit }
    ensures value { IfOk result (λ ran. HasRan (U.choice unit) (T.duration timing) image.now (initial image.now.names) ran) }
    ensures starved { IfErr result (λ fault. fault ≡ Memory) }
{
    let store = Store::new(alloc, image.names())?;
    let mut machine = machine_before(alloc, image, store, unit, timing)?;
    fold_run(&mut machine)
}

/// The script of a pace.
fn script(seed: u64, pace: Pace) -> Script
    ensures { result ≡ script_of seed pace }
{
    match pace {
        Pace::Least => Script::Least,
        Pace::Most => Script::Most,
        Pace::Seeded => Script::Seed { n: seed },
    }
}

/// The run of an image on a unit of this kind at this pace. It fails only where memory runs out.
pub(crate) fn run_image(
    alloc: Global,
    image: &Image,
    seed: u64,
    kind: UnitKind,
    pace: Pace,
) -> Result<Ran, SinkFault>
    ensures value { IfOk result (λ ran. HasRan (choice_of kind) (script_duration (script_of seed pace)) image.now
        (initial image.now.names) ran) }
    ensures starved { IfErr result (λ fault. fault ≡ Memory) }
{
    let script = script(seed, pace);
    match kind {
        UnitKind::Static => {
            let unit = Sbm::new(alloc, image.most_masks())?;
            run_on(alloc, image, unit, script)
        }
        UnitKind::Dynamic => {
            let unit = Dbm::new(alloc, image.most_masks())?;
            run_on(alloc, image, unit, script)
        }
    }
}
