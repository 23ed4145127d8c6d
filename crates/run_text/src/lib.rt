//! What runs, traces and evaluations write.
//!
//! `specs/RunUpTo.antt` says what a canonical run shows at clocks of at most a bound: `run` carries a machine that far. The
//! laws say that there is exactly one such answer. `specs/RunText.antt` has the text of a run, `specs/TraceText.antt` that
//! of a trace, a line for each event and then how the run stands: `write_run_on` and `write_trace_on` write them, line by
//! line, as the machine runs, on any unit with any timing; `write_run` and `write_trace` on a unit of a kind with the
//! durations of a script. `specs/EvalText.antt` has the text of an evaluation, which `write_evaluation` writes.
#![tactic(auto)]

mod ending;
mod eval_writing;
mod events;
mod kind;
mod kinds;
mod lines;
mod runs;
mod trace_writing;
mod writing;

ghost use Rattle.bm_base.specs.Memories.{IsMemoryOf};
ghost use Rattle.bm_base.specs.Memory.{Content, Word};
ghost use Rattle.bm_course.specs.Course.{Output};
ghost use Rattle.run_text.specs.Laws.{TextsAreOne, RunsHaveSomeText, BoundedRunsTellTheirEnd};
ghost use Rattle.run_text.specs.RunLaws.{RunsShowSomething, RunsShowOneThing, BeginningsShowAFront};
ghost use Rattle.run_text.specs.RunLaws.{EndedRunsShowTheirEnd, RunsThatGoOnHaveNotEnded};
ghost use Rattle.run_text.specs.RunText.{IsRunText, BoundedRunsEnd};
ghost use Rattle.run_text.specs.RunUpTo.{IsRunUpTo};
ghost use Rattle.run_text.specs.Runs.{HasCome};
ghost use Rattle.run_text.specs.Serial.{RunsMeanTheSerialOrder, SerialEndsAreTold};
ghost use Rattle.run_text.specs.TraceLaws.{TracesAreOne, RunsHaveSomeTrace, TracesPrintTheRun};
ghost use Rattle.run_text.specs.TraceLaws.{KindsHaveOneTrace, KindsHaveSomeTrace};
ghost use Rattle.run_text.specs.TraceLaws.{TracesMeanTheSerialOrder, SerialEndsAreTraced};
ghost use Rattle.run_text.specs.declared.kind.UnitKind.{UnitKind};
ghost use Rattle.std.specs.Prelude.{◌≡◌, ℕ, List, [], ◌∷◌, replicate, Some, None, pos};
ghost use Rattle.timing_script.specs.declared.script.Script.{Script};
ghost use Rattle.unit_law.specs.Canonical.{Durations};
ghost use Rattle.unit_law.specs.Fit.{AllFit, AllStand, HasTimes};
ghost use Rattle.unit_law.specs.State.{Program, start};
ghost use Rattle.unit_law.specs.Units.{Choice, static_choice};
ghost use Rattle.unit_law.specs.Worked.{worked, worked_memory, longest};

pub use ending::write_ending;
pub use eval_writing::write_evaluation;
pub use events::{Events, Prints};
pub use kind::UnitKind;
pub use kinds::write_trace;
pub use lines::EventLines;
pub use runs::{RunEnd, run, run_prints};
pub use trace_writing::write_trace_on;
use tuple_ir::more_blocks_only_add_output;
use unit_law::{canonical_runs_are_runs, choices_are_lawful, lawful_units_run};
pub use writing::{machine_before, write_run, write_run_on};

/// At clocks of at most a bound a canonical run shows one output and one end, if any: there is such
/// an answer where lines fit their blocks and the unit is lawful, and never a second. What a
/// beginning of the run prints by then is a prefix of that output. Where a beginning has ended by
/// then, they are its output and end, and where no end is shown, none has.
pub fn a_run_shows_one_thing()
    ensures some { RunsShowSomething }
    ensures one { RunsShowOneThing }
    ensures front { BeginningsShowAFront }
    ensures ended { EndedRunsShowTheirEnd }
    ensures going { RunsThatGoOnHaveNotEnded }
{}

/// Before its first action a canonical run has come to its start, and nothing was started.
pub fn a_run_begins()
    ensures { (choice : Choice) (durations : Durations) (m : Program) (memory : List Content)
        → HasCome choice durations m memory (start m memory) (replicate m.machine.processors 0) }
{}

/// The worked program of the machine, on the static unit with the greatest times, shows nothing at
/// clocks of at most 7, and has printed 1 and ended at clock 8.
pub fn worked_run_up_to_a_clock()
    ensures going { IsRunUpTo static_choice longest worked worked_memory 7 [] None }
    ensures ended { IsRunUpTo static_choice longest worked worked_memory 8 (pos 1
        ∷ []) (Some (record { clock = 8; memory = Word (pos 0) ∷ [] })) }
{}

/// A run on any unit, with any timing and from any memory, has at most one text. It has one where
/// lines fit their blocks, each tuple stands in its line, and times, timing, unit and memory are
/// lawful. Where no run from its memory passes a number of ticks, the text at this budget tells its
/// end.
pub fn runs_on_any_unit_have_one_text()
    ensures one { TextsAreOne }
    ensures some { RunsHaveSomeText }
    ensures bounded { BoundedRunsTellTheirEnd }
{
    a_run_shows_one_thing();
    lawful_units_run();
    canonical_runs_are_runs();
}

/// A run on a unit of a kind has at most one text.
pub fn runs_have_one_text()
    ensures { (m : Program) (kind : UnitKind) (script : Script) (memory : List Content) (budget : ℕ) (s t : Output)
        → IsRunText m kind script memory budget s → IsRunText m kind script memory budget t → s ≡ t }
{
    runs_on_any_unit_have_one_text();
}

/// A run on a unit of a kind has a text where lines fit their blocks, each tuple stands in its line, and the times
/// and the memory are lawful.
pub fn runs_have_some_text()
    ensures { (m : Program) (kind : UnitKind) (script : Script) (memory : List Content) (budget : ℕ) → AllFit m → AllStand m
        → HasTimes m → IsMemoryOf m.names memory → (text : Output) × IsRunText m kind script memory budget text }
{
    runs_on_any_unit_have_one_text();
    choices_are_lawful();
}

/// What the text of a run on a unit of a kind tells, the blocks' serial meaning has; and where that ends
/// within a budget, the text tells an end.
pub fn runs_mean_the_serial_order()
    ensures means { RunsMeanTheSerialOrder }
    ensures ends { SerialEndsAreTold }
{
    bounded_runs_end();
    choices_are_lawful();
    lawful_units_run();
    canonical_runs_are_runs();
    more_blocks_only_add_output();
}

/// Where no run from a memory passes a number of ticks, the text at this budget, and at
/// each greater one, tells the end of the run on a unit of each kind.
pub fn bounded_runs_end()
    ensures { BoundedRunsEnd }
{
    runs_on_any_unit_have_one_text();
    choices_are_lawful();
}

/// A run on any unit, with any timing and from any memory, has at most one trace. It has one where
/// lines fit their blocks, each tuple stands in its line, and times, timing, unit and memory are
/// lawful. The words that it prints, and its end, are those that the run shows.
pub fn runs_have_one_trace()
    ensures one { TracesAreOne }
    ensures some { RunsHaveSomeTrace }
    ensures prints { TracesPrintTheRun }
{
    a_run_shows_one_thing();
}

/// A run on a unit of a kind with the durations of a script has at most one trace, and has one where
/// lines fit their blocks, each tuple stands in its line, and times and memory are lawful.
pub fn kinds_have_one_trace()
    ensures one { KindsHaveOneTrace }
    ensures some { KindsHaveSomeTrace }
{
    runs_have_one_trace();
    choices_are_lawful();
}

/// What the trace of a run on a unit of a kind prints, and how it ends, the blocks' serial meaning has;
/// and where that ends within a budget, the trace tells an end.
pub fn traces_mean_the_serial_order()
    ensures means { TracesMeanTheSerialOrder }
    ensures ends { SerialEndsAreTraced }
{
    runs_have_one_trace();
    runs_mean_the_serial_order();
}
