//! The barrier machine: its states, its steps, its runs, and the law of barrier units.
//!
//! `docs/MACHINE.md` explains the machine; `specs/` has the definitions: `State`, `Steps` (steps and
//! runs), `Units` (ready and urgent masks, lawful answers, the choices of the two kinds of units),
//! `OnUnit` (runs on a unit), `Canonical` (the canonical run), `Execution` (this execution of a block
//! and the ticks of what happened in it), `Events` (what a run shows), `Fit` and `Sound` (what an
//! image keeps), `Determinate`, and `InOrder` (one run that keeps the order of conflicting tuples).
//! The functions have empty bodies: their contracts are the laws. `ordered_blocks_are_determinate`
//! is the main one. After O'Keefe and Dietz, ICPP 1990, in outline.
#![tactic(auto)]

mod unit;
mod worked;

ghost use Rattle.std.specs.Prelude.{◌≡◌, ℕ, ◌+◌, ◌≤◌, ◌++◌, ◌↔◌, Bool, true, IsTrue, List, ◌∷◌, length, Option, Some, None};
ghost use Rattle.bm_base.specs.Entry.{Entry};
ghost use Rattle.bm_base.specs.Mask.{has_bit};
ghost use Rattle.bm_base.specs.Memory.{Content};
ghost use Rattle.bm_base.specs.Memories.{IsMemoryOf};
ghost use Rattle.line_model.specs.Streams.{stream, masks};
ghost use Rattle.unit_law.specs.State.{Program, State, In, Ended, code_at, processor, waits, waiting_mask};
ghost use Rattle.unit_law.specs.Units.{Choice, IsReady, IsLawful, IsAwaited, IsReadyFirst, IsLeastReady, is_ready, has_unfired};
ghost use Rattle.unit_law.specs.Units.{static_choice, dynamic_choice};
ghost use Rattle.unit_law.specs.Steps.{Action, May, state_after, IsRun, IsStateRun, states_of};
ghost use Rattle.unit_law.specs.OnUnit.{IsRunOn, answer_at, answers_lawfully, AnswersWhereAsked, IsLawfulChoice, IsFront};
ghost use Rattle.unit_law.specs.Canonical.{Durations, IsTiming, next_to, next_action, canonical, IsCanonical};
ghost use Rattle.unit_law.specs.Execution.{execution, AllWithin, HasFinished, finish_tick};
ghost use Rattle.unit_law.specs.Inside.{Inside};
ghost use Rattle.unit_law.specs.Events.{event_of, is_silent};
ghost use Rattle.unit_law.specs.Fit.{AllEarly, AllFit, AllLead, AllStand, IsSynced, HasTimes, NoneEmpty};
ghost use Rattle.unit_law.specs.Sound.{IsSound};
ghost use Rattle.unit_law.specs.Determinate.{RespectsConflicts, NeverStuck, IsDeterminate, block_steps};
ghost use Rattle.unit_law.specs.InOrder.{KeepsOrder, MeansSerialOrder};

pub use unit::BarrierUnit;
pub use worked::{
    another_lawful_run, delayed_runs, worked_events, worked_is_determinate, worked_runs,
    worked_streams,
};

/// A run by its actions is a run by its states: a list of states from the start, each the next by a
/// step. Each such list has its actions.
pub fn runs_are_states()
    ensures states { (m : Program) (memory : List Content) (past : List Action) → IsRun m memory past
        → IsStateRun m memory (states_of m memory past) }
    ensures actions { (m : Program) (memory : List Content) (states : List State) → IsStateRun m memory states → (past : List Action)
        × IsRun m memory past × (states_of m memory past ≡ states) }
{}

/// The choices of both kinds of units are lawful wherever they are asked for; the dynamic unit's is
/// so at every state. On the static unit the fired masks are always a prefix of the queue. An answer
/// is lawful at a state where it is lawful by the mask of those that wait.
pub fn choices_are_lawful()
    ensures static_unit { (m : Program) → IsLawfulChoice static_choice m }
    ensures prefix { (m : Program) (memory : List Content) (past : List Action) → IsRunOn static_choice m memory past
        → IsFront (state_after m memory past).fired }
    ensures dynamic_unit { (m : Program) → IsLawfulChoice dynamic_choice m }
    ensures dynamic_anywhere { (m : Program) (s : State) → answers_lawfully dynamic_choice m s s.mode }
    ensures by_mask { (choice : Choice) (m : Program) (s : State) (b : ℕ)
        → IsLawful (masks (code_at m b).line) s.fired (has_bit (waiting_mask (code_at m b) s)) (answer_at choice m b s)
        → answers_lawfully choice m s (In b) }
{}

/// The tests of masks and the choices of both kinds of units are what their words say. A mask is
/// ready exactly where the test says so. The static unit picks exactly the ready mask before which
/// all have fired, the dynamic unit exactly the least ready mask, and each picks none exactly where
/// there is no such mask. A processor is awaited by a mask that has not fired exactly where the test
/// says so.
pub fn choices_are_as_told()
    ensures ready { (masks : List ℕ) (fired : List Bool) (waiting j : ℕ) → IsTrue (is_ready masks fired waiting j)
        ↔ IsReady masks fired (has_bit waiting) j }
    ensures static_picks { (masks : List ℕ) (fired : List Bool) (waiting j : ℕ) → (static_choice masks fired waiting ≡ Some j)
        ↔ IsReadyFirst masks fired waiting j }
    ensures static_none { (masks : List ℕ) (fired : List Bool) (waiting : ℕ) → (static_choice masks fired waiting ≡ None)
        ↔ ((j : ℕ) → IsReadyFirst masks fired waiting j → ⊥) }
    ensures dynamic_picks { (masks : List ℕ) (fired : List Bool) (waiting j : ℕ) → (dynamic_choice masks fired waiting ≡ Some j)
        ↔ IsLeastReady masks fired waiting j }
    ensures dynamic_none { (masks : List ℕ) (fired : List Bool) (waiting : ℕ) → (dynamic_choice masks fired waiting ≡ None)
        ↔ ((j : ℕ) → IsReady masks fired (has_bit waiting) j → ⊥) }
    ensures unfired { (masks : List ℕ) (fired : List Bool) (p : ℕ) → IsTrue (has_unfired masks fired p) ↔ IsAwaited masks fired p }
{}

/// Each run on a lawful unit from a memory of the names is a run of the machine, so what is proved
/// of every such run holds on every lawful unit.
pub fn lawful_units_run()
    ensures { (choice : Choice) (m : Program) → IsLawfulChoice choice m → (memory : List Content) (past : List Action)
        → IsMemoryOf m.names memory → IsRunOn choice m memory past → IsRun m memory past }
{}

/// The canonical run on a unit with a timing is a run on that unit, however many of its actions are
/// taken. On a unit that answers lawfully where it is asked, what it takes next may be taken, and
/// there is such an action until the run's end.
pub fn canonical_runs_are_runs()
    ensures on_unit { (choice : Choice) (durations : Durations) (m : Program) → AllFit m → HasTimes m → IsTiming durations
        → (memory : List Content) (past : List Action) → IsCanonical choice durations m memory past → IsRunOn choice m memory past }
    ensures begins { (choice : Choice) (durations : Durations) (m : Program) (memory : List Content) (n : ℕ)
        → IsCanonical choice durations m memory (canonical choice durations m memory n) }
    ensures may { (choice : Choice) (durations : Durations) (m : Program) → AllFit m → HasTimes m → IsTiming durations
        → (past : List Action) (s : State) → length s.processors ≡ m.machine.processors → AnswersWhereAsked choice m s → (a : Action)
        → next_to choice durations m s.mode past s ≡ Some a → May m s a }
    ensures ends { (choice : Choice) (durations : Durations) (m : Program) → AllFit m → HasTimes m → IsTiming durations
        → (memory : List Content) (past : List Action) → IsMemoryOf m.names memory → IsRun m memory past
        → AnswersWhereAsked choice m (state_after m memory past) → next_action choice durations m memory past ≡ None
        → (state_after m memory past).mode ≡ Ended }
{}

/// A run from a memory of these names stays at one: each variable holds a word, each array a list of
/// its length. So does any row of actions.
pub fn runs_keep_memories()
    ensures { (names : List Entry) (m : Program) (memory : List Content) (past : List Action) → IsMemoryOf names memory
        → IsMemoryOf names (state_after m memory past).world.memory }
{}

/// In every run there are as many processors as the machine has, and within a block each processor
/// that waits is a member of a mask that has not fired. The mask of those that wait has their bits.
pub fn waiting_processors_have_masks()
    ensures processors { (m : Program) (memory : List Content) (past : List Action) → length (state_after m memory past).processors
        ≡ m.machine.processors }
    ensures waiting { (m : Program) (b p : ℕ) (s : State) → has_bit (waiting_mask (code_at m b) s) p ≡ waits (code_at m b) s p }
    ensures masks { (m : Program) → AllFit m → (memory : List Content) (past : List Action) → IsRun m memory past → (b p : ℕ)
        → (state_after m memory past).mode ≡ In b → waits (code_at m b) (state_after m memory past) p ≡ true
        → has_unfired (masks (code_at m b).line) (state_after m memory past).fired p ≡ true }
{}

/// What holds of every state within a block: a mask has fired exactly where each of its members has
/// passed its wait for it; a busy processor works on the item before its place, and its tick is not
/// past; and the tuples that a processor has behind it have finished in this execution.
pub fn states_within_blocks_agree()
    ensures { (m : Program) → AllFit m → (memory : List Content) (past : List Action) → IsRun m memory past → (b : ℕ)
        → (state_after m memory past).mode ≡ In b → Inside m (code_at m b) (HasFinished m memory past) (state_after m memory past) }
{}

/// However a run goes on, its clock only rises. Within a block no processor's place is past the end
/// of its stream; and the steps of the block's execution, with the one that enters it and the one that
/// leaves it, are at most `block_steps`, whatever the times, the order of steps and the unit's
/// answers: no run stays in a block forever.
pub fn runs_go_forward()
    ensures clock { (m : Program) → AllFit m → (memory : List Content) (later past : List Action) → IsRun m memory (later ++ past)
        → (state_after m memory past).clock ≤ (state_after m memory (later ++ past)).clock }
    ensures places { (m : Program) → AllFit m → (memory : List Content) (past : List Action) → IsRun m memory past → (b : ℕ)
        → (state_after m memory past).mode ≡ In b → (p : ℕ)
        → (processor (state_after m memory past) p).place ≤ length (stream p (code_at m b).line) }
    ensures steps { (m : Program) → AllFit m → AllStand m → (memory : List Content) (past : List Action) → IsRun m memory past → (b : ℕ)
        → (state_after m memory past).mode ≡ In b → length (execution m memory past) + 2 ≤ block_steps m b }
{}

/// Within a block, the steps of its execution are those that a run has taken in it since its entry;
/// and a tuple has finished in it exactly where it has a tick of its Finish.
pub fn executions_are_of_a_block()
    ensures within { (m : Program) (memory : List Content) (past : List Action) → IsRun m memory past → (b : ℕ)
        → (state_after m memory past).mode ≡ In b → AllWithin m b (execution m memory past) }
    ensures finished { (m : Program) (memory : List Content) (past : List Action) (t : ℕ) → HasFinished m memory past t
        ↔ ((tick : ℕ) × (finish_tick m memory past t ≡ Some tick)) }
{}

/// Each action of a run shows an event, but an Advance and a Branch that leads on to a block.
pub fn actions_show_events()
    ensures { (m : Program) → AllFit m → (memory : List Content) (past : List Action) (a : Action) → IsRun m memory (a ∷ past)
        → (event_of m (state_after m memory past) a ≡ None) ↔ IsTrue (is_silent m (state_after m memory past).mode a) }
{}

/// Where each conflicting pair is ordered by processor or by barrier, each producer has finished, in
/// this execution of its block, before its consumer starts: in every run.
pub fn order_is_kept()
    ensures { (m : Program) → AllFit m → IsSynced m → RespectsConflicts m }
{}

/// No run is stuck before its end: a due Finish may be taken, and where none is due there is a step
/// whatever lawful answer the unit gives.
pub fn runs_can_step()
    ensures { (m : Program) → AllFit m → HasTimes m → NeverStuck m }
{}

/// A run in which each producer finishes before its consumer starts, however that is known, means
/// the serial order. Its output at clock T is a prefix of that of T + 1 blocks, and where it has
/// ended these have ended with the same memory and output. With K the ticks and Q the steps of one
/// pass over all blocks, and no block more than c times in the trail of k blocks: from clock c * K
/// on the output of k blocks is a prefix of the run's; and where k blocks have ended, the run has at
/// most c * K ticks and c * Q steps.
pub fn runs_in_order_mean_the_serial_order()
    ensures { (m : Program) → AllFit m → AllEarly m → AllStand m → AllLead m → (memory : List Content) (past : List Action)
        → IsRun m memory past → KeepsOrder m memory past → MeansSerialOrder m memory past }
{}

/// What the laws ask of a program beside order and times, a sound program keeps.
pub fn sound_programs_fit()
    ensures fit { (m : Program) → IsSound m → AllFit m }
    ensures early { (m : Program) → IsSound m → AllEarly m }
    ensures stand { (m : Program) → IsSound m → AllStand m }
    ensures lead { (m : Program) → IsSound m → AllLead m }
    ensures none_empty { (m : Program) → IsSound m → NoneEmpty m }
{}

/// Blocks whose conflicting pairs are ordered are determinate: every run means the serial order,
/// whatever the times within their intervals, the order of simultaneous steps and the lawful answers
/// of the unit. That producers finish before their consumers start may be known in any way
/// (`by_order`); the order by processor or by barrier is one (`synced`). A sound program keeps all
/// else that is asked but the times (`sound`).
pub fn ordered_blocks_are_determinate()
    ensures by_order { (m : Program) → AllFit m → HasTimes m → AllEarly m → AllStand m → AllLead m → RespectsConflicts m → IsDeterminate m }
    ensures synced { (m : Program) → AllFit m → HasTimes m → AllEarly m → AllStand m → AllLead m → IsSynced m → IsDeterminate m }
    ensures sound { (m : Program) → IsSound m → HasTimes m → RespectsConflicts m → IsDeterminate m }
{}
