//! What is ordered by time happens in order: the bounds along lines hold of every run.
//!
//! `specs/Happened.antt` tells from the steps of the execution of a block alone when each point of the
//! block has happened; `specs/Ticks.antt` says how these ticks hang together and what they say of the
//! state, `specs/Bounded.antt` what it is that bounds hold, and `specs/Conflicts.antt` what it is that
//! each conflicting pair is in order, times taken into account. The functions have empty bodies: their
//! contracts are the laws. Each run on a lawful unit is a run, so they hold on every lawful unit.
#![tactic(auto)]

ghost use Rattle.std.specs.Prelude.{◌≡◌, ℕ, ◌<◌, Contains, Some, length, reverse};
ghost use Rattle.tuple_ir.specs.Sound.{IsBlockSound};
ghost use Rattle.line_model.specs.Order.{IsOrderedBySync};
ghost use Rattle.unit_law.specs.State.{Code, Program, code_at};
ghost use Rattle.unit_law.specs.Units.{static_choice};
ghost use Rattle.unit_law.specs.Steps.{IsRun};
ghost use Rattle.unit_law.specs.Canonical.{canonical};
ghost use Rattle.unit_law.specs.Fit.{HasTimes};
ghost use Rattle.unit_law.specs.Sound.{IsCodeSound, IsSound, block_of};
ghost use Rattle.unit_law.specs.Determinate.{RespectsConflicts, IsDeterminate};
ghost use Rattle.unit_law.specs.Worked.{worked_memory};
ghost use Rattle.time_interval.specs.declared.reference.Reference.TheVariants as since;
ghost use Rattle.time_interval.specs.declared.reference.Point.TheVariants.{StartOf, FinishOf};
ghost use Rattle.time_interval.specs.Bounds.{lo_of, up_of};
ghost use Rattle.time_interval.specs.Lines.{IsLine, tuples};
ghost use Rattle.time_law.specs.Conflicts.{ConflictsOrdered, pace_of};
ghost use Rattle.time_law.specs.Happened.{ticks_after};
ghost use Rattle.time_law.specs.Ticks.{TellsTicks};
ghost use Rattle.time_law.specs.Bounded.{KeepsBounds, KeepsEnds};
ghost use Rattle.time_law.specs.Worked.{timed, timed_line, closest, closest_run};

/// A sound block with a line that bounds can be made of, and in which each of its tuples stands, is
/// sound with this line.
pub fn lines_are_sound()
    ensures { (m : Program) (code : Code) → IsBlockSound m.names (length m.blocks) (block_of code)
        → IsLine (length code.tuples) m.machine.processors code.line → ((t : ℕ) → t < length code.tuples → Contains (tuples code.line) t)
        → IsCodeSound m code }
{}

/// What has started, what has finished, what has fired, and when, told by the execution alone.
///
/// At each state within a block: a tuple starts when its processor comes to it, and finishes its
/// duration later, which is within its interval; a mask fires when the last of its members comes to
/// it or when the mask before it fires, unless that one fires later, and its members go on the delay
/// behind it. A free processor at a tuple came to it now; a busy tick is not past; a hold ends the
/// delay behind the firing of the mask that its processor passed last; and of an urgent mask's
/// arrivals and the firing of the mask before it the latest is now.
pub fn executions_tell_their_ticks()
    ensures { (m : Program) → IsSound m → TellsTicks m }
{}

/// The bounds are sound, whatever the times within their intervals, the order of simultaneous steps
/// and the lawful answers of the unit. At each state within a block, since the block's entry and since
/// each Bar that has fired: no point of the line has happened before its least bound or after its
/// greatest one, and the greatest bound of a point that has not happened is not past. Neither the
/// order of conflicting tuples nor a least time is a premise.
pub fn bounds_are_sound()
    ensures { (m : Program) → IsSound m → KeepsBounds m }
{}

/// The bounds behind a whole line are sound too: since the block's entry and since each Bar that has
/// fired, each processor comes to the end of its stream within what is known there.
pub fn ends_are_within_bounds()
    ensures { (m : Program) → IsSound m → KeepsEnds m }
{}

/// Where each conflicting pair of a sound program is ordered by processor, by barrier or by time, each
/// producer has finished, in this execution of its block, before its consumer starts: in every run.
pub fn order_by_time_is_kept()
    ensures { (m : Program) → IsSound m → HasTimes m → ConflictsOrdered m → RespectsConflicts m }
{}

/// So such programs are determinate: on every lawful unit, whatever the times within their intervals
/// and the order of simultaneous steps, producers finish before their consumers start, no run is
/// stuck, and output, memory, time and number of steps are bound to the serial order.
pub fn blocks_in_order_are_determinate()
    ensures { (m : Program) → IsSound m → HasTimes m → ConflictsOrdered m → IsDeterminate m }
{}

/// The worked program meets all that the laws ask, and is determinate, though no barrier stands
/// between a producer and its consumer on another processor: since the block's start the one finishes
/// at 6 at the latest, and the other starts at 7 at the earliest. In the run in which processor 0
/// takes its greatest times and processor 1 its least ones, they do so at these ticks: the gap is one
/// tick.
pub fn a_pair_in_order_by_time_alone()
    ensures sound { IsSound timed }
    ensures times { HasTimes timed }
    ensures ordered { ConflictsOrdered timed }
    ensures determinate { IsDeterminate timed }
    ensures not_synced { IsOrderedBySync timed_line 0 3 → ⊥ }
    ensures latest { up_of (pace_of timed (code_at timed 0)) timed_line since.Start (FinishOf 0) ≡ Some 6 }
    ensures earliest { lo_of (pace_of timed (code_at timed 0)) timed_line since.Start (StartOf 3) ≡ Some 7 }
    ensures steps { reverse (canonical static_choice closest timed worked_memory 12) ≡ closest_run }
    ensures run { IsRun timed worked_memory (reverse closest_run) }
    ensures finish { (ticks_after timed worked_memory (reverse closest_run) 0).at (FinishOf 0) ≡ Some 6 }
    ensures start { (ticks_after timed worked_memory (reverse closest_run) 0).at (StartOf 3) ≡ Some 7 }
{}
