// The definitions computed on a worked program.
ghost use Rattle.std.specs.Prelude.{◌≡◌, ◌∷◌, [], reverse, length, pos};
ghost use Rattle.bm_base.specs.Memory.{Word};
ghost use Rattle.line_model.specs.Streams.{stream, masks};
ghost use Rattle.line_model.specs.declared.line.StreamItem.TheVariants.{Do, Wait};
ghost use Rattle.unit_law.specs.State.{Program, Ended};
ghost use Rattle.unit_law.specs.Units.{static_choice, dynamic_choice};
ghost use Rattle.unit_law.specs.Steps.{state_after, IsRun};
ghost use Rattle.unit_law.specs.Canonical.{canonical};
ghost use Rattle.unit_law.specs.Events.{events_of};
ghost use Rattle.unit_law.specs.OnUnit.{IsRunOn, IsLawfulChoice};
ghost use Rattle.unit_law.specs.Determinate.{IsDeterminate};
ghost use Rattle.unit_law.specs.Worked.{worked_line, worked, worked_memory, longest, dynamic_run, static_run, delayed, delayed_run};
ghost use Rattle.unit_law.specs.Worked.{delayed_events, late_choice, late_run};

/// What the worked line gives each processor, and its queue.
pub fn worked_streams()
    ensures first { stream 0 worked_line ≡ Do 0 ∷ Wait ∷ [] }
    ensures second { stream 1 worked_line ≡ Wait ∷ Do 2 ∷ [] }
    ensures third { stream 2 worked_line ≡ Do 1 ∷ Wait ∷ Do 3 ∷ Do 5 ∷ [] }
    ensures fourth { stream 3 worked_line ≡ Wait ∷ Do 4 ∷ [] }
    ensures queue { masks worked_line ≡ 3 ∷ 12 ∷ [] }
{}

/// All steps of the canonical runs of the worked program on both kinds of units, with the greatest
/// times: it prints 1 and ends at tick 5 on the dynamic unit and at tick 8 on the static one.
pub fn worked_runs()
    ensures dynamic_steps { reverse (canonical dynamic_choice longest worked worked_memory 19) ≡ dynamic_run }
    ensures dynamic_clock { (state_after worked worked_memory (reverse dynamic_run)).clock ≡ 5 }
    ensures dynamic_end { (state_after worked worked_memory (reverse dynamic_run)).mode ≡ Ended }
    ensures dynamic_output { (state_after worked worked_memory (reverse dynamic_run)).world.output ≡ pos 1 ∷ [] }
    ensures dynamic_memory { (state_after worked worked_memory (reverse dynamic_run)).world.memory ≡ Word (pos 0) ∷ [] }
    ensures static_steps { reverse (canonical static_choice longest worked worked_memory 20) ≡ static_run }
    ensures static_clock { (state_after worked worked_memory (reverse static_run)).clock ≡ 8 }
    ensures static_end { (state_after worked worked_memory (reverse static_run)).mode ≡ Ended }
    ensures static_output { (state_after worked worked_memory (reverse static_run)).world.output ≡ pos 1 ∷ [] }
    ensures static_memory { (state_after worked worked_memory (reverse static_run)).world.memory ≡ Word (pos 0) ∷ [] }
{}

/// The canonical run of the worked program on the dynamic unit where a mask's members resume two
/// ticks after it fires: it ends at tick 7. On the static unit it ends at tick 10.
pub fn delayed_runs()
    ensures dynamic_steps { reverse (canonical dynamic_choice longest delayed worked_memory 20) ≡ delayed_run }
    ensures dynamic_clock { (state_after delayed worked_memory (reverse delayed_run)).clock ≡ 7 }
    ensures dynamic_end { (state_after delayed worked_memory (reverse delayed_run)).mode ≡ Ended }
    ensures static_clock { (state_after delayed worked_memory (canonical static_choice longest delayed worked_memory 22)).clock ≡ 10 }
    ensures static_end { (state_after delayed worked_memory (canonical static_choice longest delayed worked_memory 22)).mode ≡ Ended }
{}

/// What that run shows on the dynamic unit.
pub fn worked_events()
    ensures { events_of delayed worked_memory (reverse delayed_run) ≡ delayed_events }
{}

/// A lawful run of the worked program that neither kind of unit takes: a third unit picks none while
/// no mask is urgent, and then the last ready mask.
pub fn another_lawful_run()
    ensures unit_is_lawful { (m : Program) → IsLawfulChoice late_choice m }
    ensures steps { reverse (canonical late_choice longest worked worked_memory 20) ≡ late_run }
    ensures run { IsRun worked worked_memory (reverse late_run) }
    ensures ends { (state_after worked worked_memory (reverse late_run)).mode ≡ Ended }
    ensures not_static { IsRunOn static_choice worked worked_memory (reverse late_run) → ⊥ }
    ensures not_dynamic { IsRunOn dynamic_choice worked worked_memory (reverse late_run) → ⊥ }
{}

/// The worked program is determinate: it keeps all that the law asks of a program, and so each of
/// its runs prints what its tuples print in number order.
pub fn worked_is_determinate()
    ensures { IsDeterminate worked }
{}
