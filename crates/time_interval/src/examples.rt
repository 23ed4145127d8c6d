// The definitions computed on a small line.
ghost use Rattle.std.specs.Prelude.{◌≡◌};
ghost use Rattle.time_interval.specs.Bounds.{lo_of, up_of};
ghost use Rattle.time_interval.specs.declared.reference.Reference.TheVariants as since;
ghost use Rattle.time_interval.specs.declared.reference.Point.TheVariants.{StartOf, FinishOf, FireOf};
ghost use Rattle.time_interval.specs.Examples.{divided, divided_merged, divided_pace, delayed_pace, queued, queued_pace, queued_delayed};

/// Tuple 6 finishes by 5 and tuple 8 starts at 5 at the earliest; merging the two barriers makes the
/// first 14. A delay of two ticks makes them 7 and 16, and leaves the second.
pub fn bounds_examples()
    ensures finish { up_of divided_pace divided since.Start (FinishOf 6) ≡ Some 5 }
    ensures start { lo_of divided_pace divided since.Start (StartOf 8) ≡ Some 5 }
    ensures merged { up_of divided_pace divided_merged since.Start (FinishOf 6) ≡ Some 14 }
    ensures fire { up_of divided_pace divided since.Start (FireOf 1) ≡ Some 13 }
    ensures unknown { lo_of divided_pace divided (since.Bar 0) (StartOf 7) ≡ None }
    ensures member { up_of divided_pace divided (since.Bar 0) (FinishOf 6) ≡ Some 1 }
    ensures itself { up_of divided_pace divided (since.Bar 1) (FireOf 1) ≡ Some 0 }
    ensures delayed { up_of delayed_pace divided since.Start (FinishOf 6) ≡ Some 7 }
    ensures delayed_start { lo_of delayed_pace divided since.Start (StartOf 8) ≡ Some 5 }
    ensures delayed_merged { up_of delayed_pace divided_merged since.Start (FinishOf 6) ≡ Some 16 }
    ensures delayed_member { up_of delayed_pace divided (since.Bar 0) (FinishOf 6) ≡ Some 3 }
{}

/// A mask waits in the queue for the one before it, though they share no member: tuple 1 finishes by
/// 5, and by 7 with a delay of two ticks. A tuple on a processor without barriers starts at 1.
pub fn queue_examples()
    ensures finish { up_of queued_pace queued since.Start (FinishOf 1) ≡ Some 5 }
    ensures start { lo_of queued_pace queued since.Start (StartOf 3) ≡ Some 1 }
    ensures delayed { up_of queued_delayed queued since.Start (FinishOf 1) ≡ Some 7 }
    ensures delayed_start { lo_of queued_delayed queued since.Start (StartOf 3) ≡ Some 1 }
{}
