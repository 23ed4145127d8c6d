// What follows of plans.
ghost use Rattle.compiled_image.specs.PlanLaws.{BlocksHaveOnePlan, PlansAreIrreducible, PlansAreInOrder, LinesInOrderAreSound};
ghost use Rattle.compiled_image.specs.PlanLaws.{ProgramsInOrderAreDeterminate};

/// A block has exactly one plan on a machine. Its line cannot be reduced, and is in order: each tuple
/// stands in it once, and each conflicting pair is ordered by processor, by barrier or by time.
pub fn laws_of_plans()
    ensures one { BlocksHaveOnePlan }
    ensures irreducible { PlansAreIrreducible }
    ensures in_order { PlansAreInOrder }
{}

/// A program each of whose blocks has a line in order, as that of its plan is, is sound where its
/// blocks are, and determinate: on every lawful unit, whatever the times within their intervals and
/// the order of simultaneous steps, each producer finishes before its consumer starts, no run is
/// stuck, and memory and output are those of the serial order.
pub fn planned_programs_are_determinate()
    ensures sound { LinesInOrderAreSound }
    ensures determinate { ProgramsInOrderAreDeterminate }
{}
