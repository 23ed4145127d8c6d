// What follows of reduced lines.
ghost use Rattle.mask_merge.specs.Laws.{TheReducedLineIsOne, EachLineHasAReducedLine, ReducedLinesAreIrreducible, ReductionKeepsOrder};
ghost use Rattle.mask_merge.specs.Laws.{EachTurnLeavesOneBarFewer, ReductionKeepsTuples, ReductionKeepsLines};

/// A line has exactly one reduced line, which is irreducible. Conflicting pairs that are ordered stay
/// so. Each turn leaves one barrier fewer; the line and each processor's stream keep their tuples in
/// order; and bounds can still be made of the line.
pub fn laws_of_reduction()
    ensures one { TheReducedLineIsOne }
    ensures some { EachLineHasAReducedLine }
    ensures irreducible { ReducedLinesAreIrreducible }
    ensures ordered { ReductionKeepsOrder }
    ensures fewer { EachTurnLeavesOneBarFewer }
    ensures tuples { ReductionKeepsTuples }
    ensures lines { ReductionKeepsLines }
{}
