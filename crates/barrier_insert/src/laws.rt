// What follows of inserted lines.
ghost use Rattle.barrier_insert.specs.Laws.{TheOrderIsByStart, TheInsertedLineIsOne, EachBlockHasAnInsertedLine};
ghost use Rattle.barrier_insert.specs.Laws.{InsertedLinesAreOrdered, InsertedLinesAreWhole};

/// Tuples are put by start, then by number. A block with a greedy schedule has exactly one inserted line. Each conflicting pair is ordered
/// in it; each tuple of the block stands once; it has at most as many barriers as tuples, none of
/// them empty, with processors of the machine as members.
pub fn laws_of_insertion()
    ensures order { TheOrderIsByStart }
    ensures one { TheInsertedLineIsOne }
    ensures some { EachBlockHasAnInsertedLine }
    ensures ordered { InsertedLinesAreOrdered }
    ensures whole { InsertedLinesAreWhole }
{}
