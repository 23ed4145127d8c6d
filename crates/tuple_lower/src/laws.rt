// Laws of lowered programs.
ghost use Rattle.tuple_lower.specs.Means.{BlocksEnd, BlocksKeepUp, BlocksKeepBack, BlocksKeepPace};
ghost use Rattle.tuple_lower.specs.Sound.{BlocksAreFew, LoweredAreSound, TuplesFit};

/// The serial meaning of the blocks of a program is what the program means, from every memory: they
/// end as the source ends, their output keeps up with the source's, and their output and their end
/// come from the source. Each has at most 128 tuples; operands and the cell of an `if` are earlier
/// tuples that give values, names are of the right kind, and each `goto` and `if` leads to a block.
pub fn lowered_blocks_mean_their_programs()
    ensures ends { BlocksEnd }
    ensures keeps_up { BlocksKeepUp }
    ensures keeps_back { BlocksKeepBack }
    ensures keeps_pace { BlocksKeepPace }
    ensures sound { LoweredAreSound }
{}

/// Where the numbers of a program are in range, each tuple of its blocks has the ranges of its type;
/// and there are at most four blocks a statement, and one.
pub fn lowered_tuples_fit()
    ensures tuples { TuplesFit }
    ensures blocks { BlocksAreFew }
{}
