// Laws of the meaning.
ghost use Rattle.src_meaning.specs.Laws.{TurnsAddOutput, DoneStays, LoopsGoRound};

/// With one turn more the output of a program goes on where it ended; an outcome that is done stays
/// the same with more turns.
pub fn turns_only_add()
    ensures output { TurnsAddOutput }
    ensures done { DoneStays }
{}

/// A loop is done where its test is 0. Where the test is not 0, more is to come if no turn is left;
/// otherwise one turn is spent, the body runs, and then the same loop again.
pub fn loops_go_round()
    ensures { LoopsGoRound }
{}
