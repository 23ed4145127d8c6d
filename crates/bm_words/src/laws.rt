// A law of the command table.
ghost use Rattle.bm_words.specs.Ranges.{RequestsAreInRange};

/// The numbers of what words ask for are in their ranges: turns, budgets, and numbers of items.
pub fn requests_are_in_range()
    ensures { RequestsAreInRange }
{}
