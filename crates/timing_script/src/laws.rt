// What holds of all texts of scripts, and of all timings.
ghost use Rattle.timing_script.specs.Laws.{TextsHaveOneAnswer, ScriptsReachAllTimings};

/// Bytes are the text of one script, or they have one first line that is no row; not both.
pub fn script_texts_have_one_answer()
    ensures { TextsHaveOneAnswer }
{}

/// Every assignment of times within their intervals to the instructions of a finite run is what some
/// script's text gives them.
pub fn scripts_reach_all_timings()
    ensures { ScriptsReachAllTimings }
{}
