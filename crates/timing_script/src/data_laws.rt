// What holds of all bytes, as data.
ghost use Rattle.timing_script.specs.DataLaws.{DataHasOneAnswer};

/// Bytes give lawful names one memory, which is one of these names, or they have one first fault; not
/// both.
pub fn data_has_one_answer()
    ensures { DataHasOneAnswer }
{}
