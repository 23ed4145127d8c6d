// What a plan has.
use line_model::Line;
use list_schedule::Schedule;

/// What the compiler makes of a block on a machine.
#[derive(Drop)]
pub struct Plan {
    /// When and on which processor each tuple runs if all take their greatest times.
    pub schedule: Schedule,
    /// The line of the schedule, with a barrier before each tuple that needs one.
    pub inserted: Line,
    /// That line without the barriers that it can do without: the one that runs.
    pub line: Line,
}
