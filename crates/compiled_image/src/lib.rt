//! What a program is compiled to: the plan of each block, its image on a machine, and the summary.
//!
//! `specs/Planned.antt` says what the plan of a block is, in the words of the schedule, of insertion and of
//! reduction; `specs/PlanLaws.antt` what follows: for each block and machine there is one, its line
//! cannot be reduced, and each conflicting pair is ordered in it. Programs whose blocks keep that
//! are determinate on every lawful unit.
//!
//! `specs/Faithful.antt` says what it is that each run of a compiled program means the source's
//! meaning, `specs/Compiled.antt` which image it is: the lowered blocks, each with the streams and the
//! masks of its plan's reduced line. `specs/Reasons.antt` and `specs/Summarised.antt` say what is
//! counted of it, `specs/Laws.antt` what follows: there is exactly one image and one summary.
#![tactic(auto)]

mod compiling;
mod counting;
mod fronts;
mod laws;
mod pairs;
mod plan_laws;
mod planned;
mod planning;

pub use compiling::{Compiled, compile};
pub use laws::{
    images_have_ranges, images_run_their_plans, programs_have_images, programs_have_summaries,
};
pub use plan_laws::{laws_of_plans, planned_programs_are_determinate};
pub use planned::Plan;
pub use planning::plan;
