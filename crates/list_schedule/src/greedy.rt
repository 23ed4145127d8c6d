// The greedy schedule of a block.
ghost use Rattle.std.specs.Prelude.{IfOk};
ghost use Rattle.dependence.specs.Found.{AreDepsOf};
ghost use Rattle.list_schedule.specs.Schedule.{IsScheduleOf};

use crate::finished::Schedule;
use crate::heights::{greatest_times, heights};
use crate::job::{Draft, Job, ticks};
use crate::place::place_all;
use crate::totals::{greatest_of, last_of, sum_of};
use bm_base::{MOST_TUPLES, Spec};
use dependence::Deps;
use std::alloc::{AllocError, Global};
use tuple_ir::Block;

/// The greedy schedule of a block with these conflicts, where each tuple takes its greatest time.
/// The bound is Graham's (R. L. Graham, Bounds on multiprocessing timing anomalies, SIAM J. Appl.
/// Math. 17, 1969). It fails only where memory runs out.
pub fn schedule(
    alloc: Global,
    block: &Block,
    deps: &Deps,
    spec: &Spec,
) -> Result<Schedule, AllocError>
    requires { AreDepsOf deps.now block.now.tuples }
    ensures { IfOk result (λ s. IsScheduleOf spec.now block.now.tuples s) }
{
    // Conflicts are those of at most 128 tuples.
    prove!(deps.len() <= MOST_TUPLES);
    let times = greatest_times(alloc, block.tuples.items(), spec)?;
    let job = Job {
        processors: spec.processors(),
        times,
        deps,
    };
    let heights = heights(alloc, &job)?;
    let mut draft = Draft::new(alloc, job.times.len(), job.processors)?;
    place_all(&job, &heights, &mut draft);
    let starts = ticks(alloc, &draft.starts)?;
    let makespan = last_of(&job.times, &starts);
    let work = sum_of(&job.times);
    let longest = greatest_of(&heights);
    Ok(Schedule {
        starts,
        places: draft.places,
        makespan,
        work,
        longest,
    })
}
