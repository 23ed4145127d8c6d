// The loop that places the tuples of a block one by one.
ghost use Rattle.std.specs.Prelude.{◌≡◌, ℕ, ◌*◌, ◌<◌, ◌≤◌, length, replicate, slice_index};
ghost use Rattle.list_schedule.specs.Job.{IsJob, height};
ghost use Rattle.list_schedule.specs.Greedy.{IsGreedy};
ghost use Rattle.list_schedule.specs.Steps.{never, starts_of, AreTicks, job_with, plan_with};

use crate::job::{Draft, Job};
use crate::steps::{best_idle, first_open, some_idle_from, some_open_from};
use crate::tables::{open_all, put};
use bm_base::{MOST_TICKS, MOST_TUPLES};

/// Gives each tuple its start and its processor. While one has none, the clock goes on to the least
/// tick at which a processor is idle and a tuple is ready, and the first of the ready tuples is
/// placed on the best of the idle processors.
pub(crate) fn place_all(job: &Job<'_>, heights: &[u32], draft: &mut Draft)
    requires few { length job.now.times.items ≤ MOST_TUPLES }
    requires deps { length job.now.deps.now.producers ≡ length job.now.times.items }
    requires short { (u : ℕ) → slice_index job.now.times.items u ≤ MOST_TICKS }
    requires sound { IsJob (job_with job.now.processors job.now.times.items job.now.deps.now.producers) }
    requires heights { length heights.now ≡ length job.now.times.items }
    requires tall { (u : ℕ) → u < length job.now.times.items → slice_index heights.now u
        ≡ height (job_with job.now.processors job.now.times.items job.now.deps.now.producers) u }
    requires starts { length draft.old.starts.items ≡ length job.now.times.items }
    requires places { length draft.old.places.items ≡ length job.now.times.items }
    requires none { (u : ℕ) → u < length job.now.times.items → slice_index (starts_of draft.old) u ≡ never }
    requires ticks { AreTicks draft.old.starts.items }
    requires opens { length draft.old.opens.items ≡ length job.now.times.items }
    requires idles { draft.old.idles.items ≡ replicate job.now.processors 0 }
    ensures greedy { IsGreedy (job_with job.now.processors job.now.times.items job.now.deps.now.producers)
        (plan_with (starts_of draft.new) draft.new.places.items) }
    ensures early { (u : ℕ) → slice_index (starts_of draft.new) u ≤ MOST_TUPLES * MOST_TICKS }
{
    open_all(job, draft);
    let mut tick = 0u32;
    while let Some(open) = some_open_from(job, draft) {
        let idle = some_idle_from(job, draft);
        tick = tick.max(open.max(idle));
        let t = first_open(job, heights, draft, tick).index();
        let producers = job.deps.producers(t);
        let p = best_idle(job, draft, producers, tick).index();
        put(job, draft, t, p, tick);
    }
}
