// The plan of a block.
ghost use Rattle.std.specs.Prelude.{◌≡◌, ◌+◌, ◌-◌, ◌*◌, ◌≤◌, IfOk, length};
ghost use Rattle.dependence.specs.Producers.{producers_of};
ghost use Rattle.time_interval.specs.Bounds.{pace_on};
ghost use Rattle.mask_merge.specs.Reduced.{IsIrreducible};
ghost use Rattle.compiled_image.specs.Planned.{IsPlanned, IsInOrder};

use crate::planned::Plan;
use barrier_insert::insert;
use bm_base::{MOST_TUPLES, Spec};
use dependence::conflicts;
use list_schedule::schedule;
use mask_merge::reduce;
use std::alloc::{AllocError, Global};
use tuple_ir::Block;

/// The plan of a block on a machine: its greedy schedule, the inserted line of the schedule and the
/// reduced line of that. The line cannot be reduced any more; each tuple stands in it once, and each
/// conflicting pair is ordered by processor, by barrier or by time. The schedule keeps Graham's bound
/// (R. L. Graham, Bounds on multiprocessing timing anomalies, SIAM J. Appl. Math. 17, 1969). It
/// fails only where memory runs out.
pub fn plan(alloc: Global, block: &Block, spec: &Spec) -> Result<Plan, AllocError>
    requires { length block.now.tuples ≤ MOST_TUPLES }
    ensures planned { IfOk result (λ p. IsPlanned spec.now block.now.tuples p) }
    ensures irreducible { IfOk result
        (λ p. IsIrreducible (pace_on spec.now block.now.tuples) (producers_of block.now.tuples) p.line.items) }
    ensures in_order { IfOk result (λ p. IsInOrder spec.now block.now.tuples p.line.items) }
    ensures bound { IfOk result (λ p. spec.now.processors * p.schedule.makespan ≤ p.schedule.work
        + (spec.now.processors - 1) * p.schedule.longest) }
{
    let deps = conflicts(alloc, block)?;
    let schedule = schedule(alloc, block, &deps, spec)?;
    let inserted = insert(alloc, block, &deps, &schedule, spec)?;
    let line = reduce(alloc, &inserted, block, &deps, spec)?;
    Ok(Plan {
        schedule,
        inserted,
        line,
    })
}
