// Greatest times and heights.
ghost use Rattle.std.specs.Prelude.{◌≡◌, ℕ, ◌<◌, ◌≤◌, ◌*◌, [], IfOk, length, map, filter, nat_eq, slice_index, slice_index_or};
ghost use Rattle.std.specs.List.{range_with_len, list_any};
ghost use Rattle.bm_base.specs.Spec.{time_of};
ghost use Rattle.tuple_ir.specs.Kinds.{class_of};
ghost use Rattle.list_schedule.specs.Job.{IsJob, AreTimes, greatest, height};

use crate::job::Job;
use bm_base::{MOST_TICKS, MOST_TUPLES, Spec};
use dependence::Deps;
use std::alloc::{AllocError, Global};
use tuple_ir::{Tuple, class};

/// The greatest time of each tuple, in ticks.
pub(crate) fn greatest_times(
    alloc: Global,
    tuples: &[Tuple],
    spec: &Spec,
) -> Result<Vec<u32>, AllocError>
    ensures value { IfOk result (λ times. times.items ≡ map (λ t. (time_of spec.now (class_of t)).most) tuples.now) }
    ensures range { IfOk result (λ times. AreTimes times.items) }
{
    let mut times = Vec::new(alloc);
    for tuple in tuples {
        times.push(spec.time(class(*tuple)).most as u32)?;
    }
    Ok(times)
}

/// The greatest of the numbers that stand at the consumers of tuple t, 0 without one.
fn above(deps: &Deps, heights: &[u32], t: u8) -> u32
    requires few { length heights.now ≤ MOST_TUPLES }
    requires same { length deps.now.producers ≡ length heights.now }
    ensures { result ≡ greatest
        (map (slice_index heights.now)
        (filter (λ b. list_any (nat_eq t) (slice_index_or deps.now.producers b [])) (range_with_len 0 (length heights.now)))) }
{
    let mut most = 0u32;
    for b in 0..heights.len() as u8 {
        if deps.producers(b).contains(&t) {
            most = most.max(heights[b as usize]);
        }
    }
    most
}

/// The height of each tuple, in ticks.
pub(crate) fn heights(alloc: Global, job: &Job<'_>) -> Result<Vec<u32>, AllocError>
    requires few { length job.now.times.items ≤ MOST_TUPLES }
    requires same { length job.now.deps.now.producers ≡ length job.now.times.items }
    requires short { (t : ℕ) → slice_index job.now.times.items t ≤ MOST_TICKS }
    requires sound { (p : ℕ) → 1 ≤ p
        → IsJob (record { processors = p; times = job.now.times.items; producers = job.now.deps.now.producers }) }
    ensures { IfOk result (λ heights. (p : ℕ) → 1 ≤ p → heights.items
        ≡ map (height (record {
          processors = p;
          times = job.now.times.items;
          producers = job.now.deps.now.producers;
        })) (range_with_len 0 (length job.now.times.items))) }
{
    let mut heights = vec![in alloc; 0u32; job.times.len()]?;
    for t in (0..job.times.len() as u8).rev() {
        heights[t as usize] = job.times[t as usize] + above(job.deps, &heights, t);
    }
    Ok(heights)
}
