// What is known of a schedule in the making: which processor is idle, which tuple is ready.
ghost use Rattle.std.specs.Prelude.{◌≡◌, true, ℕ, ◌+◌, ◌<◌, ◌≤◌, min, max, length, All, slice_index, count_by, nat_eq};
ghost use Rattle.list_schedule.specs.Steps.{never, Tells, starts_of, AreTicks, last_finish, open_from, AreTables, IsLeast, IsBest};
ghost use Rattle.list_schedule.specs.Steps.{is_found, index_of};

use crate::job::{Draft, Job, NEVER};
use bm_base::MOST_TUPLES;

/// The tick from which on processor p is idle.
fn idle_from(job: &Job<'_>, draft: &Draft, p: u8) -> u32
    requires processor { p < job.now.processors }
    requires tables { AreTables job.now.processors job.now.times.items job.now.deps.now.producers draft.now }
    ensures { result ≡ last_finish job.now.times.items (starts_of draft.now) draft.now.places.items p }
{
    draft.idles[p as usize]
}

/// The earlier of two ticks, of which each may be none.
fn earlier(a: Option<u32>, b: Option<u32>) -> Option<u32>
    ensures { (m n : ℕ) → Tells a m → Tells b n → Tells result (min m n) }
{
    match a {
        Some(x) => match b {
            Some(y) => Some(x.min(y)),
            None => Some(x),
        },
        None => b,
    }
}

/// The least tick from which on some processor is idle.
pub(crate) fn some_idle_from(job: &Job<'_>, draft: &Draft) -> u32
    requires some { 1 ≤ job.now.processors }
    requires tables { AreTables job.now.processors job.now.times.items job.now.deps.now.producers draft.now }
    ensures { IsLeast (last_finish job.now.times.items (starts_of draft.now) draft.now.places.items) job.now.processors result }
{
    let mut least = idle_from(job, draft, 0);
    for p in 1..job.processors {
        least = least.min(idle_from(job, draft, p));
    }
    least
}

/// The tick, none where it is `NEVER`.
fn told(tick: u32) -> Option<u32>
    ensures { Tells result tick }
{
    if tick < NEVER { Some(tick) } else { None }
}

/// The tick from which on tuple t may be placed, none where it has a place already or a producer
/// has none.
fn open_at(job: &Job<'_>, draft: &Draft, t: u8) -> Option<u32>
    requires tuple { t < length job.now.times.items }
    requires tables { AreTables job.now.processors job.now.times.items job.now.deps.now.producers draft.now }
    ensures { Tells result (open_from job.now.times.items job.now.deps.now.producers (starts_of draft.now) t) }
{
    told(draft.opens[t as usize])
}

/// The least tick from which on some tuple may be placed, none without one.
pub(crate) fn some_open_from(job: &Job<'_>, draft: &Draft) -> Option<u32>
    requires few { length job.now.times.items ≤ MOST_TUPLES }
    requires tables { AreTables job.now.processors job.now.times.items job.now.deps.now.producers draft.now }
    ensures { (least : ℕ) × Tells result least
        × IsLeast (open_from job.now.times.items job.now.deps.now.producers (starts_of draft.now)) (length job.now.times.items) least }
{
    let mut least = None;
    for t in 0..job.times.len() as u8 {
        least = earlier(least, open_at(job, draft, t));
    }
    least
}

/// The best of the numbers so far, with its score.
#[derive(Clone, Copy)]
pub(crate) enum Best {
    Nothing,
    At { index: u8, score: u32 },
}

impl Best {
    /// The number that is the best.
    pub(crate) fn index(self) -> u8
        requires { is_found self ≡ true }
        ensures { result ≡ index_of self }
    {
        match self {
            Best::At { index, .. } => index,
            Best::Nothing => unreachable!(),
        }
    }
}

/// The better of the best so far and number k, which counts from tick `late` on.
fn better(best: Best, k: u8, late: u32, tick: u32, score: u32) -> Best
    ensures { (lates scores : ℕ → ℕ) → lates k ≡ late → scores k ≡ score → IsBest lates scores tick k best
        → IsBest lates scores tick (k + 1) result }
{
    if tick < late {
        return best;
    }
    match best {
        Best::Nothing => Best::At { index: k, score },
        Best::At { score: most, .. } => {
            if most < score {
                Best::At { index: k, score }
            } else {
                best
            }
        }
    }
}

/// The better of the best so far and number k, which counts from tick `late` on, if at all.
fn better_if(best: Best, k: u8, late: Option<u32>, tick: u32, score: u32) -> Best
    requires { tick < never }
    ensures { (lates scores : ℕ → ℕ) → Tells late (lates k) → scores k ≡ score → IsBest lates scores tick k best
        → IsBest lates scores tick (k + 1) result }
{
    match late {
        Some(from) => better(best, k, from, tick, score),
        None => best,
    }
}

/// Of the tuples that may be placed at `tick` the one that is taken first.
pub(crate) fn first_open(job: &Job<'_>, heights: &[u32], draft: &Draft, tick: u32) -> Best
    requires tick { tick < never }
    requires few { length job.now.times.items ≤ MOST_TUPLES }
    requires heights { length heights.now ≡ length job.now.times.items }
    requires tables { AreTables job.now.processors job.now.times.items job.now.deps.now.producers draft.now }
    ensures { IsBest (open_from job.now.times.items job.now.deps.now.producers (starts_of draft.now)) (slice_index heights.now) tick
        (length job.now.times.items) result }
{
    let mut best = Best::Nothing;
    for t in 0..job.times.len() as u8 {
        best = better_if(best, t, open_at(job, draft, t), tick, heights[t as usize]);
    }
    best
}

/// How many of the producers have a place on processor p.
fn count(draft: &Draft, producers: &[u8], p: u8) -> u32
    requires tuples { All (λ a. a < length draft.now.places.items) producers.now }
    requires few { length producers.now < 256 }
    ensures { result ≡ count_by (λ a. nat_eq (slice_index draft.now.places.items a) p) producers.now }
{
    let mut count = 0;
    for a in producers {
        if draft.places[*a as usize] == p {
            count += 1;
        }
    }
    count
}

/// Of the processors that are idle at `tick` the one that has most of the producers.
pub(crate) fn best_idle(job: &Job<'_>, draft: &Draft, producers: &[u8], tick: u32) -> Best
    requires tables { AreTables job.now.processors job.now.times.items job.now.deps.now.producers draft.now }
    requires tuples { All (λ a. a < length draft.now.places.items) producers.now }
    requires few { length producers.now < 256 }
    ensures { IsBest (last_finish job.now.times.items (starts_of draft.now) draft.now.places.items)
        (λ p. count_by (λ a. nat_eq (slice_index draft.now.places.items a) p) producers.now) tick job.now.processors result }
{
    let mut best = Best::Nothing;
    for p in 0..job.processors {
        best = better(
            best,
            p,
            idle_from(job, draft, p),
            tick,
            count(draft, producers, p),
        );
    }
    best
}
