// The tables of a schedule in the making, as tuples get their places.
ghost use Rattle.std.specs.Prelude.{◌≡◌, ℕ, ◌*◌, ◌<◌, ◌≤◌, [], List, Some, max, length, All, Contains, nat_eq, set, slice_index};
ghost use Rattle.std.specs.Prelude.{slice_index_or};
ghost use Rattle.std.specs.List.{list_any};
ghost use Rattle.list_schedule.specs.Steps.{never, Tells, starts_of, AreTicks, finish_of, ready_from, open_from, AreStarts, AreTables};

use crate::job::{Draft, Job, NEVER};
use bm_base::{MOST_TICKS, MOST_TUPLES};

/// A tuple's finish, none where it has no place.
fn finish(job: &Job<'_>, draft: &Draft, u: u8) -> Option<u32>
    requires place { u < length job.now.times.items }
    requires starts { AreStarts job.now.times.items (starts_of draft.now) }
    requires ticks { AreTicks draft.now.starts.items }
    ensures { Tells result (finish_of job.now.times.items (starts_of draft.now) u) }
{
    match draft.start(u) {
        Some(start) => Some(start + job.times[u as usize]),
        None => None,
    }
}

/// The later of two ticks, none where one of them is none.
fn later(a: Option<u32>, b: Option<u32>) -> Option<u32>
    ensures { (m n : ℕ) → Tells a m → Tells b n → Tells result (max m n) }
{
    match a {
        Some(x) => match b {
            Some(y) => Some(x.max(y)),
            None => None,
        },
        None => None,
    }
}

/// The tick from which on a tuple with these producers is ready, none where one has no place.
fn ready_at(job: &Job<'_>, draft: &Draft, producers: &[u8]) -> Option<u32>
    requires tuples { All (λ a. a < length job.now.times.items) producers.now }
    requires starts { AreStarts job.now.times.items (starts_of draft.now) }
    requires ticks { AreTicks draft.now.starts.items }
    ensures { Tells result (ready_from job.now.times.items (starts_of draft.now) producers.now) }
{
    let mut last = Some(0);
    for a in producers {
        last = later(last, finish(job, draft, *a));
    }
    last
}

/// The tick from which on tuple t may be placed, `NEVER` where it has a place already or a producer
/// has none.
fn opening(job: &Job<'_>, draft: &Draft, t: u8) -> u32
    requires place { t < length job.now.times.items }
    requires deps { length job.now.deps.now.producers ≡ length job.now.times.items }
    requires starts { AreStarts job.now.times.items (starts_of draft.now) }
    requires ticks { AreTicks draft.now.starts.items }
    ensures { result ≡ open_from job.now.times.items job.now.deps.now.producers (starts_of draft.now) t }
{
    match draft.start(t) {
        Some(_) => NEVER,
        None => match ready_at(job, draft, job.deps.producers(t)) {
            Some(tick) => tick,
            None => NEVER,
        },
    }
}

/// Tells of each tuple from which tick on it may be placed.
pub(crate) fn open_all(job: &Job<'_>, draft: &mut Draft)
    requires deps { length job.now.deps.now.producers ≡ length job.now.times.items }
    requires starts { AreStarts job.now.times.items (starts_of draft.old) }
    requires ticks { AreTicks draft.old.starts.items }
    requires opens { length draft.old.opens.items ≡ length job.now.times.items }
    ensures many { length draft.new.opens.items ≡ length job.now.times.items }
    ensures each { (u : ℕ) → u < length job.now.times.items
        → slice_index draft.new.opens.items u ≡ open_from job.now.times.items job.now.deps.now.producers (starts_of draft.new) u }
    ensures starts { draft.new.starts ≡ draft.old.starts }
    ensures places { draft.new.places ≡ draft.old.places }
    ensures idles { draft.new.idles ≡ draft.old.idles }
{
    for t in 0..job.times.len() as u8 {
        draft.opens[t as usize] = opening(job, draft, t);
    }
}

/// Whether tuple t is one of the producers.
fn has(producers: &[u8], t: u8) -> bool
    ensures { result ≡ list_any (nat_eq t) producers.now }
{
    producers.contains(&t)
}

/// Where tuple t has got its place, tells anew from which tick on the tuples may be placed of which
/// it is a producer.
fn reopen(job: &Job<'_>, draft: &mut Draft, t: u8)
    requires tuple { t < length job.now.times.items }
    requires deps { length job.now.deps.now.producers ≡ length job.now.times.items }
    requires starts { AreStarts job.now.times.items (starts_of draft.old) }
    requires ticks { AreTicks draft.old.starts.items }
    requires placed { slice_index (starts_of draft.old) t < never }
    requires earlier { (b a : ℕ) → b < length job.now.times.items → Contains (slice_index_or job.now.deps.now.producers b []) a → a < b }
    requires opens { length draft.old.opens.items ≡ length job.now.times.items }
    ensures many { length draft.new.opens.items ≡ length job.now.times.items }
    ensures each { (before : List ℕ) (z : ℕ) → starts_of draft.old ≡ set before t z
        → ((u : ℕ) → u < length job.now.times.items
        → slice_index draft.old.opens.items u ≡ open_from job.now.times.items job.now.deps.now.producers before u)
        → (u : ℕ) → u < length job.now.times.items
        → slice_index draft.new.opens.items u ≡ open_from job.now.times.items job.now.deps.now.producers (starts_of draft.new) u }
    ensures starts { draft.new.starts ≡ draft.old.starts }
    ensures places { draft.new.places ≡ draft.old.places }
    ensures idles { draft.new.idles ≡ draft.old.idles }
{
    draft.opens[t as usize] = NEVER;
    for b in t + 1..job.times.len() as u8 {
        if has(job.deps.producers(b), t) {
            draft.opens[b as usize] = opening(job, draft, b);
        }
    }
}

/// Gives tuple t, which has no place, a start and a processor.
pub(crate) fn put(job: &Job<'_>, draft: &mut Draft, t: u8, p: u8, tick: u32)
    requires tuple { t < length job.now.times.items }
    requires processor { p < job.now.processors }
    requires deps { length job.now.deps.now.producers ≡ length job.now.times.items }
    requires starts { AreStarts job.now.times.items (starts_of draft.old) }
    requires ticks { AreTicks draft.old.starts.items }
    requires places { length draft.old.places.items ≡ length job.now.times.items }
    requires free { slice_index (starts_of draft.old) t ≡ never }
    requires early { tick ≤ MOST_TUPLES * MOST_TICKS }
    requires earlier { (b a : ℕ) → b < length job.now.times.items → Contains (slice_index_or job.now.deps.now.producers b []) a → a < b }
    requires tables { AreTables job.now.processors job.now.times.items job.now.deps.now.producers draft.old }
    ensures starts { draft.new.starts.items ≡ set draft.old.starts.items t (Some tick) }
    ensures places { draft.new.places.items ≡ set draft.old.places.items t p }
    ensures tables { AreTables job.now.processors job.now.times.items job.now.deps.now.producers draft.new }
{
    draft.starts[t as usize] = Some(tick);
    draft.places[t as usize] = p;
    let idle = draft.idles[p as usize].max(tick + job.times[t as usize]);
    draft.idles[p as usize] = idle;
    reopen(job, draft, t);
}
