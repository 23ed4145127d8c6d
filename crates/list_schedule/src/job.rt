// What is to be scheduled, and a schedule in the making.
ghost use Rattle.std.specs.Prelude.{◌≡◌, ◌<◌, ◌≤◌, [], IfOk, length, map, replicate, slice_index, unwrap_or, None};
ghost use Rattle.list_schedule.specs.Steps.{never, Tells, starts_of, AreTicks};

use dependence::Deps;
use std::alloc::{AllocError, Global};

/// What is to be scheduled: how many processors, and by the tuples' numbers their times in ticks and
/// their producers.
#[derive(Drop)]
pub(crate) struct Job<'a> {
    pub(crate) processors: u8,
    pub(crate) times: Vec<u32>,
    pub(crate) deps: &'a Deps,
}

/// Stands for no tick.
pub(crate) const NEVER: u32 = 4_294_967_295;

/// A plan in the making: by the tuples' numbers when they start, in ticks, and on which processor.
/// A tuple that has no place yet has no start. Kept beside these are from which tick on each tuple
/// may be placed, `NEVER` where it has a place or a producer has none, and from which tick on each
/// processor is idle.
#[derive(Drop)]
pub(crate) struct Draft {
    pub(crate) starts: Vec<Option<u32>>,
    pub(crate) places: Vec<u8>,
    pub(crate) opens: Vec<u32>,
    pub(crate) idles: Vec<u32>,
}

impl Draft {
    /// So many tuples, of which none has a place yet, and all processors idle from the first tick
    /// on. From when on the tuples may be placed is not told yet.
    pub(crate) fn new(alloc: Global, tuples: usize, processors: u8) -> Result<Draft, AllocError>
        ensures starts { IfOk result (λ draft. draft.starts.items ≡ replicate tuples None) }
        ensures places { IfOk result (λ draft. length draft.places.items ≡ tuples) }
        ensures opens { IfOk result (λ draft. length draft.opens.items ≡ tuples) }
        ensures idles { IfOk result (λ draft. draft.idles.items ≡ replicate processors 0) }
    {
        let mut starts = Vec::new(alloc);
        for _tuple in 0..tuples {
            starts.push(None)?;
        }
        let places = vec![in alloc; 0u8; tuples]?;
        let opens = vec![in alloc; 0u32; tuples]?;
        let idles = vec![in alloc; 0u32; processors as usize]?;
        Ok(Draft {
            starts,
            places,
            opens,
            idles,
        })
    }

    /// When tuple u starts, if it has a place.
    pub(crate) fn start(&self, u: u8) -> Option<u32>
        requires place { u < length self.now.starts.items }
        requires ticks { AreTicks self.now.starts.items }
        ensures { Tells result (slice_index (starts_of self.now) u) }
    {
        self.starts[u as usize]
    }
}

/// The ticks at which tuples start that all have a place.
pub(crate) fn ticks(alloc: Global, starts: &[Option<u32>]) -> Result<Vec<u32>, AllocError>
    ensures { IfOk result (λ ticks. ticks.items ≡ map (λ start. unwrap_or start 0) starts.now) }
{
    let mut ticks = Vec::new(alloc);
    for start in starts {
        ticks.push(start.unwrap_or(0))?;
    }
    Ok(ticks)
}
