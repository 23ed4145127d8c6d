// Why the conflicting pairs of a block are in order, counted.
ghost use Rattle.std.specs.Prelude.{◌≡◌, ℕ, ◌+◌, ◌*◌, ◌<◌, ◌≤◌, List, [], ◌∷◌, ◌++◌, All, IfOk, length, map};
ghost use Rattle.time_interval.specs.declared.reference.Reason.{Reason};
ghost use Rattle.time_interval.specs.Bounds.{Pace, pace_on};
ghost use Rattle.time_interval.specs.Ordered.{IsOrdered};
ghost use Rattle.line_model.specs.declared.line.Item.{Item};
ghost use Rattle.compiled_image.specs.Planned.{IsInOrder};
ghost use Rattle.compiled_image.specs.Fronts.{IsFrontOf, IsKind};
ghost use Rattle.compiled_image.specs.Reasons.{Pair, pair, pairs_of};
ghost use Rattle.compiled_image.specs.Counts.{tally_of, AreUpTo, IsTallyOf};

use crate::fronts::fronts_in;
use bm_base::{MOST_TUPLES, Spec};
use dependence::conflicts;
use line_model::Line;
use std::alloc::{AllocError, Global};
use time_interval::seen::has;
use tuple_ir::Block;

/// How many conflicting pairs of a block there are, and how many of them are in order for each reason.
#[derive(Clone, Copy, PartialEq, Eq)]
pub(crate) struct Tally {
    pub(crate) pairs: u32,
    pub(crate) processor: u32,
    pub(crate) barrier: u32,
    pub(crate) time: u32,
}

impl Tally {
    /// No pairs.
    fn none() -> Tally
        ensures { result ≡ tally_of [] }
    {
        Tally {
            pairs: 0,
            processor: 0,
            barrier: 0,
            time: 0,
        }
    }

    /// One pair more: whether the earlier tuple stands in front of the later one on its processor, and
    /// whether its processor has seen it there.
    fn add(&mut self, on: bool, seen: bool)
        requires room { AreUpTo 4294967294 self.old }
        ensures more { (reasons : List Reason) (reason : Reason) → IsKind on seen reason → self.old ≡ tally_of reasons → self.new
            ≡ tally_of (reasons ++ reason ∷ []) }
        ensures few { (n : ℕ) → AreUpTo n self.old → AreUpTo (n + 1) self.new }
    {
        self.pairs += 1;
        if on {
            self.processor += 1;
        } else if seen {
            self.barrier += 1;
        } else {
            self.time += 1;
        }
    }
}

/// Counts the pairs of tuple b with its producers, by the sets of what stands in front of it. A producer
/// that is in neither of them is ordered before it by time.
fn add_row(tally: &mut Tally, on: u128, seen: u128, producers: &[u8], b: u8)
    requires tuple { b < MOST_TUPLES }
    requires below { All (λ a. a < MOST_TUPLES) producers.now }
    requires few { length producers.now ≤ MOST_TUPLES }
    requires room { AreUpTo (MOST_TUPLES * b) tally.old }
    ensures tally { (pace : Pace) (line : List Item) (pairs : List Pair) → IsFrontOf pace.processors line b on seen
        → All (λ a. IsOrdered pace line a b) producers.now
        → IsTallyOf pace line pairs tally.old → IsTallyOf pace line (pairs ++ map (pair b) producers.now) tally.new }
    ensures room { AreUpTo (MOST_TUPLES * (b + 1)) tally.new }
{
    for a in producers {
        tally.add(has(on, *a), has(seen, *a));
    }
}

/// The counts of the conflicting pairs of a block by the reasons why they are in order in its line.
/// It fails only where memory runs out.
pub(crate) fn count_pairs(
    alloc: Global,
    block: &Block,
    line: &Line,
    spec: &Spec,
) -> Result<Tally, AllocError>
    requires few { length block.now.tuples ≤ MOST_TUPLES }
    requires in_order { IsInOrder spec.now block.now.tuples line.now.items }
    ensures { IfOk result (λ t. IsTallyOf (pace_on spec.now block.now.tuples) line.now.items (pairs_of block.now.tuples) t) }
{
    let deps = conflicts(alloc, block)?;
    let fronts = fronts_in(spec.processors(), line.items.items());
    let mut tally = Tally::none();
    for b in 0..deps.len() as u8 {
        let (on, seen) = (fronts.on[b as usize], fronts.seen[b as usize]);
        add_row(&mut tally, on, seen, deps.producers(b), b);
    }
    Ok(tally)
}
