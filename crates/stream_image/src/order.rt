// Whether the conflicting pairs of a block are in order in a line.
ghost use Rattle.std.specs.Prelude.{◌≡◌, ◌<◌, ◌≤◌, ℕ, true, false, All, Contains, Decides, IfOk, length};
ghost use Rattle.std.specs.List.Sorted.{IsStrictlyIncreasing};
ghost use Rattle.dependence.specs.Found.{AreDepsOf};
ghost use Rattle.line_model.specs.Order.{IsOrderedByProcessor};
ghost use Rattle.time_interval.specs.Lines.{IsLine};
ghost use Rattle.time_interval.specs.Lines as lines;
ghost use Rattle.stream_image.specs.Order.{IsSo, IsRight, TellsFirst, TellsPair};
ghost use Rattle.stream_image.specs.Refused.{TellsOrder};
ghost use Rattle.stream_image.specs.Sorted.{AreLined, line_on};

use crate::fault::ImageFault;
use crate::given::Stream;
use crate::image::machine_is_lawful;
use crate::line::line_of;
use crate::sorted::all_ordered;
use bm_base::{MOST_PROCESSORS, MOST_TUPLES, Mask, Spec};
use dependence::{Deps, conflicts};
use line_model::{Item, Line};
use std::alloc::{AllocError, Global};
use time_interval::seen::stands_on;
use time_interval::{Bounds, run_of};
use tuple_ir::{Block, Tuple};

/// What is wrong with a pair of tuples, of which the first is to come first.
#[derive(Clone, Copy, Debug, PartialEq, Eq)]
pub enum Wrong {
    /// One processor has both, the second before the first.
    Turned,
    /// The first is not ordered before the second.
    Loose,
}

/// Two tuples of a block that conflict.
#[derive(Clone, Copy, Debug, PartialEq, Eq)]
pub(crate) struct Pair {
    pub(crate) a: u8,
    pub(crate) b: u8,
}

/// Whether one processor has both tuples, and g stands before i.
fn stands_first(items: &[Item], g: u8, i: u8) -> bool
    requires line { IsLine MOST_TUPLES MOST_PROCESSORS items.now }
    requires stands { Contains (lines.tuples items.now) i }
    ensures { Decides result (IsOrderedByProcessor items.now g i) }
{
    let (front, p) = run_of(items, i);
    stands_on(front, p, g)
}

/// Whether this is wrong with tuples a and b.
fn is_so(wrong: Wrong, bounds: &Bounds, a: u8, b: u8) -> bool
    requires line { IsLine MOST_TUPLES MOST_PROCESSORS bounds.now.line }
    requires first { Contains (lines.tuples bounds.now.line) a }
    requires second { Contains (lines.tuples bounds.now.line) b }
    ensures so { result ≡ true → IsSo wrong bounds.now.pace bounds.now.line a b }
    ensures right { result ≡ false → IsRight wrong bounds.now.pace bounds.now.line a b }
{
    match wrong {
        Wrong::Turned => stands_first(bounds.line().items.items(), b, a),
        Wrong::Loose => bounds.ordered(a, b).is_none(),
    }
}

/// The first of the numbers with which this is wrong before tuple b.
fn first_of(wrong: Wrong, bounds: &Bounds, numbers: &[u8], b: u8) -> Option<u8>
    requires line { IsLine MOST_TUPLES MOST_PROCESSORS bounds.now.line }
    requires first { All (Contains (lines.tuples bounds.now.line)) numbers.now }
    requires second { Contains (lines.tuples bounds.now.line) b }
    requires ascending { IsStrictlyIncreasing numbers.now }
    ensures { TellsFirst wrong bounds.now.pace bounds.now.line numbers.now b result }
{
    for a in numbers {
        if is_so(wrong, bounds, *a, b) {
            return Some(*a);
        }
    }
    None
}

/// The first pair of which this is wrong: by the later tuple, then by the earlier one.
fn first_pair(wrong: Wrong, bounds: &Bounds, deps: &Deps, tuples: &[Tuple]) -> Option<Pair>
    requires few { length tuples.now ≤ MOST_TUPLES }
    requires line { IsLine MOST_TUPLES MOST_PROCESSORS bounds.now.line }
    requires stand { (t : ℕ) → t < length tuples.now → Contains (lines.tuples bounds.now.line) t }
    requires deps { AreDepsOf deps.now tuples.now }
    ensures { TellsPair wrong bounds.now.pace tuples.now bounds.now.line result }
{
    for b in 0..tuples.len() as u8 {
        if let Some(a) = first_of(wrong, bounds, deps.producers(b), b) {
            return Some(Pair { a, b });
        }
    }
    None
}

/// Why the conflicting pairs of a block are not in order in a line; None exactly where all are. Pairs
/// are asked one by one.
fn pair_fault(
    alloc: Global,
    number: u32,
    block: &Block,
    deps: &Deps,
    line: &Line,
    spec: &Spec,
) -> Result<Option<ImageFault>, AllocError>
    requires few { length block.now.tuples ≤ MOST_TUPLES }
    requires line { IsLine (length block.now.tuples) spec.now.processors line.now.items }
    requires stand { (t : ℕ) → t < length block.now.tuples → Contains (lines.tuples line.now.items) t }
    requires deps { AreDepsOf deps.now block.now.tuples }
    ensures { IfOk result (TellsOrder spec.now block.now line.now.items number) }
{
    // Only for its contract.
    let _processors = spec.processors();
    let bounds = Bounds::of(alloc, line, block, spec)?;
    let tuples = block.tuples.items();
    if let Some(Pair { a, b }) = first_pair(Wrong::Turned, &bounds, deps, tuples) {
        return Ok(Some(ImageFault::Order {
            block: number,
            a,
            b,
        }));
    }
    if let Some(Pair { a, b }) = first_pair(Wrong::Loose, &bounds, deps, tuples) {
        return Ok(Some(ImageFault::Unordered {
            block: number,
            a,
            b,
        }));
    }
    Ok(None)
}

/// Why the conflicting pairs of a block are not in order in the line of its streams and masks; None
/// exactly where all are.
pub(crate) fn order_fault(
    alloc: Global,
    number: u32,
    block: &Block,
    streams: &[Stream],
    masks: &[Mask],
    spec: &Spec,
) -> Result<Option<ImageFault>, AllocError>
    requires few { length block.now.tuples ≤ MOST_TUPLES }
    requires lined { AreLined (length block.now.tuples) spec.now.processors streams.now masks.now }
    ensures { IfOk result (TellsOrder spec.now block.now (line_on spec.now.processors streams.now masks.now) number) }
{
    // Only for its contract.
    machine_is_lawful(spec);
    let deps = conflicts(alloc, block)?;
    if all_ordered(alloc, block, &deps, streams, masks, spec)? {
        return Ok(None);
    }
    let line = line_of(alloc, spec.processors(), streams, masks)?;
    pair_fault(alloc, number, block, &deps, &line, spec)
}
