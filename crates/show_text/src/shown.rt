//! What is shown of a program.

ghost use Rattle.std.specs.Prelude.{◌≡◌, ◌≤◌, ◌<◌, ◌^◌, ◌++◌, List, All, Contains, IfOk, OnOk, length, map};
ghost use Rattle.src_names.specs.Sizes.{AllFewNodes, statements};
ghost use Rattle.tuple_lower.specs.Means.{blocks_of};
ghost use Rattle.compiled_image.specs.declared.planned.Plan.{Plan};
ghost use Rattle.compiled_image.specs.Planned.{IsPlanned, IsInOrder};
ghost use Rattle.time_interval.specs.Bounds.{pace_on};
ghost use Rattle.time_interval.specs.Lines.{tuples};
ghost use Rattle.time_interval.specs.Ordered.{IsOrdered};
ghost use Rattle.compiled_image.specs.Reasons.{Pair, pair, pairs_of};
ghost use Rattle.show_text.specs.Shown.{IsShown, AreShown, ArePairs, RunsBelow, shown_item};

use bm_base::{MOST_TUPLES, Sequence, Spec};
use compiled_image::{Plan, plan};
use dependence::conflicts;
use line_model::{Item, Line};
use src_names::Resolved;
use std::alloc::{AllocError, Global};
use time_interval::{Bounds, Reason};
use tuple_ir::{Block, Next};
use tuple_lower::{lower, lowered_blocks_mean_their_programs};

/// An item of a line, and when it runs.
#[derive(Clone, Copy, Debug, PartialEq, Eq)]
pub struct ShownItem {
    /// The item.
    pub item: Item,
    /// The start of the tuple that it runs in the schedule, in ticks; 0 for a barrier.
    pub start: u32,
}

/// Two tuples that conflict, by their numbers, and why they are in order.
#[derive(Clone, Copy, Debug, PartialEq, Eq)]
pub struct ShownPair {
    /// The earlier tuple.
    pub a: u8,
    /// The later tuple.
    pub b: u8,
    /// Why `a` has finished when `b` starts: the first reason that holds.
    pub reason: Reason,
}

/// What is shown of a block.
#[derive(Drop)]
pub struct ShownBlock {
    /// The items of its line, in order.
    pub items: Sequence<ShownItem>,
    /// Its conflicting pairs, by the later tuple, then by the earlier one.
    pub pairs: Sequence<ShownPair>,
    /// What is run after it.
    pub next: Next,
}

/// The item with its start.
fn with_start(plan: &Plan, item: Item) -> ShownItem
    requires { RunsBelow (length plan.now.schedule.plan.starts) item }
    ensures { result ≡ shown_item plan.now item }
{
    let start = match item {
        Item::Run { tuple, .. } => plan.schedule.start(tuple),
        Item::Bar { .. } => 0,
    };
    ShownItem { item, start }
}

/// The items of the reduced line.
fn show_items(alloc: Global, plan: &Plan) -> Result<Sequence<ShownItem>, AllocError>
    requires { All (RunsBelow (length plan.now.schedule.plan.starts)) plan.now.line.items }
    ensures { IfOk result (λ items. items ≡ map (shown_item plan.now) plan.now.line.items) }
{
    let mut items = Sequence::new(alloc);
    for item in plan.line.items.items() {
        items.push(with_start(plan, *item))?;
    }
    Ok(items)
}

/// Adds the pairs of tuple b with its producers.
fn show_row(
    pairs: &mut Sequence<ShownPair>,
    bounds: &Bounds,
    producers: &[u8],
    b: u8,
) -> Result<(), AllocError>
    requires later { Contains (tuples bounds.now.line) b }
    requires earlier { All (Contains (tuples bounds.now.line)) producers.now }
    requires ordered { All (λ a. IsOrdered bounds.now.pace bounds.now.line a b) producers.now }
    ensures { OnOk result ((xs : List Pair) → ArePairs bounds.now.pace bounds.now.line xs pairs.old →
        ArePairs bounds.now.pace bounds.now.line (xs ++ map (pair b) producers.now) pairs.new) }
{
    for a in producers {
        match bounds.ordered(*a, b) {
            Some(reason) => pairs.push(ShownPair { a: *a, b, reason })?,
            None => unreachable!(),
        }
    }
    Ok(())
}

/// The conflicting pairs of a block, with the reasons why they are in order in its line.
fn show_pairs(
    alloc: Global,
    block: &Block,
    line: &Line,
    spec: &Spec,
) -> Result<Sequence<ShownPair>, AllocError>
    requires few { length block.now.tuples ≤ MOST_TUPLES }
    requires in_order { IsInOrder spec.now block.now.tuples line.now.items }
    ensures { IfOk result (λ pairs. ArePairs (pace_on spec.now block.now.tuples) line.now.items (pairs_of block.now.tuples) pairs) }
{
    let deps = conflicts(alloc, block)?;
    let bounds = Bounds::of(alloc, line, block, spec)?;
    let mut pairs = Sequence::new(alloc);
    for b in 0..deps.len() as u8 {
        show_row(&mut pairs, &bounds, deps.producers(b), b)?;
    }
    Ok(pairs)
}

/// What is shown of a block.
pub(crate) fn show_block(
    alloc: Global,
    block: &Block,
    spec: &Spec,
) -> Result<ShownBlock, AllocError>
    requires { length block.now.tuples ≤ MOST_TUPLES }
    ensures { IfOk result (λ shown. IsShown spec.now block.now shown) }
{
    let plan = plan(alloc, block, spec)?;
    let items = show_items(alloc, &plan)?;
    let pairs = show_pairs(alloc, block, &plan.line, spec)?;
    Ok(ShownBlock {
        items,
        pairs,
        next: block.next,
    })
}

/// What is shown of each block of a program on a machine.
///
/// # Errors
///
/// `AllocError` where there is no memory for it.
pub fn show_program(
    alloc: Global,
    program: &Resolved,
    spec: &Spec,
) -> Result<Sequence<ShownBlock>, AllocError>
    requires nodes { AllFewNodes program.now.body }
    requires statements { statements program.now.body < 2 ^ 28 }
    ensures { IfOk result (λ shown. AreShown spec.now (blocks_of program.now) shown) }
{
    // Only for their contracts.
    lowered_blocks_mean_their_programs();
    let _names = program.names();
    let lowered = lower(alloc, program)?;
    let mut shown = Sequence::new(alloc);
    for block in lowered.blocks.items() {
        shown.push(show_block(alloc, block, spec)?)?;
    }
    Ok(shown)
}
