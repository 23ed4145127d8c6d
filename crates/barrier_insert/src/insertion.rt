// Insertion, tuple by tuple.
ghost use Rattle.std.specs.Prelude.{◌≡◌, ◌<◌, ◌≤◌, ℕ, false, nat_eq, All, Contains, MatchOption, IfOk, OnOk, length, slice_index_or, []};
ghost use Rattle.std.specs.List.{list_any};
ghost use Rattle.line_model.specs.Streams.{masks};
ghost use Rattle.dependence.specs.Found.{AreDepsOf};
ghost use Rattle.list_schedule.specs.Job.{job_of};
ghost use Rattle.list_schedule.specs.Greedy.{IsGreedy, place};
ghost use Rattle.time_interval.specs.Lines.{tuples};
ghost use Rattle.time_interval.specs.Bounds.{pace_on};
ghost use Rattle.time_interval.specs.Ordered.{AllOrdered};
ghost use Rattle.barrier_insert.specs.Inserted.{assignment, AllOrderedNext, IsBarFor, IsPut, IsInserted};
ghost use Rattle.barrier_insert.specs.Laws.{IsWhole};

use crate::order::tuples_in_order;
use bm_base::{MOST_MASKS, MOST_PROCESSORS, MOST_TUPLES, Mask, Spec};
use dependence::Deps;
use line_model::Line;
use list_schedule::Schedule;
use std::alloc::{AllocError, Global};
use time_interval::Timeline;
use tuple_ir::Block;

/// The mask of the barrier that tuple i needs if it is to run next: none where all of its producers
/// would be ordered before it.
fn mask_for(part: &Timeline, deps: &Deps, schedule: &Schedule, i: u8) -> Option<Mask>
    requires tuple { i < length schedule.now.plan.places }
    requires row { i < length deps.now.producers }
    requires new { list_any (nat_eq i) (tuples part.now.line) ≡ false }
    requires places { (t : ℕ) → t < length schedule.now.plan.places → place schedule.now.plan t < part.now.pace.processors }
    requires few { part.now.pace.processors ≤ MOST_PROCESSORS }
    requires there { All (λ g. Contains (tuples part.now.line) g) (slice_index_or deps.now.producers i []) }
    requires known { All (λ g. g < length schedule.now.plan.places) (slice_index_or deps.now.producers i []) }
    ensures { let a = assignment part.now.pace deps.now.producers schedule.now.plan
        in MatchOption result (AllOrderedNext a part.now.line i) (IsBarFor a part.now.line i) }
{
    let p = schedule.processor(i);
    let mut mask = Mask::empty();
    mask.insert(p);
    let mut found = false;
    for g in deps.producers(i) {
        if !part.ordered_next(*g, p) {
            found = true;
            mask.insert(schedule.processor(*g));
        }
    }
    if found { Some(mask) } else { None }
}

/// Puts tuple i behind the part, with a barrier before it where it needs one.
fn put_next(part: &mut Timeline, deps: &Deps, schedule: &Schedule, i: u8) -> Result<(), AllocError>
    requires tuple { i < length schedule.now.plan.places }
    requires row { i < length deps.now.producers }
    requires time { i < length part.old.pace.times }
    requires new { list_any (nat_eq i) (tuples part.old.line) ≡ false }
    requires places { (t : ℕ) → t < length schedule.now.plan.places → place schedule.now.plan t < part.old.pace.processors }
    requires few { part.old.pace.processors ≤ MOST_PROCESSORS }
    requires room { length (masks part.old.line) < MOST_MASKS }
    requires there { All (λ g. Contains (tuples part.old.line) g) (slice_index_or deps.now.producers i []) }
    requires known { All (λ g. g < length schedule.now.plan.places) (slice_index_or deps.now.producers i []) }
    ensures pace { part.new.pace ≡ part.old.pace }
    ensures put { OnOk result (IsPut (assignment part.old.pace deps.now.producers schedule.now.plan) part.old.line i part.new.line) }
{
    let p = schedule.processor(i);
    match mask_for(part, deps, schedule, i) {
        None => part.push_run(p, i),
        Some(mask) => {
            part.push_bar(mask)?;
            part.push_run(p, i)
        }
    }
}

/// The inserted line of a block with its conflicts and its greedy schedule. It fails only where
/// memory runs out.
pub fn insert(
    alloc: Global,
    block: &Block,
    deps: &Deps,
    schedule: &Schedule,
    spec: &Spec,
) -> Result<Line, AllocError>
    requires few { length block.now.tuples ≤ MOST_TUPLES }
    requires deps { AreDepsOf deps.now block.now.tuples }
    requires schedule { IsGreedy (job_of spec.now block.now.tuples) schedule.now.plan }
    ensures inserted { IfOk result (λ line. IsInserted spec.now block.now.tuples schedule.now.plan line.items) }
    ensures ordered { IfOk result (λ line. AllOrdered (pace_on spec.now block.now.tuples) deps.now.producers line.items) }
    ensures whole { IfOk result (λ line. IsWhole spec.now block.now.tuples line.items) }
{
    prove!(deps.len() <= MOST_TUPLES);
    prove!(spec.processors() <= MOST_PROCESSORS);
    let order = tuples_in_order(alloc, schedule, deps.len() as u8)?;
    let mut part = Timeline::empty(alloc, block, spec)?;
    for i in &order {
        put_next(&mut part, deps, schedule, *i)?;
    }
    Ok(part.into_line())
}
