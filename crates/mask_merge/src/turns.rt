// Reduction, turn by turn.
ghost use Rattle.std.specs.Prelude.{◌≡◌, ℕ, ◌<◌, ◌≤◌, IfOk, Decides, MatchOption, Contains, length};
ghost use Rattle.dependence.specs.Found.{AreDepsOf};
ghost use Rattle.time_interval.specs.Bounds.{pace_on};
ghost use Rattle.time_interval.specs.Edits.{IsEdit};
ghost use Rattle.time_interval.specs.Lines.{IsLine, tuples};
ghost use Rattle.time_interval.specs.Ordered.{AllOrdered};
ghost use Rattle.mask_merge.specs.Laws.{KeepsTuples};
ghost use Rattle.mask_merge.specs.Reduced.{IsAdmissible, NoneAdmissible, IsTurn, IsIrreducible, IsReduced};
ghost use Rattle.mask_merge.specs.Search.{edit_of, AllStand, IsOnTurn, IsFirstEdit};

use bm_base::{MOST_TUPLES, Spec};
use dependence::Deps;
use line_model::Line;
use std::alloc::{AllocError, Global};
use time_interval::{Bounds, Edit, copy_of};
use tuple_ir::Block;

/// The kinds of edits.
#[derive(Clone, Copy)]
enum Kind {
    /// One barrier is removed.
    Removal,
    /// Two neighbours become one.
    Merging,
}

impl Kind {
    /// The edit of this kind at a place of the queue.
    fn edit(self, index: u8) -> Edit
        ensures { result ≡ edit_of self index }
    {
        match self {
            Kind::Removal => Edit::Remove { index },
            Kind::Merging => Edit::Merge { index },
        }
    }
}

/// Whether each conflicting pair is ordered in the line at hand.
fn all_ordered(bounds: &Bounds, deps: &Deps) -> bool
    requires { AllStand deps.now.producers bounds.now.line }
    ensures { Decides result (AllOrdered bounds.now.pace deps.now.producers bounds.now.line) }
{
    prove!(deps.len() <= MOST_TUPLES);
    for i in 0..deps.len() as u8 {
        for g in deps.producers(i) {
            if bounds.ordered(*g, i).is_none() {
                return false;
            }
        }
    }
    true
}

/// Whether the edit is one of the line at hand.
fn is_edit(bounds: &Bounds, edit: Edit) -> bool
    ensures { Decides result (IsEdit bounds.now.line edit) }
{
    match edit {
        Edit::Remove { index } => index < bounds.bars(),
        Edit::Merge { index } => {
            let next = u16::from(index) + 1;
            if next < u16::from(bounds.bars()) {
                !bounds.mask(index).meets(bounds.mask(index + 1))
            } else {
                false
            }
        }
    }
}

/// Whether an edit may be done. Where a tuple stands in front of one of its producers, each pair is
/// asked for by itself.
fn is_admissible(bounds: &mut Bounds, deps: &Deps, edit: Edit, in_order: bool) -> bool
    requires none { bounds.old.before ≡ None }
    requires line { IsOnTurn bounds.old.pace deps.now.producers bounds.old.line in_order }
    ensures same { bounds.new ≡ bounds.old }
    ensures exact { Decides result (IsAdmissible bounds.old.pace deps.now.producers bounds.old.line edit) }
{
    if !is_edit(bounds, edit) {
        return false;
    }
    if in_order {
        return bounds.admits(edit, deps);
    }
    bounds.change(edit);
    let ordered = all_ordered(bounds, deps);
    bounds.settle(false);
    ordered
}

/// The first edit of a kind that may be done.
fn first_of(bounds: &mut Bounds, deps: &Deps, kind: Kind, in_order: bool) -> Option<Edit>
    requires none { bounds.old.before ≡ None }
    requires line { IsOnTurn bounds.old.pace deps.now.producers bounds.old.line in_order }
    ensures same { bounds.new ≡ bounds.old }
    ensures first { MatchOption result (NoneAdmissible bounds.old.pace deps.now.producers bounds.old.line (edit_of kind))
        (IsFirstEdit bounds.old.pace deps.now.producers bounds.old.line (edit_of kind)) }
{
    for index in 0..bounds.bars() {
        let edit = kind.edit(index);
        if is_admissible(bounds, deps, edit, in_order) {
            return Some(edit);
        }
    }
    None
}

/// The edit of the next turn, none where no edit may be done.
fn next_edit(bounds: &mut Bounds, deps: &Deps, in_order: bool) -> Option<Edit>
    requires none { bounds.old.before ≡ None }
    requires line { IsOnTurn bounds.old.pace deps.now.producers bounds.old.line in_order }
    ensures same { bounds.new ≡ bounds.old }
    ensures turn { MatchOption result (IsIrreducible bounds.old.pace deps.now.producers bounds.old.line)
        (IsTurn bounds.old.pace deps.now.producers bounds.old.line) }
{
    match first_of(bounds, deps, Kind::Removal, in_order) {
        Some(edit) => Some(edit),
        None => first_of(bounds, deps, Kind::Merging, in_order),
    }
}

/// The reduced line of a line in which each conflicting pair of the block is ordered. It fails only
/// where memory runs out.
pub fn reduce(
    alloc: Global,
    line: &Line,
    block: &Block,
    deps: &Deps,
    spec: &Spec,
) -> Result<Line, AllocError>
    requires few { length block.now.tuples ≤ MOST_TUPLES }
    requires deps { AreDepsOf deps.now block.now.tuples }
    requires line { IsLine (length block.now.tuples) spec.now.processors line.now.items }
    requires stand { (t : ℕ) → t < length block.now.tuples → Contains (tuples line.now.items) t }
    requires ordered { AllOrdered (pace_on spec.now block.now.tuples) deps.now.producers line.now.items }
    ensures reduced { IfOk result (λ r. IsReduced (pace_on spec.now block.now.tuples) deps.now.producers line.now.items r.items) }
    ensures irreducible { IfOk result (λ r. IsIrreducible (pace_on spec.now block.now.tuples) deps.now.producers r.items) }
    ensures ordered { IfOk result (λ r. AllOrdered (pace_on spec.now block.now.tuples) deps.now.producers r.items) }
    ensures line { IfOk result (λ r. IsLine (length block.now.tuples) spec.now.processors r.items) }
    ensures tuples { IfOk result (λ r. KeepsTuples line.now.items r.items) }
{
    let mut bounds = Bounds::of(alloc, line, block, spec)?;
    let in_order = bounds.in_order(deps);
    while let Some(edit) = next_edit(&mut bounds, deps, in_order) {
        bounds.change(edit);
        bounds.settle(true);
    }
    copy_of(alloc, bounds.line())
}
