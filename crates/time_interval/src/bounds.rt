// The bounds of a line that is edited.
ghost use Rattle.std.specs.Prelude.{ℕ, true, take, Decides, [], ◌≡◌, ◌<◌, ◌≤◌, List, IfOk, Contains, MatchOption, length, if◌then◌else◌};
ghost use Rattle.line_model.specs.declared.line.Item.{Item};
ghost use Rattle.line_model.specs.Streams.{masks};
ghost use Rattle.line_model.specs.Reductions.{mask_at};
ghost use Rattle.time_interval.specs.Bounds.{pace_on, lo_of, up_of};
ghost use Rattle.time_interval.specs.Ahead.{IsAhead};
ghost use Rattle.time_interval.specs.Ordered.{AreBehind, IsReference, IsOrdered, IsReason, AllOrdered};
ghost use Rattle.time_interval.specs.Edits.{edited, IsEdit};
ghost use Rattle.time_interval.specs.Lines.{IsLine, HasPoint, tuples};

use crate::edit::Edit;
use crate::front::Front;
use crate::places::Places;
use crate::reference::{Point, Reason, Reference};
use crate::timed::TimedLine;
use bm_base::{MOST_PROCESSORS, MOST_TUPLES, Mask, Spec};
use dependence::Deps;
use line_model::Line;
use std::alloc::{AllocError, Global};
use std::marker::Model;
use std::mem::swap;
use tuple_ir::Block;

/// The bounds of a line. A change may stand, and is kept or taken back. Contracts see the line at
/// hand, what it takes, and where a change stands the line before it.
///
/// The front is what is known behind the settled line's first items, so many as the place tells. A
/// change that stands leaves the shared number of first items as they were, so that the front
/// outlasts one that is kept. Where none stands, the edited line is the settled one without the item
/// at the gap, if the gap is a place of it; so the next edit moves the gap alone.
#[derive(Drop)]
pub struct Bounds {
    settled: TimedLine,
    edited: TimedLine,
    stands: bool,
    front: Front,
    place: usize,
    shared: usize,
    gap: usize,
    places: Places,
}

impl Model for Bounds {
    ghost use Rattle.std.specs.Prelude.{Some, None, if◌then◌else◌};
    ghost use Rattle.time_interval.specs.Ahead.{IsWalked};
    ghost use Rattle.time_interval.specs.Edits.{Changing};

    ghost Value = { Changing };

    ghost view = { λ b. record {
      pace = b.settled.pace;
      line = (if b.stands then b.edited.line else b.settled.line);
      before = (if b.stands then Some (b.settled.line) else None);
    } };

    ghost invariant = { λ b. IsWalked b.settled b.edited b.stands b.front b.place b.shared b.gap b.places };
}

impl Bounds {
    /// The bounds of a line of a block on a machine: each tuple of the line is the block's and stands
    /// once, there are at most 128 tuples and 128 barriers, no mask is empty, and all processors are
    /// the machine's. It fails only where memory runs out.
    pub fn of(alloc: Global, line: &Line, block: &Block, spec: &Spec) -> Result<Bounds, AllocError>
        requires few { length block.now.tuples ≤ MOST_TUPLES }
        requires line { IsLine (length block.now.tuples) spec.now.processors line.now.items }
        ensures { IfOk result (λ b. b ≡ record { pace = pace_on spec.now block.now.tuples; line = line.now.items; before = None }) }
    {
        let settled = TimedLine::of(alloc, line, block, spec)?;
        let mut edited = TimedLine::of(alloc, line, block, spec)?;
        edited.shorten();
        let front = settled.front();
        let gap = settled.len();
        let places = settled.places();
        Ok(Bounds {
            settled,
            edited,
            stands: false,
            front,
            place: 0,
            shared: 0,
            gap,
            places,
        })
    }

    /// The line at hand.
    fn now(&self) -> &TimedLine
        ensures { result.now ≡ record { pace = self.now.pace; line = self.now.line } }
    {
        if self.stands {
            &self.edited
        } else {
            &self.settled
        }
    }

    /// The line at hand.
    pub fn line(&self) -> &Line
        ensures { result.now.items ≡ self.now.line }
    {
        self.now().line()
    }

    /// How many barriers the line at hand has.
    pub fn bars(&self) -> u8
        ensures value { result ≡ length (masks self.now.line) }
        ensures few { result ≤ MOST_PROCESSORS }
    {
        if self.stands {
            self.edited.bars()
        } else {
            self.settled.bars_at(&self.places)
        }
    }

    /// The mask of a barrier of the line at hand.
    pub fn mask(&self, index: u8) -> Mask
        ensures { result ≡ mask_at self.now.line index }
    {
        if self.stands {
            self.edited.mask(index)
        } else {
            self.settled.mask_at(&self.places, index)
        }
    }

    /// The greatest tick of a point since a reference of the line, none where it is unknown.
    pub fn up(&self, r: Reference, point: Point) -> Option<u32>
        requires reference { IsReference self.now.line r }
        requires point { HasPoint self.now.line point }
        ensures { result ≡ up_of self.now.pace self.now.line r point }
    {
        self.now().up(r, point)
    }

    /// The least tick of a point since a reference of the line, none where it is unknown.
    pub fn lo(&self, r: Reference, point: Point) -> Option<u32>
        requires reference { IsReference self.now.line r }
        requires point { HasPoint self.now.line point }
        ensures { result ≡ lo_of self.now.pace self.now.line r point }
    {
        self.now().lo(r, point)
    }

    /// Why tuple g is ordered before tuple i: the first reason that holds, none without one.
    pub fn ordered(&self, g: u8, i: u8) -> Option<Reason>
        requires first { Contains (tuples self.now.line) g }
        requires second { Contains (tuples self.now.line) i }
        ensures { MatchOption result (¬ IsOrdered self.now.pace self.now.line g i) (IsReason self.now.pace self.now.line g i) }
    {
        self.now().ordered(g, i)
    }

    /// Edits the line. The change stands until it is settled; none may stand before. It takes no memory.
    pub fn change(&mut self, edit: Edit)
        requires edit { IsEdit self.old.line edit }
        requires none { self.old.before ≡ None }
        ensures { self.new ≡ record { pace = self.old.pace; line = edited edit self.old.line; before = Some self.old.line } }
    {
        self.edited.edit_from(&self.settled, edit);
        self.shared = self.settled.place(edit.index());
        self.stands = true;
    }

    /// Whether each tuple of the line at hand stands behind its producers.
    pub fn in_order(&self, deps: &Deps) -> bool
        ensures { Decides result (AreBehind deps.now.producers [] (tuples self.now.line)) }
    {
        self.now().in_order(deps)
    }

    /// Whether each producer is ordered before its tuple in the line with an edit done to it, where
    /// it is in the line at hand, no change stands, and all tuples of the rows stand behind their
    /// producers. It stops at the first pair that fails, leaves the line as it is, and takes no memory.
    pub fn admits(&mut self, edit: Edit, deps: &Deps) -> bool
        requires edit { IsEdit self.old.line edit }
        requires none { self.old.before ≡ None }
        requires order { AreBehind deps.now.producers [] (tuples self.old.line) }
        requires stand { (i : ℕ) → i < length deps.now.producers → Contains (tuples self.old.line) i }
        requires ordered { AllOrdered self.old.pace deps.now.producers self.old.line }
        ensures same { self.new ≡ self.old }
        ensures exact { Decides result (AllOrdered self.old.pace deps.now.producers (edited edit self.old.line)) }
    {
        let place = self.places.at(edit.index());
        self.place = seek(&self.settled, &mut self.front, self.place, place);
        self.edited
            .edit_at(&self.settled, edit, self.gap, &self.places);
        let ordered = self.edited.ordered_from(&self.front, place, deps);
        self.gap = self.edited.leave(&self.settled, edit, &self.places);
        ordered
    }

    /// Keeps the change that stands, or takes it back; nothing changes where none stands. It takes no
    /// memory.
    pub fn settle(&mut self, keep: bool)
        ensures none { self.old.before ≡ None → self.new ≡ self.old }
        ensures change { (before : List Item) → self.old.before ≡ Some before → self.new
            ≡ record { pace = self.old.pace; line = (if keep then self.old.line else before); before = None } }
    {
        if keep && self.stands {
            swap(&mut self.settled, &mut self.edited);
            self.edited.shorten();
            self.edited.shorten();
            self.place = outlast(&self.settled, &mut self.front, self.place, self.shared);
            self.places = self.settled.places();
        }
        self.gap = self.settled.len();
        self.stands = false;
    }
}

/// Brings a front of a line from one place to another, which it returns.
fn seek(line: &TimedLine, front: &mut Front, from: usize, to: usize) -> usize
    requires from { from ≤ length line.now.line }
    requires to { to ≤ length line.now.line }
    requires ahead { IsAhead line.now.pace (take from line.now.line) front.old }
    ensures place { result ≡ to }
    ensures ahead { IsAhead line.now.pace (take to line.now.line) front.new }
{
    let begin = if to < from {
        *front = line.front();
        0
    } else {
        from
    };
    walk_to(line, front, begin, to);
    to
}

/// Brings a front of a line to a later place.
fn walk_to(line: &TimedLine, front: &mut Front, from: usize, to: usize)
    requires from { from ≤ to }
    requires to { to ≤ length line.now.line }
    requires ahead { IsAhead line.now.pace (take from line.now.line) front.old }
    ensures { IsAhead line.now.pace (take to line.now.line) front.new }
{
    for k in from..to {
        line.step(front, k);
    }
}

/// Keeps a front that stands within the first items that a change left as they were, or brings it
/// before the line; its place.
fn outlast(line: &TimedLine, front: &mut Front, place: usize, shared: usize) -> usize
    requires shared { shared ≤ length line.now.line }
    requires ahead { place ≤ shared → IsAhead line.now.pace (take place line.now.line) front.old }
    ensures within { result ≤ length line.now.line }
    ensures ahead { IsAhead line.now.pace (take result line.now.line) front.new }
{
    if place <= shared {
        return place;
    }
    *front = line.front();
    0
}
