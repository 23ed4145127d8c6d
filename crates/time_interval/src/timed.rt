// A line with what it takes, and its bounds.
ghost use Rattle.std.specs.Prelude.{◌≡◌, ◌<◌, ◌≤◌, ℕ, suc, ◌-◌, take, true, false, All, nat_eq, [], ◌∷◌, ◌++◌, IfOk, OnOk, OnErr};
ghost use Rattle.std.specs.Prelude.{Contains, Decides, MatchOption, length};
ghost use Rattle.std.specs.List.{list_any};
ghost use Rattle.line_model.specs.declared.line.Item.TheVariants.{Run, Bar};
ghost use Rattle.time_interval.specs.Edits.{edited, IsEdit};
ghost use Rattle.time_interval.specs.Gaps.{ArePlaces, IsGapped};
ghost use Rattle.time_interval.specs.Places.{place_of_bar, without_place};
ghost use Rattle.time_interval.specs.Ahead.{IsAhead, RestOrdered};
ghost use Rattle.time_interval.specs.Ordered.{AreBehind, IsReference, IsInTime, IsFirstInTime, IsOrdered, IsReason};
ghost use Rattle.line_model.specs.Streams.{masks};
ghost use Rattle.line_model.specs.Reductions.{mask_at};
ghost use Rattle.time_interval.specs.Bounds.{time, pace_on, lo_of, up_of, lo_start, up_start, is_bar};
ghost use Rattle.time_interval.specs.declared.reference.Point.TheVariants.{FireOf};
ghost use Rattle.time_interval.specs.Steps.{is_up_to};
ghost use Rattle.time_interval.specs.Lines.{IsItem, IsLine, IsTimed, HasPoint, tuples};

use crate::along::{bars, front_of_bar, known, mask_of_bar, place_of_bar, run_of};
use crate::edit::{Edit, copy_without, move_gap};
use crate::front::{Front, rest_ordered};
use crate::places::Places;
use crate::reference::{Point, Reason, Reference};
use crate::rows::in_order;
use crate::seen::{seen, stands_on};
use crate::timing::Timing;
use crate::walk::later;
use bm_base::{MOST_MASKS, MOST_PROCESSORS, MOST_TUPLES, Mask, Spec};
use dependence::Deps;
use line_model::{Item, Items, Line};
use std::alloc::{AllocError, Global};
use std::marker::Model;
use tuple_ir::Block;

/// A line with the times of its tuples. Contracts see the line and what it takes.
#[derive(Drop)]
pub(crate) struct TimedLine {
    line: Line,
    timing: Timing,
}

impl Model for TimedLine {
    ghost use Rattle.time_interval.specs.Lines.{Timed, IsTimed};

    ghost Value = { Timed };

    ghost view = { λ b. record { pace = b.timing; line = b.line.items } };

    ghost invariant = { λ b. IsTimed (record { pace = b.timing; line = b.line.items }) };
}

/// The line again. It fails only where memory runs out.
pub fn copy_of(alloc: Global, line: &Line) -> Result<Line, AllocError>
    ensures { IfOk result (λ copy. copy.items ≡ line.now.items) }
{
    let mut items = Items::new(alloc);
    for item in line.items.items() {
        items.push(*item)?;
    }
    Ok(Line { items })
}

/// Whether the reference is the barrier of this number.
fn is_bar(r: Reference, index: u8) -> bool
    ensures { result ≡ is_bar r index }
{
    match r {
        Reference::Start => false,
        Reference::Bar { index: i } => i == index,
    }
}

impl TimedLine {
    /// The bounds of a line of a block on a machine. It fails only where memory runs out.
    pub(crate) fn of(
        alloc: Global,
        line: &Line,
        block: &Block,
        spec: &Spec,
    ) -> Result<TimedLine, AllocError>
        requires few { length block.now.tuples ≤ MOST_TUPLES }
        requires line { IsLine (length block.now.tuples) spec.now.processors line.now.items }
        ensures pace { IfOk result (λ timed. timed.pace ≡ pace_on spec.now block.now.tuples) }
        ensures line { IfOk result (λ timed. timed.line ≡ line.now.items) }
    {
        let copy = copy_of(alloc, line)?;
        let timing = Timing::of(alloc, block.tuples.items(), spec)?;
        Ok(TimedLine { line: copy, timing })
    }

    /// The line.
    pub(crate) fn line(&self) -> &Line
        ensures { result.now.items ≡ self.now.line }
    {
        &self.line
    }

    fn up_start(&self, r: Reference, t: u8) -> Option<u32>
        ensures value { result ≡ up_start self.now.pace self.now.line r t }
        ensures small { is_up_to 2000000000 result }
    {
        let (front, p) = run_of(self.line.items.items(), t);
        known(&self.timing, r, front).up(p)
    }

    fn lo_start(&self, r: Reference, t: u8) -> Option<u32>
        ensures value { result ≡ lo_start self.now.pace self.now.line r t }
        ensures small { is_up_to 2000000000 result }
    {
        let (front, p) = run_of(self.line.items.items(), t);
        known(&self.timing, r, front).lo(p)
    }

    fn up_fire(&self, r: Reference, index: u8) -> Option<u32>
        ensures { result ≡ up_of self.now.pace self.now.line r (FireOf index) }
    {
        if is_bar(r, index) {
            return Some(0);
        }
        let front = front_of_bar(self.line.items.items(), index);
        let mask = mask_of_bar(self.line.items.items(), index);
        known(&self.timing, r, front).fire_up(&self.timing, mask)
    }

    fn lo_fire(&self, r: Reference, index: u8) -> Option<u32>
        ensures { result ≡ lo_of self.now.pace self.now.line r (FireOf index) }
    {
        if is_bar(r, index) {
            return Some(0);
        }
        let front = front_of_bar(self.line.items.items(), index);
        let mask = mask_of_bar(self.line.items.items(), index);
        known(&self.timing, r, front).fire_lo(&self.timing, mask)
    }

    /// The greatest tick of a point since a reference, none where it is unknown.
    pub(crate) fn up(&self, r: Reference, point: Point) -> Option<u32>
        requires reference { IsReference self.now.line r }
        requires point { HasPoint self.now.line point }
        ensures { result ≡ up_of self.now.pace self.now.line r point }
    {
        match point {
            Point::StartOf { tuple } => self.up_start(r, tuple),
            Point::FinishOf { tuple } => later(
                self.up_start(r, tuple),
                u32::from(self.timing.time(tuple).most),
            ),
            Point::FireOf { index } => self.up_fire(r, index),
        }
    }

    /// The least tick of a point since a reference, none where it is unknown.
    pub(crate) fn lo(&self, r: Reference, point: Point) -> Option<u32>
        requires reference { IsReference self.now.line r }
        requires point { HasPoint self.now.line point }
        ensures { result ≡ lo_of self.now.pace self.now.line r point }
    {
        match point {
            Point::StartOf { tuple } => self.lo_start(r, tuple),
            Point::FinishOf { tuple } => later(
                self.lo_start(r, tuple),
                u32::from(self.timing.time(tuple).least),
            ),
            Point::FireOf { index } => self.lo_fire(r, index),
        }
    }

    /// Whether g has finished since r when i can start.
    fn in_time(&self, r: Reference, g: u8, i: u8) -> bool
        requires { Contains (tuples self.now.line) g }
        ensures { Decides result (IsInTime self.now.pace self.now.line g i r) }
    {
        let finish = later(self.up_start(r, g), u32::from(self.timing.time(g).most));
        match (finish, self.lo_start(r, i)) {
            (Some(latest), Some(earliest)) => latest <= earliest,
            _ => false,
        }
    }

    /// The first reference since which g has finished when i can start.
    fn first_in_time(&self, g: u8, i: u8) -> Option<Reference>
        requires { Contains (tuples self.now.line) g }
        ensures { MatchOption result ((q : Reference) → IsReference self.now.line q
            → ¬ IsInTime self.now.pace self.now.line g i q) (IsFirstInTime self.now.pace self.now.line g i) }
    {
        if self.in_time(Reference::Start, g, i) {
            return Some(Reference::Start);
        }
        for index in 0..bars(self.line.items.items()) {
            if self.in_time(Reference::Bar { index }, g, i) {
                return Some(Reference::Bar { index });
            }
        }
        None
    }

    /// Why tuple g is ordered before tuple i: the first reason that holds, none without one.
    pub(crate) fn ordered(&self, g: u8, i: u8) -> Option<Reason>
        requires first { Contains (tuples self.now.line) g }
        requires second { Contains (tuples self.now.line) i }
        ensures { MatchOption result (¬ IsOrdered self.now.pace self.now.line g i) (IsReason self.now.pace self.now.line g i) }
    {
        let (front, p) = run_of(self.line.items.items(), i);
        if stands_on(front, p, g) {
            return Some(Reason::SameProcessor);
        }
        if seen(self.timing.processors(), front).has(p, g) {
            return Some(Reason::ByBarrier);
        }
        match self.first_in_time(g, i) {
            Some(reference) => Some(Reason::ByTime { reference }),
            None => None,
        }
    }

    /// The line without items. It fails only where memory runs out.
    pub(crate) fn empty(alloc: Global, block: &Block, spec: &Spec) -> Result<TimedLine, AllocError>
        requires few { length block.now.tuples ≤ MOST_TUPLES }
        ensures pace { IfOk result (λ timed. timed.pace ≡ pace_on spec.now block.now.tuples) }
        ensures line { IfOk result (λ timed. timed.line ≡ []) }
        ensures times { IfOk result (λ timed. (t : ℕ) → 1 ≤ (time timed.pace t).most) }
    {
        let timing = Timing::of(alloc, block.tuples.items(), spec)?;
        let line = Line {
            items: Items::new(alloc),
        };
        Ok(TimedLine { line, timing })
    }

    /// Puts a tuple at the line's end; want of memory changes nothing.
    pub(crate) fn push_run(&mut self, processor: u8, tuple: u8) -> Result<(), AllocError>
        requires processor { processor < self.old.pace.processors }
        requires tuple { tuple < length self.old.pace.times }
        requires new { list_any (nat_eq tuple) (tuples self.old.line) ≡ false }
        ensures pace { self.new.pace ≡ self.old.pace }
        ensures ok { OnOk result (self.new.line ≡ self.old.line ++ Run processor tuple ∷ []) }
        ensures err { OnErr result (self.new.line ≡ self.old.line) }
    {
        self.line.items.push(Item::Run { processor, tuple })
    }

    /// Puts a barrier at the line's end; want of memory changes nothing.
    pub(crate) fn push_bar(&mut self, mask: Mask) -> Result<(), AllocError>
        requires some { IsItem 0 self.old.pace.processors (Bar mask) }
        requires room { length (masks self.old.line) < MOST_MASKS }
        ensures pace { self.new.pace ≡ self.old.pace }
        ensures ok { OnOk result (self.new.line ≡ self.old.line ++ Bar mask ∷ []) }
        ensures err { OnErr result (self.new.line ≡ self.old.line) }
    {
        self.line.items.push(Item::Bar { mask })
    }

    /// How many items.
    pub(crate) fn len(&self) -> usize
        ensures { result ≡ length self.now.line }
    {
        self.line.items.items().len()
    }

    /// Whether tuple g would be ordered before another tuple that ran next on processor p.
    pub(crate) fn ordered_next(&self, front: &Front, g: u8, p: u8) -> bool
        requires ahead { IsAhead self.now.pace self.now.line front.now }
        requires first { Contains (tuples self.now.line) g }
        requires processor { p < self.now.pace.processors }
        ensures { (i : ℕ) → list_any (nat_eq i) (tuples self.now.line) ≡ false
            → Decides result (IsOrdered self.now.pace (self.now.line ++ Run p i ∷ []) g i) }
    {
        front.orders(&self.timing, self.line.items.items(), g, p)
    }

    /// How many barriers.
    pub(crate) fn bars(&self) -> u8
        ensures value { result ≡ length (masks self.now.line) }
        ensures few { result ≤ MOST_PROCESSORS }
    {
        bars(self.line.items.items())
    }

    /// The mask of a barrier.
    pub(crate) fn mask(&self, index: u8) -> Mask
        ensures { result ≡ mask_at self.now.line index }
    {
        mask_of_bar(self.line.items.items(), index)
    }

    /// Becomes another line with an edit done to it.
    pub(crate) fn edit_from(&mut self, from: &TimedLine, edit: Edit)
        requires shorter { suc (length self.old.line) ≡ length from.now.line }
        requires edit { IsEdit from.now.line edit }
        requires pace { self.old.pace ≡ from.now.pace }
        ensures line { self.new.line ≡ edited edit from.now.line }
        ensures pace { self.new.pace ≡ from.now.pace }
    {
        let items = from.line.items.items();
        match edit {
            Edit::Remove { index } => {
                copy_without(&mut self.line.items, items, place_of_bar(items, index))
            }
            Edit::Merge { index } => {
                copy_without(&mut self.line.items, items, place_of_bar(items, index + 1));
                let mask = mask_of_bar(items, index).union(mask_of_bar(items, index + 1));
                self.line
                    .items
                    .set(place_of_bar(items, index), Item::Bar { mask });
            }
        }
    }

    /// Becomes another line with an edit done to it, where it is that line without the item at a gap,
    /// if the gap is a place of the line.
    pub(crate) fn edit_at(&mut self, from: &TimedLine, edit: Edit, gap: usize, places: &Places)
        requires shorter { suc (length self.old.line) ≡ length from.now.line }
        requires edit { IsEdit from.now.line edit }
        requires pace { self.old.pace ≡ from.now.pace }
        requires places { ArePlaces from.now.line places.now }
        requires gapped { IsGapped gap from.now.line self.old.line }
        ensures line { self.new.line ≡ edited edit from.now.line }
        ensures pace { self.new.pace ≡ from.now.pace }
        ensures timed { IsTimed from.now }
    {
        let items = from.line.items.items();
        match edit {
            Edit::Remove { index } => {
                move_gap(&mut self.line.items, items, gap, places.at(index))
            }
            Edit::Merge { index } => {
                move_gap(&mut self.line.items, items, gap, places.at(index + 1));
                let mask = places
                    .mask(items, index)
                    .union(places.mask(items, index + 1));
                self.line.items.set(places.at(index), Item::Bar { mask });
            }
        }
    }

    /// Becomes the other line without the item that an edit left out, which is told.
    pub(crate) fn leave(&mut self, from: &TimedLine, edit: Edit, places: &Places) -> usize
        requires edit { IsEdit from.now.line edit }
        requires line { self.old.line ≡ edited edit from.now.line }
        requires pace { self.old.pace ≡ from.now.pace }
        requires places { ArePlaces from.now.line places.now }
        ensures line { self.new.line ≡ without_place result from.now.line }
        ensures inside { result < length from.now.line }
        ensures pace { self.new.pace ≡ from.now.pace }
    {
        match edit {
            Edit::Remove { index } => places.at(index),
            Edit::Merge { index } => {
                let items = from.line.items.items();
                let place = places.at(index);
                prove!(place < items.len());
                self.line.items.set(place, items[place]);
                places.at(index + 1)
            }
        }
    }

    /// How many barriers, by their places.
    pub(crate) fn bars_at(&self, places: &Places) -> u8
        requires { ArePlaces self.now.line places.now }
        ensures value { result ≡ length (masks self.now.line) }
        ensures few { result ≤ MOST_PROCESSORS }
    {
        // Only for its contract.
        let _items = self.line.items.items();
        places.bars()
    }

    /// The mask of a barrier, by its place.
    pub(crate) fn mask_at(&self, places: &Places, index: u8) -> Mask
        requires { ArePlaces self.now.line places.now }
        ensures { result ≡ mask_at self.now.line index }
    {
        places.mask(self.line.items.items(), index)
    }

    /// Where the barriers stand.
    pub(crate) fn places(&self) -> Places
        ensures { ArePlaces self.now.line result }
    {
        Places::of(self.line.items.items())
    }

    /// Loses its last item, where there is one.
    pub(crate) fn shorten(&mut self)
        ensures line { self.new.line ≡ take (length self.old.line - 1) self.old.line }
        ensures pace { self.new.pace ≡ self.old.pace }
    {
        let _last = self.line.items.pop();
    }

    /// In front of the line.
    pub(crate) fn front(&self) -> Front
        ensures { IsAhead self.now.pace [] result }
    {
        Front::at_start(&self.timing)
    }

    /// Behind one more item of the line.
    pub(crate) fn step(&self, front: &mut Front, k: usize)
        requires inside { k < length self.now.line }
        requires ahead { IsAhead self.now.pace (take k self.now.line) front.old }
        ensures { IsAhead self.now.pace (take (suc k) self.now.line) front.new }
    {
        front.past(&self.timing, self.line.items.items()[k]);
    }

    /// The place of a barrier.
    pub(crate) fn place(&self, index: u8) -> usize
        ensures value { result ≡ place_of_bar index self.now.line }
        ensures timed { IsTimed self.now }
    {
        place_of_bar(self.line.items.items(), index)
    }

    /// Whether each conflicting pair is ordered, where those are whose second tuple stands in front
    /// of a place.
    pub(crate) fn ordered_from(&self, front: &Front, from: usize, deps: &Deps) -> bool
        requires ahead { IsAhead self.now.pace (take from self.now.line) front.now }
        requires from { from ≤ length self.now.line }
        requires order { AreBehind deps.now.producers [] (tuples self.now.line) }
        ensures { Decides result (RestOrdered self.now.pace deps.now.producers from self.now.line) }
    {
        rest_ordered(&self.timing, front, self.line.items.items(), from, deps)
    }

    /// Whether each tuple stands behind its producers.
    pub(crate) fn in_order(&self, deps: &Deps) -> bool
        ensures { Decides result (AreBehind deps.now.producers [] (tuples self.now.line)) }
    {
        in_order(self.line.items.items(), deps)
    }

    /// The line by itself.
    pub(crate) fn into_line(self) -> Line
        ensures { result.items ≡ self.line }
    {
        self.line
    }
}
