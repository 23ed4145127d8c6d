// A line that grows.
ghost use Rattle.std.specs.Prelude.{◌≡◌, ◌<◌, ◌≤◌, ◌++◌, ◌∷◌, [], ℕ, false, nat_eq, Contains, Decides, IfOk, OnOk, OnErr, length};
ghost use Rattle.std.specs.List.{list_any};
ghost use Rattle.line_model.specs.declared.line.Item.TheVariants.{Run, Bar};
ghost use Rattle.line_model.specs.Streams.{masks};
ghost use Rattle.time_interval.specs.Bounds.{time, pace_on};
ghost use Rattle.time_interval.specs.Lines.{IsItem, tuples};
ghost use Rattle.time_interval.specs.Ordered.{IsOrdered};

use crate::front::Front;
use crate::timed::TimedLine;
use bm_base::{MOST_MASKS, MOST_TUPLES, Mask, Spec};
use line_model::Line;
use std::alloc::{AllocError, Global};
use std::marker::Model;
use tuple_ir::Block;

/// A line that grows item by item, with what is known behind it. Contracts see the line and what it
/// takes.
#[derive(Drop)]
pub struct Timeline {
    timed: TimedLine,
    front: Front,
}

impl Model for Timeline {
    ghost use Rattle.time_interval.specs.Ahead.{IsAhead};
    ghost use Rattle.time_interval.specs.Lines.{Timed};

    ghost Value = { Timed };

    ghost view = { λ t. t.timed };

    ghost invariant = { λ t. IsAhead t.timed.pace t.timed.line t.front };
}

impl Timeline {
    /// The line without items, of a block on a machine. It fails only where memory runs out.
    pub fn empty(alloc: Global, block: &Block, spec: &Spec) -> Result<Timeline, AllocError>
        requires few { length block.now.tuples ≤ MOST_TUPLES }
        ensures pace { IfOk result (λ timeline. timeline.pace ≡ pace_on spec.now block.now.tuples) }
        ensures line { IfOk result (λ timeline. timeline.line ≡ []) }
        ensures times { IfOk result (λ timeline. (t : ℕ) → 1 ≤ (time timeline.pace t).most) }
    {
        let timed = TimedLine::empty(alloc, block, spec)?;
        let front = timed.front();
        Ok(Timeline { timed, front })
    }

    /// Puts a tuple at the line's end; want of memory changes nothing.
    pub fn push_run(&mut self, processor: u8, tuple: u8) -> Result<(), AllocError>
        requires processor { processor < self.old.pace.processors }
        requires tuple { tuple < length self.old.pace.times }
        requires new { list_any (nat_eq tuple) (tuples self.old.line) ≡ false }
        ensures pace { self.new.pace ≡ self.old.pace }
        ensures ok { OnOk result (self.new.line ≡ self.old.line ++ Run processor tuple ∷ []) }
        ensures err { OnErr result (self.new.line ≡ self.old.line) }
    {
        let end = self.timed.len();
        self.timed.push_run(processor, tuple)?;
        self.timed.step(&mut self.front, end);
        Ok(())
    }

    /// Puts a barrier at the line's end; want of memory changes nothing.
    pub fn push_bar(&mut self, mask: Mask) -> Result<(), AllocError>
        requires some { IsItem 0 self.old.pace.processors (Bar mask) }
        requires room { length (masks self.old.line) < MOST_MASKS }
        ensures pace { self.new.pace ≡ self.old.pace }
        ensures ok { OnOk result (self.new.line ≡ self.old.line ++ Bar mask ∷ []) }
        ensures err { OnErr result (self.new.line ≡ self.old.line) }
    {
        let end = self.timed.len();
        self.timed.push_bar(mask)?;
        self.timed.step(&mut self.front, end);
        Ok(())
    }

    /// Whether tuple g would be ordered before another tuple that ran next on processor p.
    pub fn ordered_next(&self, g: u8, p: u8) -> bool
        requires first { Contains (tuples self.now.line) g }
        requires processor { p < self.now.pace.processors }
        ensures { (i : ℕ) → list_any (nat_eq i) (tuples self.now.line) ≡ false
            → Decides result (IsOrdered self.now.pace (self.now.line ++ Run p i ∷ []) g i) }
    {
        self.timed.ordered_next(&self.front, g, p)
    }

    /// The line by itself.
    pub fn into_line(self) -> Line
        ensures { result.items ≡ self.line }
    {
        self.timed.into_line()
    }
}
