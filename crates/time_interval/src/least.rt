// The least ticks that are known at a place of a line since a barrier.
ghost use Rattle.std.specs.Prelude.{◌≡◌, ℕ, ◌+◌, ◌<◌, ◌≤◌, true, All, length};
ghost use Rattle.bm_base.specs.Mask.{has_bit};
ghost use Rattle.time_interval.specs.Bounds.{along, at_bar, nothing, past_run, past_bar, since_bar};
ghost use Rattle.time_interval.specs.Lines.{IsItem};
ghost use Rattle.time_interval.specs.Steps.{IsUpTo};
ghost use Rattle.time_interval.specs.Walks.{least_of};

use crate::timing::Timing;
use crate::walk::{fire_lo, later, resume, unknown};
use bm_base::{MOST_DELAY, MOST_PROCESSORS, MOST_TICKS, Mask};
use line_model::Item;

/// The least tick of each processor.
#[derive(Clone, Copy)]
pub(crate) struct LeastWalk {
    lo: [Option<u32>; 128],
}

impl LeastWalk {
    /// Nothing is known.
    fn nothing() -> LeastWalk
        ensures { (least_of result).lo ≡ nothing.lo }
    {
        LeastWalk { lo: unknown() }
    }

    /// At the firing of a mask.
    fn at_bar(timing: &Timing, mask: Mask) -> LeastWalk
        requires { (p : ℕ) → has_bit mask p ≡ true → p < timing.now.processors }
        ensures value { (least_of result).lo ≡ (at_bar timing.now mask).lo }
        ensures small { IsUpTo MOST_TICKS (least_of result) }
    {
        let mut lo = unknown();
        resume(&mut lo, timing.processors(), mask, Some(timing.delay()));
        LeastWalk { lo }
    }

    /// Past a tuple.
    fn past_run(&mut self, timing: &Timing, q: u8, t: u8)
        requires processor { q < timing.now.processors }
        requires tuple { t < length timing.now.times }
        requires small { IsUpTo 3000000000 (least_of self.old) }
        ensures value { (least_of self.new).lo ≡ (past_run timing.now q t (least_of self.old)).lo }
        ensures small { (n : ℕ) → IsUpTo n (least_of self.old) → IsUpTo (n + (MOST_TICKS + MOST_DELAY)) (least_of self.new) }
    {
        prove!(timing.processors() <= MOST_PROCESSORS);
        let least = u32::from(timing.time(t).least);
        self.lo[q as usize] = later(self.lo[q as usize], least);
    }

    /// Past a barrier.
    fn past_bar(&mut self, timing: &Timing, mask: Mask)
        requires members { (p : ℕ) → has_bit mask p ≡ true → p < timing.now.processors }
        requires small { IsUpTo 3000000000 (least_of self.old) }
        ensures value { (least_of self.new).lo ≡ (past_bar timing.now mask (least_of self.old)).lo }
        ensures small { (n : ℕ) → IsUpTo n (least_of self.old) → IsUpTo (n + (MOST_TICKS + MOST_DELAY)) (least_of self.new) }
    {
        let processors = timing.processors();
        let lo = fire_lo(processors, mask, &self.lo);
        resume(&mut self.lo, processors, mask, later(lo, timing.delay()));
    }

    /// Walks along items.
    fn along(&mut self, timing: &Timing, items: &[Item])
        requires items { All (IsItem (length timing.now.times) timing.now.processors) items.now }
        requires few { length items.now ≤ 1000000 }
        requires small { IsUpTo MOST_TICKS (least_of self.old) }
        ensures { (least_of self.new).lo ≡ (along timing.now (least_of self.old) items.now).lo }
    {
        for item in items {
            match *item {
                Item::Run { processor, tuple } => self.past_run(timing, processor, tuple),
                Item::Bar { mask } => self.past_bar(timing, mask),
            }
        }
    }

    /// The least tick of a processor.
    pub(crate) fn lo(&self, p: u8) -> Option<u32>
        requires { p < MOST_PROCESSORS }
        ensures { result ≡ (least_of self.now).lo p }
    {
        self.lo[p as usize]
    }
}

/// What is known behind items since one of their barriers.
pub(crate) fn least_since(timing: &Timing, index: u8, items: &[Item]) -> LeastWalk
    requires items { All (IsItem (length timing.now.times) timing.now.processors) items.now }
    requires few { length items.now ≤ 1000000 }
    ensures { (least_of result).lo ≡ (since_bar timing.now index items.now).lo }
{
    let mut left = index;
    for (place, item) in items.iter().enumerate() {
        if let Item::Bar { mask } = *item {
            if left == 0 {
                let mut walk = LeastWalk::at_bar(timing, mask);
                walk.along(timing, &items[place + 1..]);
                return walk;
            }
            left -= 1;
        }
    }
    LeastWalk::nothing()
}
