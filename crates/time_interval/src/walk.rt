// What is known at a place of a line since one reference.
ghost use Rattle.std.specs.Prelude.{◌≡◌, ℕ, ◌+◌, ◌<◌, ◌≤◌, true, length, if◌then◌else◌};
ghost use Rattle.bm_base.specs.Mask.{has_bit};
ghost use Rattle.time_interval.specs.Bounds.{greater_known, greater_of_both, fire_lo, fire_up, later, at_start, at_bar, nothing};
ghost use Rattle.time_interval.specs.Bounds.{past_run, past_bar};
ghost use Rattle.time_interval.specs.Steps.{by_processor, is_up_to, IsUpTo};
ghost use Rattle.time_interval.specs.Walks.{known_of};

use crate::members::next_member;
use crate::timing::Timing;
use bm_base::{MOST_DELAY, MOST_PROCESSORS, MOST_TICKS, Mask};

/// The greater of what is known of the two.
fn greater_known(a: Option<u32>, b: Option<u32>) -> Option<u32>
    ensures { result ≡ greater_known a b }
{
    match (a, b) {
        (Some(x), Some(y)) => Some(x.max(y)),
        (Some(x), None) => Some(x),
        (None, y) => y,
    }
}

/// The greater of the two, unknown where one is unknown.
fn greater_of_both(a: Option<u32>, b: Option<u32>) -> Option<u32>
    ensures { result ≡ greater_of_both a b }
{
    match (a, b) {
        (Some(x), Some(y)) => Some(x.max(y)),
        _ => None,
    }
}

/// The greatest known bound of the members.
pub(crate) fn fire_lo(processors: u8, mask: Mask, lo: &[Option<u32>]) -> Option<u32>
    requires long { processors ≤ length lo.now }
    requires few { processors ≤ MOST_PROCESSORS }
    ensures { result ≡ fire_lo processors mask (by_processor lo.now) }
{
    let mut greatest = None;
    let mut p = next_member(mask, 0, processors);
    while p < processors {
        greatest = greater_known(greatest, lo[p as usize]);
        p = next_member(mask, p + 1, processors);
    }
    greatest
}

/// The greatest of the members' bounds and of the firing before.
fn fire_up(processors: u8, mask: Mask, fired: Option<u32>, up: &[Option<u32>]) -> Option<u32>
    requires long { processors ≤ length up.now }
    requires few { processors ≤ MOST_PROCESSORS }
    ensures { result ≡ fire_up processors mask fired (by_processor up.now) }
{
    let mut greatest = fired;
    let mut p = next_member(mask, 0, processors);
    while p < processors {
        greatest = greater_of_both(greatest, up[p as usize]);
        p = next_member(mask, p + 1, processors);
    }
    greatest
}

/// So many ticks later, where it is known.
pub(crate) fn later(bound: Option<u32>, ticks: u32) -> Option<u32>
    requires short { ticks ≤ MOST_TICKS }
    requires small { is_up_to 4000000000 bound }
    ensures { result ≡ later bound ticks }
{
    match bound {
        Some(x) => Some(x + ticks),
        None => None,
    }
}

/// Sets the bounds of the members.
pub(crate) fn resume(bounds: &mut [Option<u32>], processors: u8, mask: Mask, bound: Option<u32>)
    requires long { processors ≤ length bounds.old }
    requires few { processors ≤ MOST_PROCESSORS }
    requires members { (p : ℕ) → has_bit mask p ≡ true → p < processors }
    ensures { (q : ℕ) → by_processor bounds.new q ≡ (if has_bit mask q then bound else by_processor bounds.old q) }
{
    let mut p = next_member(mask, 0, processors);
    while p < processors {
        bounds[p as usize] = bound;
        p = next_member(mask, p + 1, processors);
    }
}

/// Nothing known of any processor.
pub(crate) fn unknown() -> [Option<u32>; 128]
    ensures none { (q : ℕ) → by_processor result q ≡ None }
    ensures long { length result ≡ 128 }
{
    [None; 128]
}

/// The bounds of each processor, and the greatest of the last firing.
#[derive(Clone, Copy)]
pub(crate) struct Walk {
    lo: [Option<u32>; 128],
    up: [Option<u32>; 128],
    fired: Option<u32>,
}

impl Walk {
    /// At the block's start.
    pub(crate) fn at_start(timing: &Timing) -> Walk
        ensures value { known_of result ≡ at_start timing.now }
        ensures small { IsUpTo MOST_TICKS (known_of result) }
    {
        let mut lo = unknown();
        for p in 0..timing.processors() {
            lo[p as usize] = Some(0);
        }
        Walk {
            lo,
            up: lo,
            fired: Some(0),
        }
    }

    /// Nothing is known.
    pub(crate) fn nothing() -> Walk
        ensures value { known_of result ≡ nothing }
        ensures small { IsUpTo MOST_TICKS (known_of result) }
    {
        let none = unknown();
        Walk {
            lo: none,
            up: none,
            fired: None,
        }
    }

    /// At the firing of a mask.
    pub(crate) fn at_bar(timing: &Timing, mask: Mask) -> Walk
        requires { (p : ℕ) → has_bit mask p ≡ true → p < timing.now.processors }
        ensures value { known_of result ≡ at_bar timing.now mask }
        ensures small { IsUpTo MOST_TICKS (known_of result) }
    {
        let mut lo = unknown();
        resume(&mut lo, timing.processors(), mask, Some(timing.delay()));
        Walk {
            lo,
            up: lo,
            fired: Some(0),
        }
    }

    /// Past a tuple.
    pub(crate) fn past_run(&mut self, timing: &Timing, q: u8, t: u8)
        requires processor { q < timing.now.processors }
        requires tuple { t < length timing.now.times }
        requires small { IsUpTo 3000000000 (known_of self.old) }
        ensures value { known_of self.new ≡ past_run timing.now q t (known_of self.old) }
        ensures small { (n : ℕ) → IsUpTo n (known_of self.old) → IsUpTo (n + (MOST_TICKS + MOST_DELAY)) (known_of self.new) }
    {
        prove!(timing.processors() <= MOST_PROCESSORS);
        let time = timing.time(t);
        self.lo[q as usize] = later(self.lo[q as usize], u32::from(time.least));
        self.up[q as usize] = later(self.up[q as usize], u32::from(time.most));
    }

    /// Past a barrier.
    pub(crate) fn past_bar(&mut self, timing: &Timing, mask: Mask)
        requires members { (p : ℕ) → has_bit mask p ≡ true → p < timing.now.processors }
        requires small { IsUpTo 3000000000 (known_of self.old) }
        ensures value { known_of self.new ≡ past_bar timing.now mask (known_of self.old) }
        ensures small { (n : ℕ) → IsUpTo n (known_of self.old) → IsUpTo (n + (MOST_TICKS + MOST_DELAY)) (known_of self.new) }
    {
        let processors = timing.processors();
        let lo = fire_lo(processors, mask, &self.lo);
        let up = fire_up(processors, mask, self.fired, &self.up);
        resume(&mut self.lo, processors, mask, later(lo, timing.delay()));
        resume(&mut self.up, processors, mask, later(up, timing.delay()));
        self.fired = up;
    }

    /// The greatest known bound of the members.
    pub(crate) fn fire_lo(&self, timing: &Timing, mask: Mask) -> Option<u32>
        ensures { result ≡ fire_lo timing.now.processors mask (known_of self.now).lo }
    {
        fire_lo(timing.processors(), mask, &self.lo)
    }

    /// The greatest of the members' bounds and of the firing before.
    pub(crate) fn fire_up(&self, timing: &Timing, mask: Mask) -> Option<u32>
        ensures { result ≡ fire_up timing.now.processors mask (known_of self.now).fired (known_of self.now).up }
    {
        fire_up(timing.processors(), mask, self.fired, &self.up)
    }

    /// The greatest tick of the last firing.
    pub(crate) fn fired(&self) -> Option<u32>
        ensures { result ≡ (known_of self.now).fired }
    {
        self.fired
    }

    /// The bounds of a processor.
    pub(crate) fn lo(&self, p: u8) -> Option<u32>
        ensures { result ≡ (known_of self.now).lo p }
    {
        if p < MOST_PROCESSORS {
            self.lo[p as usize]
        } else {
            None
        }
    }

    pub(crate) fn up(&self, p: u8) -> Option<u32>
        ensures { result ≡ (known_of self.now).up p }
    {
        if p < MOST_PROCESSORS {
            self.up[p as usize]
        } else {
            None
        }
    }
}
