// What is known behind items that were walked along.
ghost use Rattle.std.specs.Prelude.{◌≡◌, ℕ, ◌+◌, ◌<◌, ◌≤◌, ◌++◌, ◌∷◌, [], All, Decides, true, false, nat_eq, length, take, if◌then◌else◌};
ghost use Rattle.std.specs.List.{list_any};
ghost use Rattle.std.specs.Prelude.{List, Some, None};
ghost use Rattle.bm_base.specs.Mask.{has_bit};
ghost use Rattle.line_model.specs.Streams.{masks};
ghost use Rattle.line_model.specs.declared.line.Item.{Item};
ghost use Rattle.line_model.specs.declared.line.Item.TheVariants.{Bar};
ghost use Rattle.time_interval.specs.declared.reference.Reference.TheVariants as reference;
ghost use Rattle.time_interval.specs.Ahead.{IsAhead, IsNew, IsAtMost, IsBefore, IsInTimeSince, ProducersStand, StandsOrdered, RestOrdered};
ghost use Rattle.time_interval.specs.Ordered.{AreBehind};
ghost use Rattle.time_interval.specs.Bounds.{fire_lo, fire_up, past_run, past_bar};
ghost use Rattle.time_interval.specs.Lines.{IsItem, IsTimed, tuples};
ghost use Rattle.time_interval.specs.Next.{IsInTimeNext};
ghost use Rattle.time_interval.specs.Seen.{past_run_seen, past_bar_seen};
ghost use Rattle.time_interval.specs.Knows.{past_bar_knows};
ghost use Rattle.time_interval.specs.Sets.{knows_of, seen_of, set_at};
ghost use Rattle.time_interval.specs.Steps.{by_processor, IsUpTo};
ghost use Rattle.time_interval.specs.Walks.{known_of};

use crate::knows::KnownSince;
use crate::least::least_since;
use crate::seen::{Sets, has};
use crate::timing::Timing;
use crate::walk::Walk;
use bm_base::{MOST_DELAY, MOST_MASKS, MOST_PROCESSORS, MOST_TICKS, MOST_TUPLES, Mask};
use dependence::Deps;
use line_model::Item;

/// What is known behind items: by processor the set of tuples ordered before its next item, the
/// barriers since which its greatest tick is known, and its bounds since the start; and by tuple the
/// greatest tick of its finish since the start and the barriers since which it is known; and by
/// barrier the greatest and the least tick of its firing since the start.
#[derive(Clone, Copy)]
pub(crate) struct Front {
    seen: Sets,
    knows: KnownSince,
    walk: Walk,
    finish: [Option<u32>; 128],
    since: [u128; 128],
    fires: [Option<u32>; 128],
    lows: [Option<u32>; 128],
}

/// Whether the one is known to be no more than the other.
fn at_most(a: Option<u32>, b: Option<u32>) -> bool
    ensures { Decides result (IsAtMost a b) }
{
    match (a, b) {
        (Some(latest), Some(earliest)) => latest <= earliest,
        _ => false,
    }
}

/// The ticks from the one to the other.
fn ticks_from(from: Option<u32>, to: Option<u32>) -> Option<u32>
    requires order { (f t : ℕ) → from ≡ Some f → to ≡ Some t → f ≤ t }
    ensures { (x c : ℕ) → from ≡ Some c → to ≡ Some (x + c) → result ≡ Some x }
{
    match (from, to) {
        (Some(f), Some(t)) => Some(t - f),
        _ => None,
    }
}

/// Whether a processor goes on, at the least tick, before so many ticks behind the firing at the
/// least tick.
fn goes_on_before(lo: Option<u32>, low: Option<u32>, ticks: u32) -> bool
    ensures { result ≡ true → (s c : ℕ) × (lo ≡ Some s) × (low ≡ Some c) × (s < ticks + c) }
{
    match (lo, low) {
        (Some(s), Some(c)) => s < ticks.saturating_add(c),
        _ => false,
    }
}

impl Front {
    /// At the block's start.
    pub(crate) fn at_start(timing: &Timing) -> Front
        ensures { IsAhead timing.now [] result }
    {
        Front {
            seen: Sets::none(),
            knows: KnownSince::nothing(),
            walk: Walk::at_start(timing),
            finish: [None; 128],
            since: [0; 128],
            fires: [None; 128],
            lows: [None; 128],
        }
    }

    /// Behind one more tuple.
    fn past_run(&mut self, timing: &Timing, q: u8, t: u8)
        requires processor { q < timing.now.processors }
        requires tuple { t < length timing.now.times }
        requires few { length timing.now.times ≤ MOST_TUPLES }
        requires small { IsUpTo 3000000000 (known_of self.old.walk) }
        ensures seen { seen_of self.new.seen ≡ past_run_seen q t (seen_of self.old.seen) }
        ensures knows { self.new.knows ≡ self.old.knows }
        ensures walk { known_of self.new.walk ≡ past_run timing.now q t (known_of self.old.walk) }
        ensures small { (n : ℕ) → IsUpTo n (known_of self.old.walk) → IsUpTo (n + (MOST_TICKS + MOST_DELAY)) (known_of self.new.walk) }
        ensures finish { (g : ℕ) → by_processor self.new.finish g
            ≡ (if nat_eq t g then (known_of self.new.walk).up q else by_processor self.old.finish g) }
        ensures since { (g : ℕ) → set_at self.new.since g ≡ (if nat_eq t g then set_at self.old.knows.ups q else set_at self.old.since g) }
        ensures fires { self.new.fires ≡ self.old.fires }
        ensures lows { self.new.lows ≡ self.old.lows }
    {
        prove!(timing.processors() <= MOST_PROCESSORS);
        self.seen.past_run(q, t);
        self.walk.past_run(timing, q, t);
        self.finish[t as usize] = self.walk.up(q);
        self.since[t as usize] = self.knows.since(q);
    }

    /// Behind one more barrier.
    fn past_bar(&mut self, timing: &Timing, mask: Mask)
        requires members { (p : ℕ) → has_bit mask p ≡ true → p < timing.now.processors }
        requires small { IsUpTo 3000000000 (known_of self.old.walk) }
        requires room { self.old.knows.bars < MOST_MASKS }
        ensures seen { seen_of self.new.seen ≡ past_bar_seen timing.now.processors mask (seen_of self.old.seen) }
        ensures knows { knows_of self.new.knows ≡ past_bar_knows timing.now.processors mask (knows_of self.old.knows) }
        ensures walk { known_of self.new.walk ≡ past_bar timing.now mask (known_of self.old.walk) }
        ensures small { (n : ℕ) → IsUpTo n (known_of self.old.walk) → IsUpTo (n + (MOST_TICKS + MOST_DELAY)) (known_of self.new.walk) }
        ensures finish { self.new.finish ≡ self.old.finish }
        ensures since { self.new.since ≡ self.old.since }
        ensures fires { (j : ℕ) → by_processor self.new.fires j
            ≡ (if nat_eq self.old.knows.bars j
            then fire_up timing.now.processors mask (known_of self.old.walk).fired (known_of self.old.walk).up
            else by_processor self.old.fires j) }
        ensures lows { (j : ℕ) → by_processor self.new.lows j
            ≡ (if nat_eq self.old.knows.bars j
            then fire_lo timing.now.processors mask (known_of self.old.walk).lo
            else by_processor self.old.lows j) }
    {
        let index = self.knows.bars();
        self.fires[index as usize] = self.walk.fire_up(timing, mask);
        self.lows[index as usize] = self.walk.fire_lo(timing, mask);
        self.seen.past_bar(timing.processors(), mask);
        self.knows.past_bar(timing.processors(), mask);
        self.walk.past_bar(timing, mask);
    }

    /// Behind one more item.
    pub(crate) fn past(&mut self, timing: &Timing, item: Item)
        requires item { IsItem (length timing.now.times) timing.now.processors item }
        requires few { length timing.now.times ≤ MOST_TUPLES }
        requires small { IsUpTo 3000000000 (known_of self.old.walk) }
        requires room { (mask : ℕ) → item ≡ Bar mask → self.old.knows.bars < MOST_MASKS }
        ensures { (items : List Item) → IsAhead timing.now items self.old → IsNew items item
            → IsAhead timing.now (items ++ item ∷ []) self.new }
    {
        match item {
            Item::Run { processor, tuple } => self.past_run(timing, processor, tuple),
            Item::Bar { mask } => self.past_bar(timing, mask),
        }
    }

    /// The greatest tick of a tuple's finish since the start.
    fn finish(&self, g: u8) -> Option<u32>
        requires { g < MOST_TUPLES }
        ensures { result ≡ by_processor self.now.finish g }
    {
        self.finish[g as usize]
    }

    /// Whether a tuple's finish is known since a barrier.
    fn is_known(&self, g: u8, index: u8) -> bool
        requires tuple { g < MOST_TUPLES }
        requires index { index < MOST_MASKS }
        ensures { result ≡ has_bit (set_at self.now.since g) index }
    {
        has(self.since[g as usize], index)
    }

    /// The greatest tick of g's finish since a barrier since which it is known.
    fn latest_since(&self, g: u8, index: u8) -> Option<u32>
        requires tuple { g < MOST_TUPLES }
        requires index { index < MOST_MASKS }
        requires order { (f t : ℕ) → by_processor self.now.fires index ≡ Some f → by_processor self.now.finish g ≡ Some t → f ≤ t }
        ensures { (x c : ℕ) → by_processor self.now.fires index ≡ Some c → by_processor self.now.finish g ≡ Some (x + c) → result ≡ Some x }
    {
        ticks_from(self.fires[index as usize], self.finish[g as usize])
    }

    /// Whether since the start processor p goes on before so many ticks behind the firing of a
    /// barrier, both at the least tick. Then it goes on before so many ticks since the barrier too.
    fn is_early(&self, index: u8, p: u8, ticks: u32) -> bool
        requires index { index < MOST_MASKS }
        ensures { result ≡ true → (s c : ℕ) × ((known_of self.now.walk).lo p ≡ Some s)
            × (by_processor self.now.lows index ≡ Some c) × (s < ticks + c) }
    {
        goes_on_before(self.walk.lo(p), self.lows[index as usize], ticks)
    }

    /// Whether g, one of the items, has finished since a barrier, since which its finish is known,
    /// when processor p can start its next tuple behind them.
    fn in_time_since(&self, timing: &Timing, items: &[Item], index: u8, g: u8, p: u8) -> bool
        requires ahead { IsAhead timing.now items.now self.now }
        requires items { All (IsItem (length timing.now.times) timing.now.processors) items.now }
        requires short { length items.now ≤ 1000000 }
        requires bars { self.now.knows.bars ≤ MOST_MASKS }
        requires index { index < self.now.knows.bars }
        requires here { list_any (nat_eq g) (tuples items.now) ≡ true }
        requires known { has_bit (set_at self.now.since g) index ≡ true }
        requires tuple { g < MOST_TUPLES }
        requires processor { p < MOST_PROCESSORS }
        ensures { Decides result (IsInTimeNext timing.now items.now g p (reference.Bar index)) }
    {
        let Some(latest) = self.latest_since(g, index) else {
            return false;
        };
        if self.is_early(index, p, latest) {
            return false;
        }
        match least_since(timing, index, items).lo(p) {
            Some(earliest) => latest <= earliest,
            None => false,
        }
    }

    /// Whether g has finished since some barrier of the items when processor p can start its next
    /// tuple behind them.
    fn in_time_since_some(&self, timing: &Timing, items: &[Item], g: u8, p: u8) -> bool
        requires ahead { IsAhead timing.now items.now self.now }
        requires items { All (IsItem (length timing.now.times) timing.now.processors) items.now }
        requires short { length items.now ≤ 1000000 }
        requires here { list_any (nat_eq g) (tuples items.now) ≡ true }
        requires tuple { g < MOST_TUPLES }
        requires processor { p < MOST_PROCESSORS }
        requires bars { self.now.knows.bars ≤ MOST_MASKS }
        requires known { (r : ℕ) → has_bit (set_at self.now.since g) r ≡ false → ¬ IsInTimeNext timing.now items.now g p (reference.Bar r) }
        ensures { Decides result (IsInTimeSince self.now.knows.bars timing.now items.now g p) }
    {
        for index in (0..self.knows.bars()).rev() {
            if self.is_known(g, index) {
                if self.in_time_since(timing, items, index, g, p) {
                    return true;
                }
            }
        }
        false
    }

    /// Whether g, one of the items, is ordered before what processor p runs next behind them.
    pub(crate) fn orders(&self, timing: &Timing, items: &[Item], g: u8, p: u8) -> bool
        requires ahead { IsAhead timing.now items.now self.now }
        requires items { All (IsItem (length timing.now.times) timing.now.processors) items.now }
        requires short { length items.now ≤ 1000000 }
        requires bars { length (masks items.now) ≤ MOST_MASKS }
        requires here { list_any (nat_eq g) (tuples items.now) ≡ true }
        requires tuple { g < length timing.now.times }
        requires processor { p < timing.now.processors }
        requires few { length timing.now.times ≤ MOST_TUPLES }
        ensures { Decides result (IsBefore timing.now items.now g p) }
    {
        prove!(timing.processors() <= MOST_PROCESSORS);
        if self.seen.has(p, g) {
            return true;
        }
        if at_most(self.finish(g), self.walk.lo(p)) {
            return true;
        }
        self.in_time_since_some(timing, items, g, p)
    }
}

/// Whether all of the producers are ordered before what processor p runs next behind the items.
fn all_before(timing: &Timing, front: &Front, items: &[Item], producers: &[u8], p: u8) -> bool
    requires ahead { IsAhead timing.now items.now front.now }
    requires items { All (IsItem (length timing.now.times) timing.now.processors) items.now }
    requires short { length items.now ≤ 1000000 }
    requires bars { length (masks items.now) ≤ MOST_MASKS }
    requires here { All (λ g. list_any (nat_eq g) (tuples items.now) ≡ true) producers.now }
    requires tuples { All (λ g. g < length timing.now.times) producers.now }
    requires processor { p < timing.now.processors }
    requires few { length timing.now.times ≤ MOST_TUPLES }
    ensures { Decides result (All (λ g. IsBefore timing.now items.now g p) producers.now) }
{
    for g in producers {
        if !front.orders(timing, items, *g, p) {
            return false;
        }
    }
    true
}

/// Whether the producers of a tuple are ordered before it behind the items.
fn stands_ordered(timing: &Timing, front: &Front, items: &[Item], deps: &Deps, item: Item) -> bool
    requires ahead { IsAhead timing.now items.now front.now }
    requires items { All (IsItem (length timing.now.times) timing.now.processors) items.now }
    requires short { length items.now ≤ 1000000 }
    requires bars { length (masks items.now) ≤ MOST_MASKS }
    requires item { IsItem (length timing.now.times) timing.now.processors item }
    requires stand { ProducersStand deps.now.producers (tuples items.now) item }
    requires few { length timing.now.times ≤ MOST_TUPLES }
    ensures { Decides result (StandsOrdered timing.now deps.now.producers items.now item) }
{
    match item {
        Item::Run { processor, tuple } => all_before(
            timing,
            front,
            items,
            deps.producers(tuple),
            processor,
        ),
        Item::Bar { .. } => true,
    }
}

/// Whether the producers of each tuple from a place on are ordered before it. Most edits fail at the
/// first tuple, so that it is asked for before the front is copied.
pub(crate) fn rest_ordered(
    timing: &Timing,
    start: &Front,
    items: &[Item],
    from: usize,
    deps: &Deps,
) -> bool
    requires ahead { IsAhead timing.now (take from items.now) start.now }
    requires from { from ≤ length items.now }
    requires timed { IsTimed (record { pace = timing.now; line = items.now }) }
    requires order { AreBehind deps.now.producers [] (tuples items.now) }
    ensures { Decides result (RestOrdered timing.now deps.now.producers from items.now) }
{
    if from < items.len() {
        if !stands_ordered(timing, start, &items[..from], deps, items[from]) {
            return false;
        }
    }
    walk_ordered(timing, start, items, from, deps)
}

/// The same, by a copy of the front that is walked on.
fn walk_ordered(timing: &Timing, start: &Front, items: &[Item], from: usize, deps: &Deps) -> bool
    requires ahead { IsAhead timing.now (take from items.now) start.now }
    requires from { from ≤ length items.now }
    requires timed { IsTimed (record { pace = timing.now; line = items.now }) }
    requires order { AreBehind deps.now.producers [] (tuples items.now) }
    ensures { Decides result (RestOrdered timing.now deps.now.producers from items.now) }
{
    let mut front = *start;
    for k in from..items.len() {
        if !stands_ordered(timing, &front, &items[..k], deps, items[k]) {
            return false;
        }
        front.past(timing, items[k]);
    }
    true
}
