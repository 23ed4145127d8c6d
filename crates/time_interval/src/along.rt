// Walks along the items of a line.
ghost use Rattle.std.specs.Prelude.{◌≡◌, ℕ, ◌<◌, ◌≤◌, All, length, take};
ghost use Rattle.time_interval.specs.Bounds.{along, since_bar, nothing, known, front_of_run, processor_of, front_of_bar};
ghost use Rattle.line_model.specs.Reductions.{mask_at};
ghost use Rattle.line_model.specs.Streams.{masks};
ghost use Rattle.time_interval.specs.Places.{place_of_bar};
ghost use Rattle.time_interval.specs.Lines.{IsItem};
ghost use Rattle.time_interval.specs.Steps.{IsUpTo};
ghost use Rattle.time_interval.specs.Walks.{known_of};

use crate::reference::Reference;
use crate::timing::Timing;
use crate::walk::Walk;
use bm_base::{MOST_MASKS, MOST_TICKS, Mask};
use line_model::Item;

/// Walks along items.
fn along(timing: &Timing, walk: &mut Walk, items: &[Item])
    requires items { All (IsItem (length timing.now.times) timing.now.processors) items.now }
    requires few { length items.now ≤ 1000000 }
    requires small { IsUpTo MOST_TICKS (known_of walk.old) }
    ensures value { known_of walk.new ≡ along timing.now (known_of walk.old) items.now }
    ensures small { IsUpTo 2000000000 (known_of walk.new) }
{
    for item in items {
        match *item {
            Item::Run { processor, tuple } => walk.past_run(timing, processor, tuple),
            Item::Bar { mask } => walk.past_bar(timing, mask),
        }
    }
}

/// What is known behind items since one of their barriers.
fn since_bar(timing: &Timing, index: u8, items: &[Item]) -> Walk
    requires items { All (IsItem (length timing.now.times) timing.now.processors) items.now }
    requires few { length items.now ≤ 1000000 }
    ensures value { known_of result ≡ since_bar timing.now index items.now }
    ensures small { IsUpTo 2000000000 (known_of result) }
{
    let mut left = index;
    for (place, item) in items.iter().enumerate() {
        if let Item::Bar { mask } = *item {
            if left == 0 {
                let mut walk = Walk::at_bar(timing, mask);
                along(timing, &mut walk, &items[place + 1..]);
                return walk;
            }
            left -= 1;
        }
    }
    Walk::nothing()
}

/// What is known behind items since a reference.
pub(crate) fn known(timing: &Timing, reference: Reference, items: &[Item]) -> Walk
    requires items { All (IsItem (length timing.now.times) timing.now.processors) items.now }
    requires few { length items.now ≤ 1000000 }
    ensures value { known_of result ≡ known timing.now reference items.now }
    ensures small { IsUpTo 2000000000 (known_of result) }
{
    match reference {
        Reference::Start => {
            let mut walk = Walk::at_start(timing);
            along(timing, &mut walk, items);
            walk
        }
        Reference::Bar { index } => since_bar(timing, index, items),
    }
}

/// The items in front of a tuple, and its processor.
pub fn run_of(items: &[Item], t: u8) -> (&[Item], u8)
    ensures front { result.0.now ≡ front_of_run t items.now }
    ensures processor { result.1 ≡ processor_of t items.now }
{
    for (place, item) in items.iter().enumerate() {
        if let Item::Run { processor, tuple } = *item {
            if tuple == t {
                return (&items[..place], processor);
            }
        }
    }
    (items, 0)
}

/// The items in front of a barrier.
pub(crate) fn front_of_bar(items: &[Item], index: u8) -> &[Item]
    ensures { result.now ≡ front_of_bar index items.now }
{
    let mut left = index;
    for (place, item) in items.iter().enumerate() {
        if let Item::Bar { .. } = *item {
            if left == 0 {
                return &items[..place];
            }
            left -= 1;
        }
    }
    items
}

/// The mask of a barrier.
pub(crate) fn mask_of_bar(items: &[Item], index: u8) -> Mask
    ensures { result ≡ mask_at items.now index }
{
    let mut left = index;
    for item in items {
        if let Item::Bar { mask } = *item {
            if left == 0 {
                return mask;
            }
            left -= 1;
        }
    }
    Mask::empty()
}

/// The place of a barrier.
pub(crate) fn place_of_bar(items: &[Item], index: u8) -> usize
    ensures { result ≡ place_of_bar index items.now }
{
    let mut left = index;
    for (place, item) in items.iter().enumerate() {
        if let Item::Bar { .. } = *item {
            if left == 0 {
                return place;
            }
            left -= 1;
        }
    }
    items.len()
}

/// How many barriers.
pub(crate) fn bars(items: &[Item]) -> u8
    requires { length (masks items.now) ≤ MOST_MASKS }
    ensures { result ≡ length (masks items.now) }
{
    let mut bars = 0;
    for item in items {
        if let Item::Bar { .. } = *item {
            bars += 1;
        }
    }
    bars
}
