// Rows of producers, and the order of a line's tuples.
ghost use Rattle.std.specs.Prelude.{◌≡◌, ℕ, All, Decides, true, []};
ghost use Rattle.bm_base.specs.Mask.{has_bit};
ghost use Rattle.time_interval.specs.Ahead.{MayStand, has_passed};
ghost use Rattle.time_interval.specs.Lines.{IsItem, tuples};
ghost use Rattle.time_interval.specs.Ordered.{AreBehind};

use crate::seen::{has, with};
use bm_base::{MOST_PROCESSORS, MOST_TUPLES};
use dependence::Deps;
use line_model::Item;

/// Whether each tuple stands behind its producers.
pub(crate) fn in_order(items: &[Item], deps: &Deps) -> bool
    requires { All (IsItem MOST_TUPLES MOST_PROCESSORS) items.now }
    ensures { Decides result (AreBehind deps.now.producers [] (tuples items.now)) }
{
    let mut passed = 0;
    for item in items {
        if !may_stand(*item, deps, passed) {
            return false;
        }
        passed = passed_with(*item, passed);
    }
    true
}

/// Whether the producers of an item are in the set.
fn may_stand(item: Item, deps: &Deps, passed: u128) -> bool
    ensures { Decides result (MayStand deps.now.producers passed item) }
{
    match item {
        Item::Run { tuple, .. } => {
            if tuple as usize >= deps.len() {
                return false;
            }
            all_in(deps.producers(tuple), passed)
        }
        Item::Bar { .. } => true,
    }
}

/// The set with the tuple of an item.
fn passed_with(item: Item, passed: u128) -> u128
    requires { IsItem MOST_TUPLES MOST_PROCESSORS item }
    ensures { (g : ℕ) → has_bit result g ≡ has_passed item (has_bit passed) g }
{
    match item {
        Item::Run { tuple, .. } => with(passed, tuple),
        Item::Bar { .. } => passed,
    }
}

/// Whether all of the numbers are in the set.
fn all_in(numbers: &[u8], set: u128) -> bool
    ensures { Decides result (All (λ g. has_bit set g ≡ true) numbers.now) }
{
    for g in numbers {
        if *g >= 128 {
            return false;
        }
        if !has(set, *g) {
            return false;
        }
    }
    true
}
