// What stands in front of each tuple of a line.
ghost use Rattle.std.specs.Prelude.{◌≡◌, ℕ, ◌≤◌, true, All, Contains, nat_eq};
ghost use Rattle.std.specs.List.{IsDistinct};
ghost use Rattle.time_interval.specs.Lines.{IsItem, tuples};
ghost use Rattle.time_interval.specs.Sets.{set_at};
ghost use Rattle.compiled_image.specs.Fronts.{IsFrontOf};

use bm_base::{MOST_PROCESSORS, MOST_TUPLES};
use line_model::Item;
use time_interval::seen::{share, union_of, with};

const MOST: usize = 128;

/// By the tuples' numbers: the tuples in front of each on its processor, and those in front of it that
/// its processor has seen, on its own or behind barriers, as sets of bits.
#[derive(Clone, Copy)]
pub(crate) struct Fronts {
    pub(crate) on: [u128; MOST],
    pub(crate) seen: [u128; MOST],
}

/// What stands in front of each tuple of a line.
pub(crate) fn fronts_in(processors: u8, items: &[Item]) -> Fronts
    requires few { processors ≤ MOST_PROCESSORS }
    requires items { All (IsItem MOST_TUPLES processors) items.now }
    requires once { IsDistinct nat_eq (tuples items.now) }
    ensures { (t : ℕ) → Contains (tuples items.now) t → IsFrontOf processors items.now t (set_at result.on t) (set_at result.seen t) }
{
    let mut on = [0; MOST];
    let mut seen = [0; MOST];
    let mut all = Fronts {
        on: [0; MOST],
        seen: [0; MOST],
    };
    for item in items {
        match *item {
            Item::Run { processor, tuple } => {
                let (p, t) = (processor as usize, tuple as usize);
                all.on[t] = on[p];
                all.seen[t] = seen[p];
                on[p] = with(on[p], tuple);
                seen[p] = with(seen[p], tuple);
            }
            Item::Bar { mask } => {
                let union = union_of(processors, mask, &seen);
                share(&mut seen, processors, mask, union);
            }
        }
    }
    all
}
