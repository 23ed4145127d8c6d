// Since which barriers the greatest tick of each processor is known.
ghost use Rattle.std.specs.Prelude.{◌≡◌, ℕ, ◌<◌, ◌≤◌, true, All, length};
ghost use Rattle.bm_base.specs.Mask.{has_bit};
ghost use Rattle.time_interval.specs.Knows.{all_know, past_bar_knows, knows_along, knows_nothing};
ghost use Rattle.time_interval.specs.Sets.{seen_by, set_at, knows_of};

use crate::members::next_member;
use crate::seen::{share, with};
use bm_base::{MOST_MASKS, MOST_PROCESSORS, Mask};

/// The barriers since which the last firing and all members are known.
fn all_know(processors: u8, mask: Mask, fired: u128, ups: &[u128]) -> u128
    requires long { processors ≤ length ups.now }
    requires few { processors ≤ MOST_PROCESSORS }
    ensures { (r : ℕ) → has_bit result r ≡ all_know processors mask (has_bit fired) (seen_by ups.now) r }
{
    let mut all = fired;
    let mut p = next_member(mask, 0, processors);
    while p < processors {
        all &= ups[p as usize];
        p = next_member(mask, p + 1, processors);
    }
    all
}

/// How many barriers were passed, and the sets of those since which the last firing and each
/// processor are known.
#[derive(Clone, Copy)]
pub(crate) struct KnownSince {
    bars: u8,
    fired: u128,
    ups: [u128; 128],
}

impl KnownSince {
    /// No barrier was passed.
    pub(crate) fn nothing() -> KnownSince
        ensures { knows_of result ≡ knows_nothing }
    {
        KnownSince {
            bars: 0,
            fired: 0,
            ups: [0; 128],
        }
    }

    /// Behind a barrier.
    pub(crate) fn past_bar(&mut self, processors: u8, mask: Mask)
        requires few { processors ≤ MOST_PROCESSORS }
        requires members { (p : ℕ) → has_bit mask p ≡ true → p < processors }
        requires room { self.old.bars < MOST_MASKS }
        ensures { knows_of self.new ≡ past_bar_knows processors mask (knows_of self.old) }
    {
        let all = with(all_know(processors, mask, self.fired, &self.ups), self.bars);
        share(&mut self.ups, processors, mask, all);
        self.fired = all;
        self.bars += 1;
    }

    /// How many barriers were passed.
    pub(crate) fn bars(&self) -> u8
        ensures { result ≡ self.now.bars }
    {
        self.bars
    }

    /// The barriers since which the greatest tick of a processor is known.
    pub(crate) fn since(&self, p: u8) -> u128
        requires { p < MOST_PROCESSORS }
        ensures { result ≡ set_at self.now.ups p }
    {
        self.ups[p as usize]
    }
}
