// What of a line's front is ordered before the next item of each processor, by processor or by
// barrier.
ghost use Rattle.std.specs.Prelude.{◌≡◌, ℕ, ◌<◌, ◌≤◌, ◌^◌, ◌==◌, ◌||◌, Bool, true, false, All, length, slice_index, bit_or, if◌then◌else◌};
ghost use Rattle.bm_base.specs.Mask.{has_bit};
ghost use Rattle.time_interval.specs.Lines.{IsItem};
ghost use Rattle.time_interval.specs.Seen.{seen_of_members, past_run_seen, past_bar_seen, seen_along, stands_on};
ghost use Rattle.time_interval.specs.Sets.{seen_by, seen_of, set_at};

use crate::members::next_member;
use bm_base::{MOST_PROCESSORS, MOST_TUPLES, Mask};
use line_model::Item;

/// The set with one more number.
pub fn with(set: u128, t: u8) -> u128
    requires { t < MOST_TUPLES }
    ensures { result ≡ bit_or set (2 ^ t) }
{
    set | 1u128 << t
}

/// Whether the number is in the set.
pub fn has(set: u128, t: u8) -> bool
    requires { t < MOST_TUPLES }
    ensures { result ≡ has_bit set t }
{
    (set >> t) & 1 == 1
}

/// The union of the members' sets.
pub fn union_of(processors: u8, mask: Mask, sets: &[u128]) -> u128
    requires long { processors ≤ length sets.now }
    requires few { processors ≤ MOST_PROCESSORS }
    ensures { (g : ℕ) → has_bit result g ≡ seen_of_members processors mask (seen_by sets.now) g }
{
    let mut union = 0;
    let mut p = next_member(mask, 0, processors);
    while p < processors {
        union |= sets[p as usize];
        p = next_member(mask, p + 1, processors);
    }
    union
}

/// Sets the sets of the members.
pub fn share(sets: &mut [u128], processors: u8, mask: Mask, set: u128)
    requires long { processors ≤ length sets.old }
    requires few { processors ≤ MOST_PROCESSORS }
    requires members { (p : ℕ) → has_bit mask p ≡ true → p < processors }
    ensures { (q : ℕ) → set_at sets.new q ≡ (if has_bit mask q then set else set_at sets.old q) }
{
    let mut p = next_member(mask, 0, processors);
    while p < processors {
        sets[p as usize] = set;
        p = next_member(mask, p + 1, processors);
    }
}

/// By processor the set of tuples.
#[derive(Clone, Copy)]
pub(crate) struct Sets {
    sets: [u128; 128],
}

impl Sets {
    /// Nothing.
    pub(crate) fn none() -> Sets
        ensures { seen_of result ≡ (λ p g. false) }
    {
        Sets { sets: [0; 128] }
    }

    /// Behind a tuple.
    pub(crate) fn past_run(&mut self, q: u8, t: u8)
        requires processor { q < MOST_PROCESSORS }
        requires tuple { t < MOST_TUPLES }
        ensures { seen_of self.new ≡ past_run_seen q t (seen_of self.old) }
    {
        self.sets[q as usize] = with(self.sets[q as usize], t);
    }

    /// Behind a barrier.
    pub(crate) fn past_bar(&mut self, processors: u8, mask: Mask)
        requires few { processors ≤ MOST_PROCESSORS }
        requires members { (p : ℕ) → has_bit mask p ≡ true → p < processors }
        ensures { seen_of self.new ≡ past_bar_seen processors mask (seen_of self.old) }
    {
        let union = union_of(processors, mask, &self.sets);
        share(&mut self.sets, processors, mask, union);
    }

    /// Whether processor p has seen tuple t.
    pub(crate) fn has(&self, p: u8, t: u8) -> bool
        requires processor { p < MOST_PROCESSORS }
        requires tuple { t < MOST_TUPLES }
        ensures { result ≡ seen_of self.now p t }
    {
        has(self.sets[p as usize], t)
    }
}

/// What is seen behind items.
pub(crate) fn seen(processors: u8, items: &[Item]) -> Sets
    requires few { processors ≤ MOST_PROCESSORS }
    requires items { All (IsItem MOST_TUPLES processors) items.now }
    ensures { seen_of result ≡ seen_along processors (λ p g. false) items.now }
{
    let mut seen = Sets::none();
    for item in items {
        match *item {
            Item::Run { processor, tuple } => seen.past_run(processor, tuple),
            Item::Bar { mask } => seen.past_bar(processors, mask),
        }
    }
    seen
}

/// Whether tuple t is one of the items, on processor p.
pub fn stands_on(items: &[Item], p: u8, t: u8) -> bool
    ensures { result ≡ stands_on items.now p t }
{
    for item in items {
        if let Item::Run { processor, tuple } = *item {
            if processor == p && tuple == t {
                return true;
            }
        }
    }
    false
}
