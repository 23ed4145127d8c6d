// The lists of the processors' masks.
ghost use Rattle.std.specs.Prelude.{◌≡◌, ℕ, ◌+◌, ◌*◌, ◌<◌, ◌≤◌, Bool, true, false, List, length, replicate, get_or, IfOk, Option, None};
ghost use Rattle.std.specs.Prelude.{Some, if◌then◌else◌};
ghost use Rattle.bm_base.specs.Mask.{has_bit};
ghost use Rattle.dbm_unit.specs.Table.{how_many};
ghost use Rattle.dbm_unit.specs.Lists.{led, advanced};

use bm_base::{MOST_PROCESSORS, Mask};
use std::alloc::{AllocError, Global};

/// For each of the 128 processors a list of its masks, linked by index: `first` has the index of
/// the first mask, and the node of mask j and member p, which is the entry `128 * j + p` of `next`,
/// the index of the mask that follows it.
#[derive(Drop)]
pub struct Lists {
    pub first: Vec<Option<usize>>,
    pub next: Vec<Option<usize>>,
}

impl Lists {
    /// Empty lists, with the nodes of so many masks.
    pub fn new(alloc: Global, room: usize) -> Result<Lists, AllocError>
        ensures first { IfOk result (λ lists. lists.first.items ≡ replicate MOST_PROCESSORS None) }
        ensures next { IfOk result (λ lists. lists.next.items ≡ replicate (room * MOST_PROCESSORS) None) }
    {
        let nodes = room.checked_mul(128).ok_or(AllocError)?;
        let first = vec![in alloc; None; 128]?;
        let next = vec![in alloc; None; nodes]?;
        Ok(Lists { first, next })
    }

    /// Empties the lists.
    pub fn clear(&mut self)
        ensures first { self.new.first.items ≡ replicate (length self.old.first.items) None }
        ensures next { self.new.next.items ≡ self.old.next.items }
    {
        self.first.fill(None);
    }

    /// Puts mask j at the front of its members' lists, and says how many they are.
    pub fn lead(&mut self, j: usize, mask: Mask) -> u8
        requires first { length self.old.first.items ≡ MOST_PROCESSORS }
        requires next { j * MOST_PROCESSORS + MOST_PROCESSORS ≤ length self.old.next.items }
        ensures size { result ≡ how_many (has_bit mask) MOST_PROCESSORS }
        ensures members { (p : ℕ) → has_bit mask p ≡ true → p < MOST_PROCESSORS }
        ensures firsts { (p : ℕ) → p < MOST_PROCESSORS → get_or self.new.first.items p None
            ≡ led mask j p (get_or self.old.first.items p None) }
        ensures links { (p : ℕ) → p < MOST_PROCESSORS → has_bit mask p ≡ true → get_or self.new.next.items (j * MOST_PROCESSORS + p) None
            ≡ get_or self.old.first.items p None }
        ensures behind { (k : ℕ) → j * MOST_PROCESSORS + MOST_PROCESSORS ≤ k
            → get_or self.new.next.items k None ≡ get_or self.old.next.items k None }
        ensures first_room { length self.new.first.items ≡ length self.old.first.items }
        ensures next_room { length self.new.next.items ≡ length self.old.next.items }
    {
        let mut size = 0;
        let mut from = 0;
        while let Some(p) = mask.next_member(from) {
            let member = usize::from(p);
            self.next[j * 128 + member] = self.first[member];
            self.first[member] = Some(j);
            size += 1;
            from = p + 1;
        }
        size
    }

    /// Takes mask j from the front of its members' lists.
    pub fn advance(&mut self, j: usize, mask: Mask)
        requires first { length self.old.first.items ≡ MOST_PROCESSORS }
        requires next { j * MOST_PROCESSORS + MOST_PROCESSORS ≤ length self.old.next.items }
        ensures firsts { (p : ℕ) → p < MOST_PROCESSORS → get_or self.new.first.items p None
            ≡ advanced mask (get_or self.old.next.items (j * MOST_PROCESSORS + p) None) p (get_or self.old.first.items p None) }
        ensures first_room { length self.new.first.items ≡ length self.old.first.items }
        ensures next { self.new.next.items ≡ self.old.next.items }
    {
        let mut from = 0;
        while let Some(p) = mask.next_member(from) {
            let member = usize::from(p);
            self.first[member] = self.next[j * 128 + member];
            from = p + 1;
        }
    }
}
