// The dynamic unit.
ghost use Rattle.std.specs.Prelude.{◌≡◌, ◌<◌, ◌≤◌, ◌^◌, List, [], take, length, IfOk, bit_or};
ghost use Rattle.dbm_unit.specs.Table.{counts};

use crate::lists::Lists;
use crate::ready::Ready;
use bm_base::Mask;
use std::alloc::{AllocError, Global};
use std::marker::Model;
use unit_law::BarrierUnit;

/// A dynamic barrier unit. Contracts see its room, the masks of the block, which of them have
/// fired, and the mask of the processors that wait.
///
/// Each processor has a list of its unfired masks, and each mask the count of the processors that
/// wait and have it at the front of their list. A mask whose count reaches the number of its
/// members goes into a list of ready masks.
#[derive(Drop)]
pub struct Dbm {
    masks: Vec<Mask>,
    loaded: usize,
    fired: Vec<bool>,
    waiting: Mask,
    lists: Lists,
    sizes: Vec<u8>,
    counts: Vec<u8>,
    ready: Ready,
}

impl Model for Dbm {
    ghost use Rattle.std.specs.Prelude.{length, take};
    ghost use Rattle.dbm_unit.specs.Table.{Table};
    ghost use Rattle.dbm_unit.specs.Kept.{IsLinked};

    ghost Value = { Table };

    ghost view = { λ u. record {
      room = length u.masks.items;
      masks = take u.loaded u.masks.items;
      fired = take u.loaded u.fired.items;
      waiting = u.waiting;
    } };

    ghost invariant = { λ u. IsLinked u.masks.items u.loaded u.fired.items u.waiting u.lists.first.items u.lists.next.items u.sizes.items
        u.counts.items u.ready };
}

impl Dbm {
    /// A unit with room for so many masks, and none loaded. It takes all the memory that it will
    /// need.
    pub fn new(alloc: Global, room: usize) -> Result<Dbm, AllocError>
        ensures { IfOk result (λ unit. unit ≡ record { room = room; masks = []; fired = []; waiting = 0 }) }
    {
        let masks = vec![in alloc; Mask::empty(); room]?;
        let fired = vec![in alloc; false; room]?;
        let lists = Lists::new(alloc, room)?;
        let sizes = vec![in alloc; 0; room]?;
        let counts = vec![in alloc; 0; room]?;
        let ready = Ready::new(alloc, room)?;
        Ok(Dbm {
            masks,
            loaded: 0,
            fired,
            waiting: Mask::empty(),
            lists,
            sizes,
            counts,
            ready,
        })
    }

    /// For each mask of the block, in queue order, how many processors wait and have it as their
    /// first unfired mask.
    pub fn counts(&self) -> &[u8]
        ensures { result.now ≡ counts self.now }
    {
        &self.counts[..self.loaded]
    }
}

impl BarrierUnit for Dbm {
    ghost use Rattle.unit_law.specs.Units.{dynamic_choice};
    ghost use Rattle.dbm_unit.specs.Table.{Table};

    ghost queue = { λ u. u.masks };

    ghost fired = { λ u. u.fired };

    ghost waiting = { λ u. u.waiting };

    ghost capacity = { λ u. u.room };

    ghost choice = { λ _ masks fired waiting. dynamic_choice masks fired waiting };

    fn room(&self) -> usize {
        self.masks.len()
    }

    fn load(&mut self, masks: &[Mask]) {
        self.loaded = masks.len();
        self.waiting = Mask::empty();
        self.lists.clear();
        self.ready.clear();
        for j in (0..masks.len()).rev() {
            let mask = masks[j];
            let size = self.lists.lead(j, mask);
            self.masks[j] = mask;
            self.fired[j] = false;
            self.sizes[j] = size;
            self.counts[j] = 0;
            if size == 0 {
                self.ready.insert(j);
            }
        }
    }

    fn arrive(&mut self, p: u8) {
        self.waiting.insert(p);
        if let Some(j) = self.lists.first[usize::from(p)] {
            self.counts[j] += 1;
            if self.counts[j] == self.sizes[j] {
                self.ready.insert(j);
            }
        }
    }

    fn pick(&mut self) -> Option<usize> {
        let j = self.ready.pop()?;
        let mask = self.masks[j];
        self.fired[j] = true;
        self.counts[j] = 0;
        self.waiting = self.waiting.without(mask);
        self.lists.advance(j, mask);
        Some(j)
    }
}
