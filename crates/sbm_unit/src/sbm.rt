// The static unit.
ghost use Rattle.std.specs.Prelude.{◌≡◌, ◌<◌, ◌≤◌, ◌^◌, List, [], take, length, IfOk, bit_or};

use bm_base::Mask;
use std::alloc::{AllocError, Global};
use std::marker::Model;
use unit_law::BarrierUnit;

/// A static barrier unit. Contracts see its room, the masks of the block, how many of them (from
/// the front) have fired, and the mask of the processors that wait.
#[derive(Drop)]
pub struct Sbm {
    slots: Vec<Mask>,
    count: usize,
    head: usize,
    waiting: Mask,
}

impl Model for Sbm {
    ghost use Rattle.std.specs.Prelude.{◌≤◌, length, take};
    ghost use Rattle.sbm_unit.specs.Queue.{Queue};

    ghost Value = { Queue };

    ghost view = { λ u. record { room = length u.slots.items; masks = take u.count u.slots.items; head = u.head; waiting = u.waiting } };

    ghost invariant = { λ u. (u.count ≤ length u.slots.items) × (u.head ≤ u.count) };
}

impl Sbm {
    /// A unit with room for so many masks, and none loaded. It takes all the memory that it will
    /// need.
    pub fn new(alloc: Global, room: usize) -> Result<Sbm, AllocError>
        ensures { IfOk result (λ unit. unit ≡ record { room = room; masks = []; head = 0; waiting = 0 }) }
    {
        let slots = vec![in alloc; Mask::empty(); room]?;
        Ok(Sbm {
            slots,
            count: 0,
            head: 0,
            waiting: Mask::empty(),
        })
    }
}

impl BarrierUnit for Sbm {
    ghost use Rattle.unit_law.specs.Units.{static_choice};
    ghost use Rattle.sbm_unit.specs.Queue.{Queue, fired_front};

    ghost queue = { λ u. u.masks };

    ghost fired = { λ u. fired_front u.head u.masks };

    ghost waiting = { λ u. u.waiting };

    ghost capacity = { λ u. u.room };

    ghost choice = { λ _ masks fired waiting. static_choice masks fired waiting };

    fn room(&self) -> usize {
        self.slots.len()
    }

    fn load(&mut self, masks: &[Mask]) {
        for (i, mask) in masks.iter().enumerate() {
            self.slots[i] = *mask;
        }
        self.count = masks.len();
        self.head = 0;
        self.waiting = Mask::empty();
    }

    fn arrive(&mut self, p: u8) {
        self.waiting.insert(p);
    }

    fn pick(&mut self) -> Option<usize> {
        if self.head >= self.count {
            return None;
        }
        let mask = self.slots[self.head];
        if !mask.is_within(self.waiting) {
            return None;
        }
        let fired = self.head;
        self.waiting = self.waiting.without(mask);
        self.head = fired + 1;
        Some(fired)
    }
}
