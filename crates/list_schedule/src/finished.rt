// A finished schedule and what it tells.
ghost use Rattle.std.specs.Prelude.{◌≡◌, ◌<◌, length, slice_index};

use std::marker::Model;

/// When and on which processor each tuple of a block runs, with the numbers of the whole; all in
/// ticks. Contracts see the plan and these numbers.
#[derive(Drop)]
pub struct Schedule {
    pub(crate) starts: Vec<u32>,
    pub(crate) places: Vec<u8>,
    pub(crate) makespan: u32,
    pub(crate) work: u32,
    pub(crate) longest: u32,
}

impl Model for Schedule {
    ghost use Rattle.list_schedule.specs.Schedule.{Numbered, numbered};

    ghost Value = { Numbered };

    ghost view = { λ s. numbered s.starts.items s.places.items s.makespan s.work s.longest };
}

impl Schedule {
    /// The tick at which tuple t starts, counted from 0; t is the number of a tuple of the block.
    pub fn start(&self, t: u8) -> u32
        requires { t < length self.now.plan.starts }
        ensures { result ≡ slice_index self.now.plan.starts t }
    {
        self.starts[t as usize]
    }

    /// The processor on which tuple t runs, counted from 0; t is the number of a tuple of the block.
    pub fn processor(&self, t: u8) -> u8
        requires { t < length self.now.plan.places }
        ensures { result ≡ slice_index self.now.plan.places t }
    {
        self.places[t as usize]
    }

    /// The tick at which the last tuple finishes, 0 without tuples.
    pub fn makespan(&self) -> u32
        ensures { result ≡ self.now.makespan }
    {
        self.makespan
    }

    /// The sum of all times, in ticks.
    pub fn work(&self) -> u32
        ensures { result ≡ self.now.work }
    {
        self.work
    }

    /// The greatest height, in ticks.
    pub fn longest(&self) -> u32
        ensures { result ≡ self.now.longest }
    {
        self.longest
    }
}
