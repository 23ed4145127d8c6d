// Offsets by processor.
ghost use Rattle.std.specs.Prelude.{◌≡◌, ◌++◌, ◌∷◌, ◌<◌, [], OnOk, IfOk, get_or, length, replicate, set};
ghost use Rattle.timing_script.specs.Script.{offset_at};
ghost use Rattle.timing_script.specs.Reading.{pushed};

use std::alloc::{AllocError, Global};
use std::marker::Model;

/// A script file gives offsets to processors from 0 to 255.
const PROCESSORS: usize = 256;

/// The offsets of a script file: for each processor from 0 to 255 a list, in the order of its starts.
/// A contract sees the lists.
#[derive(Drop)]
pub struct Offsets {
    lists: Vec<Vec<u64>>,
}

impl Model for Offsets {
    ghost use Rattle.std.specs.Prelude.{◌≡◌, List, ℕ, map, length};

    ghost Value = { List (List ℕ) };

    ghost view = { λ o. map (λ list. list.items) o.lists.items };

    ghost invariant = { λ o. length o.lists.items ≡ 256 };
}

impl Offsets {
    /// No offsets. The error is want of memory.
    pub(crate) fn new(alloc: Global) -> Result<Offsets, AllocError>
        ensures { IfOk result (λ offsets. offsets ≡ replicate PROCESSORS []) }
    {
        let mut lists = Vec::new(alloc);
        for _ in 0..PROCESSORS {
            lists.push(Vec::new(alloc))?;
        }
        Ok(Offsets { lists })
    }

    /// Puts an offset behind those of a processor.
    pub(crate) fn push(&mut self, processor: u8, offset: u64) -> Result<(), AllocError>
        ensures { OnOk result (self.new ≡ pushed self.old processor offset) }
    {
        self.lists[processor as usize].push(offset)?;
        Ok(())
    }

    /// The offset of the `k`-th instruction that a processor starts; 0 where it has none.
    pub fn at(&self, processor: u8, k: u64) -> u64
        ensures { result ≡ offset_at self.now processor k }
    {
        match self.lists[processor as usize].get(k as usize) {
            Some(offset) => *offset,
            None => 0,
        }
    }
}
