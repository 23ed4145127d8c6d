// A sink in memory that never fails.
ghost use Rattle.std.specs.Prelude.{◌≡◌, ◌≢◌, ◌+◌, ◌≤◌, Some, Err, [], ◌∷◌, List, ℕ, IsErrOf};
ghost use Rattle.bm_io.specs.declared.sinks.SinkFault.TheVariants.{Failed, Memory};
ghost use Rattle.bm_io.specs.Causes.{HasCause};
ghost use Rattle.bm_io.specs.Sink.{tried, Sent};

use crate::{Sink, SinkFault};
use std::alloc::Global;

/// A sink in memory that never fails, and tells all that it took.
#[derive(Drop)]
pub struct SureSink {
    bytes: Vec<u8>,
    writes: u64,
}

impl SureSink {
    ghost use Rattle.bm_io.specs.SureSink.{sure_bytes, sure_writes};

    /// Took nothing so far. Takes no memory.
    pub fn new(alloc: Global) -> SureSink
        ensures bytes { sure_bytes result ≡ [] }
        ensures writes { sure_writes result ≡ 0 }
    {
        SureSink {
            bytes: Vec::new(alloc),
            writes: 0,
        }
    }

    /// The bytes taken.
    pub fn taken(&self) -> &[u8]
        ensures { result.now ≡ sure_bytes self.now }
    {
        &self.bytes
    }
}

impl Sink for SureSink {
    ghost use Rattle.bm_io.specs.SureSink.{sure_taken};

    ghost taken = { sure_taken };

    ghost faults = { λ _. 0 };

    fn write(&mut self, piece: &[u8]) -> Result<(), SinkFault>
        ensures sent { Sent (sure_taken self.old) (sure_taken self.new) (piece.now ∷ []) result }
        ensures memory { result ≡ Err Memory → sure_taken self.new ≡ tried (sure_taken self.old) }
        ensures cause { HasCause Failed 0 0 result }

        // It never fails.
        ensures sure { result ≢ Err Failed }
    {
        self.writes = self.writes.saturating_add(1);
        self.bytes.extend_from_slice(piece)?;
        Ok(())
    }
}
