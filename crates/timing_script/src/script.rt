// The scripts.
ghost use Rattle.std.specs.Prelude.{◌≡◌, ◌≤◌};

use crate::seed::offset_by_seed;
use crate::{Offsets, Timing};
use bm_base::Interval;
use timing_law::duration_by;

/// A rule that gives each instruction its duration: an offset above the least of its interval,
/// modulo the number of durations that the interval has.
#[derive(Drop)]
pub enum Script {
    /// Each instruction takes its least time.
    Least,
    /// Each instruction takes its greatest time.
    Most,
    /// Pseudorandom offsets from a seed, another for each start of each processor.
    Seed {
        /// The seed.
        n: u64,
    },
    /// The offsets of a script file.
    File(Offsets),
}

impl Script {
    ghost use Rattle.timing_script.specs.Script.{offset_of};

    /// How far above the least a duration lies, before it is taken modulo.
    fn offset(&self, processor: u8, k: u64, interval: Interval) -> u64
        requires { interval.least ≤ interval.most }
        ensures { result ≡ offset_of self.now processor k interval }
    {
        match self {
            Script::Least => 0,
            Script::Most => u64::from(interval.most - interval.least),
            Script::Seed { n } => offset_by_seed(*n, processor, k),
            Script::File(offsets) => offsets.at(processor, k),
        }
    }
}

impl Timing for Script {
    ghost use Rattle.timing_script.specs.Script.{script_duration};
    ghost use Rattle.timing_script.specs.Within.{script_duration-within};

    ghost duration = { script_duration };

    fn time(&self, processor: u8, k: u64, interval: Interval) -> u16 {
        duration_by(self.offset(processor, k, interval), interval)
    }

    ghost within = { script_duration-within };
}
