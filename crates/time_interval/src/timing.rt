// How long what is on a line takes.
ghost use Rattle.std.specs.Prelude.{◌≡◌, ◌<◌, ◌≤◌, IfOk, length};
ghost use Rattle.time_interval.specs.Bounds.{Pace, time, pace_on};
ghost use Rattle.time_interval.specs.Steps.{IsPace};

use bm_base::{Interval, MOST_DELAY, MOST_PROCESSORS, MOST_TICKS, Spec};
use std::alloc::{AllocError, Global};
use std::marker::Model;
use tuple_ir::{Tuple, class};

/// How many processors, how long their resuming takes after a mask has fired, and the times of the
/// tuples by number.
#[derive(Drop)]
pub(crate) struct Timing {
    processors: u8,
    delay: u8,
    times: Vec<Interval>,
}

impl Model for Timing {
    ghost use Rattle.time_interval.specs.Bounds.{Pace};
    ghost use Rattle.time_interval.specs.Steps.{IsPace};

    ghost Value = { Pace };

    ghost view = { λ t. record { processors = t.processors; delay = t.delay; times = t.times.items } };

    ghost invariant = { λ t. IsPace (record { processors = t.processors; delay = t.delay; times = t.times.items }) };
}

impl Timing {
    /// The times of tuples on a machine.
    pub(crate) fn of(alloc: Global, tuples: &[Tuple], spec: &Spec) -> Result<Timing, AllocError>
        ensures value { IfOk result (λ t. t ≡ pace_on spec.now tuples.now) }
        ensures numbers { IfOk result IsPace }
    {
        let mut times = Vec::new(alloc);
        for tuple in tuples {
            times.push(spec.time(class(*tuple)))?;
        }
        Ok(Timing {
            processors: spec.processors(),
            delay: spec.barrier(),
            times,
        })
    }

    /// How many processors.
    pub(crate) fn processors(&self) -> u8
        ensures value { result ≡ self.now.processors }
        ensures few { result ≤ MOST_PROCESSORS }
    {
        self.processors
    }

    /// From a firing to the resuming of its members.
    pub(crate) fn delay(&self) -> u32
        ensures value { result ≡ self.now.delay }
        ensures short { result ≤ MOST_DELAY }
    {
        u32::from(self.delay)
    }

    /// The times of a tuple.
    pub(crate) fn time(&self, t: u8) -> Interval
        requires { t < length self.now.times }
        ensures value { result ≡ time self.now t }
        ensures least { result.least ≤ MOST_TICKS }
        ensures most { result.most ≤ MOST_TICKS }
    {
        self.times[t as usize]
    }
}
