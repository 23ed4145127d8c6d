// The trait of timings.
ghost use Rattle.std.specs.Prelude.{◌≡◌, ◌≤◌, ℕ};
ghost use Rattle.bm_base.specs.declared.spec.Interval.{Interval};
ghost use Rattle.timing_law.specs.Duration.{IsWithin};

use bm_base::Interval;

/// One duration for each instruction of a run, within its interval.
///
/// `duration` is that of the `k`-th instruction that a processor starts in the whole run, `k` from
/// 0, by the instruction's interval. It depends on nothing else.
pub trait Timing: Drop {
    ghost duration: { Self → ℕ → ℕ → Interval → ℕ };

    /// The duration, in ticks, of the `k`-th instruction that this processor starts in the whole run.
    fn time(&self, processor: u8, k: u64, interval: Interval) -> u16
        requires { interval.least ≤ interval.most }
        ensures { result ≡ duration self.now processor k interval };

    ghost within: { (timing : Self) (processor k : ℕ) (interval : Interval) → interval.least ≤ interval.most
        → IsWithin interval (duration timing processor k interval) };
}
