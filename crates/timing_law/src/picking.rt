// The durations that offsets pick.
ghost use Rattle.std.specs.Prelude.{◌≡◌, ◌-◌, ◌≤◌, ℕ};
ghost use Rattle.bm_base.specs.declared.spec.Interval.{Interval};
ghost use Rattle.timing_law.specs.Duration as spec;
ghost use Rattle.timing_law.specs.Duration.{IsWithin};
ghost use Rattle.timing_law.specs.Within.{duration_by-within, duration_by-reached};

use bm_base::Interval;

/// The duration, in ticks, that an offset picks of an interval: so many ticks above the least, and
/// round again past the greatest.
pub fn duration_by(offset: u64, interval: Interval) -> u16
    requires { interval.least ≤ interval.most }
    ensures { result ≡ spec.duration_by offset interval }
{
    let span = u64::from(interval.most - interval.least) + 1;
    let above = offset % span;
    interval.least + above as u16
}

/// Every offset picks a duration within the interval, and each duration within it is picked by what
/// it lies above the least.
pub fn offsets_pick_all_durations()
    ensures within { (offset : ℕ) (interval : Interval) → interval.least ≤ interval.most
        → IsWithin interval (spec.duration_by offset interval) }
    ensures reached { (duration : ℕ) (interval : Interval) → IsWithin interval duration
        → spec.duration_by (duration - interval.least) interval ≡ duration }
{}
