// Sums and greatest numbers of lists.
ghost use Rattle.std.specs.Prelude.{◌≡◌, ℕ, ◌+◌, ◌*◌, ◌≤◌, ◌↔◌, [], length, map, sum, slice_index, IsNone, IfSome, All, Contains};
ghost use Rattle.std.specs.List.{range_with_len};
ghost use Rattle.list_schedule.specs.Job.{greatest};

use bm_base::{MOST_TICKS, MOST_TUPLES};

/// The sum of the times.
pub(crate) fn sum_of(times: &[u32]) -> u32
    requires few { length times.now ≤ MOST_TUPLES }
    requires short { (u : ℕ) → slice_index times.now u ≤ MOST_TICKS }
    ensures { result ≡ sum times.now }
{
    times.iter().sum()
}

/// The greatest of the numbers, where there is one.
fn most_of(numbers: &[u32]) -> Option<u32>
    ensures empty { IsNone result ↔ (numbers.now ≡ []) }
    ensures among { IfSome result (Contains numbers.now) }
    ensures largest { IfSome result (λ most. All (λ number. number ≤ most) numbers.now) }
{
    numbers.iter().copied().max()
}

/// The greatest of the numbers, 0 without one.
pub(crate) fn greatest_of(numbers: &[u32]) -> u32
    ensures { result ≡ greatest numbers.now }
{
    match most_of(numbers) {
        Some(most) => most,
        None => 0,
    }
}

/// The last finish of tuples with these times and starts, 0 without one.
pub(crate) fn last_of(times: &[u32], starts: &[u32]) -> u32
    requires few { length times.now ≤ MOST_TUPLES }
    requires same { length starts.now ≡ length times.now }
    requires short { (u : ℕ) → slice_index times.now u ≤ MOST_TICKS }
    requires early { (u : ℕ) → slice_index starts.now u ≤ MOST_TUPLES * MOST_TICKS }
    ensures { result ≡ greatest (map (λ u. slice_index starts.now u + slice_index times.now u) (range_with_len 0 (length times.now))) }
{
    let mut last = 0u32;
    for t in 0..times.len() as u8 {
        last = last.max(starts[t as usize] + times[t as usize]);
    }
    last
}
