// The members of a mask, one after the other.
ghost use Rattle.std.specs.Prelude.{◌≤◌};
ghost use Rattle.time_interval.specs.Members.{IsNextBelow};

use bm_base::{MOST_PROCESSORS, Mask};

/// The least member from a processor on and below an end, which it is where there is none.
pub(crate) fn next_member(mask: Mask, from: u8, end: u8) -> u8
    requires order { from ≤ end }
    requires few { end ≤ MOST_PROCESSORS }
    ensures { IsNextBelow mask from end result }
{
    match mask.next_member(from) {
        Some(next) if next < end => next,
        _ => end,
    }
}
