// The processors that can go on.
ghost use Rattle.std.specs.Prelude.{◌≡◌, ◌<◌, ◌≤◌, ◌&&◌, ◌==◌, not, ℕ, nat_lt, slice_get};
ghost use Rattle.bm_base.specs.Mask.{has_bit};
ghost use Rattle.unit_law.specs.State.{is_free, is_wait};
ghost use Rattle.unit_law.specs.Units.{first_from};
ghost use Rattle.unit_law.specs.Canonical.{is_do};
ghost use Rattle.bm_machine.specs.Shown.{work_of};

use crate::actor::{Actor, Task};
use bm_base::{MOST_PROCESSORS, Mask};
use line_model::StreamItem;

/// Whether a processor can go on at this clock.
fn is_free(task: Task, clock: u64) -> bool
    ensures { result ≡ is_free clock (work_of task) }
{
    match task {
        Task::Rest => true,
        Task::Runs { .. } => false,
        Task::Stays { until } => until <= clock,
    }
}

/// Whether this item of a stream is a wait.
fn is_wait(stream: &[StreamItem], place: usize) -> bool
    ensures { result ≡ is_wait (slice_get stream.now place) }
{
    match stream.get(place) {
        Some(StreamItem::Wait) => true,
        _ => false,
    }
}

/// Whether this item of a stream is a tuple.
fn is_do(stream: &[StreamItem], place: usize) -> bool
    ensures { result ≡ is_do (slice_get stream.now place) }
{
    match stream.get(place) {
        Some(StreamItem::Do { .. }) => true,
        _ => false,
    }
}

/// Whether a processor is free before a wait of its stream.
pub(crate) fn is_waiting(stream: &[StreamItem], actor: &Actor, clock: u64) -> bool
    ensures { result ≡ (is_free clock (work_of actor.now.task) && is_wait (slice_get stream.now actor.now.place)) }
{
    is_free(actor.task, clock) && is_wait(stream, actor.place)
}

/// Whether a processor is free before a tuple of its stream.
pub(crate) fn may_start(stream: &[StreamItem], actor: &Actor, clock: u64) -> bool
    ensures { result ≡ (is_free clock (work_of actor.now.task) && is_do (slice_get stream.now actor.now.place)) }
{
    is_free(actor.task, clock) && is_do(stream, actor.place)
}

/// The lowest processor of a set.
pub(crate) fn lowest(mask: Mask) -> Option<u8>
    ensures { result ≡ first_from (has_bit mask) 0 MOST_PROCESSORS }
{
    let number = mask.number();
    if number == 0 {
        None
    } else {
        Some(number.trailing_zeros() as u8)
    }
}

/// A set without one processor.
pub(crate) fn without_one(mask: Mask, p: u8) -> Mask
    requires { p < MOST_PROCESSORS }
    ensures { (q : ℕ) → has_bit result q ≡ (has_bit mask q && not (q == p)) }
{
    let mut one = Mask::empty();
    one.insert(p);
    mask.without(one)
}

/// All processors of a machine that has so many.
pub(crate) fn everyone(processors: u8) -> Mask
    requires some { 1 ≤ processors }
    requires few { processors ≤ MOST_PROCESSORS }
    ensures { (p : ℕ) → has_bit result p ≡ nat_lt p processors }
{
    Mask::of_number(u128::MAX >> (MOST_PROCESSORS - processors))
}
