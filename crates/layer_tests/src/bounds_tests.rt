// Bounds of a small line, worked by hand.
use crate::fixtures::{divided_block, divided_line, machine};
use std::alloc::{AllocError, Global};
use std::test::Fail;
use time_interval::*;

// Whether tuple 6 finishes by a tick, so also after its barrier was merged with the next one and
// the change was taken back, and by another tick while it is merged; tuple 8 starts at 5 at the
// earliest, and this is the reason why it comes after tuple 6.
fn divides(
    alloc: Global,
    barrier: u8,
    finish: u32,
    merged: u32,
    reason: Option<Reason>,
) -> Result<bool, AllocError> {
    let block = divided_block(alloc)?;
    let line = divided_line(alloc)?;
    let Some(spec) = machine(5, barrier) else {
        return Ok(false);
    };
    let mut bounds = Bounds::of(alloc, &line, &block, &spec)?;
    let start = bounds.lo(Reference::Start, Point::StartOf { tuple: 8 });
    let before = bounds.up(Reference::Start, Point::FinishOf { tuple: 6 });
    let order = bounds.ordered(6, 8);
    bounds.change(Edit::Merge { index: 0 });
    let between = bounds.up(Reference::Start, Point::FinishOf { tuple: 6 });
    bounds.settle(false);
    let after = bounds.up(Reference::Start, Point::FinishOf { tuple: 6 });
    Ok(
        start == Some(5)
            && order == reason
            && before == Some(finish)
            && between == Some(merged)
            && after == Some(finish),
    )
}

#[test]
fn a_line_that_divides(rt: HostRuntime) -> Result<(), Fail> {
    let by_time = Reason::ByTime {
        reference: Reference::Start,
    };
    assert!(rt; divides(rt.alloc(), 0, 5, 14, Some(by_time))?);
    assert!(rt; divides(rt.alloc(), 2, 7, 16, None)?);
    Ok(())
}
