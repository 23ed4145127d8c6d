// The reduced line of a small block, worked by hand.
use crate::fixtures::{divided_block, divided_line, machine};
use dependence::conflicts;
use mask_merge::reduce;
use std::alloc::{AllocError, Global};
use std::test::Fail;

fn is_reduced(alloc: Global) -> Result<bool, AllocError> {
    let block = divided_block(alloc)?;
    let line = divided_line(alloc)?;
    let Some(spec) = machine(5, 0) else {
        return Ok(false);
    };
    let deps = conflicts(alloc, &block)?;
    let result = reduce(alloc, &line, &block, &deps, &spec)?;
    Ok(result.items.items() == line.items.items())
}

// Each barrier is needed; merged they would hold the sum up past the tick at which its negation may
// start.
#[test]
fn a_line_that_time_holds_stays(rt: HostRuntime) -> Result<(), Fail> {
    assert!(rt; is_reduced(rt.alloc())?);
    Ok(())
}
