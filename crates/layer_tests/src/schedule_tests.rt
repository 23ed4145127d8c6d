// Schedules of small blocks, worked by hand.
use crate::fixtures::{block_of, machine};
use bm_base::{Bin, Un};
use dependence::conflicts;
use list_schedule::*;
use std::alloc::{AllocError, Global};
use std::test::Fail;
use tuple_ir::Tuple;

fn word(value: i64) -> Tuple {
    Tuple::Const { value }
}

fn negation(a: u8) -> Tuple {
    Tuple::One { op: Un::Neg, a }
}

// Whether the tuples have these starts and processors, and this makespan, work and longest.
fn has_schedule(
    alloc: Global,
    processors: u8,
    tuples: &[Tuple],
    starts: &[u32],
    places: &[u8],
    numbers: [u32; 3],
) -> Result<bool, AllocError> {
    if tuples.len() > 128 || starts.len() != tuples.len() || places.len() != tuples.len() {
        return Ok(false);
    }
    let Some(spec) = machine(processors, 0) else {
        return Ok(false);
    };
    let block = block_of(alloc, tuples)?;
    let deps = conflicts(alloc, &block)?;
    let plan = schedule(alloc, &block, &deps, &spec)?;
    for t in 0..tuples.len() as u8 {
        if plan.start(t) != starts[t as usize] || plan.processor(t) != places[t as usize] {
            return Ok(false);
        }
    }
    Ok([plan.makespan(), plan.work(), plan.longest()] == numbers)
}

// x = 2 + 3; print x;
const SUM: [Tuple; 6] = [
    Tuple::Const { value: 2 },
    Tuple::Const { value: 3 },
    Tuple::Two {
        op: Bin::Add,
        a: 0,
        b: 1,
    },
    Tuple::Store { name: 0, value: 2 },
    Tuple::Load { name: 0 },
    Tuple::Print { value: 4 },
];

#[test]
fn blocks_have_their_schedules(rt: HostRuntime) -> Result<(), Fail> {
    // two chains of one height; the one that is taken first goes on where its constant is
    let chains = [word(1), word(2), negation(1), negation(0)];
    let words = [word(1), word(2), word(3)];
    let table: [(&str, u8, &[Tuple], &[u32], &[u8], [u32; 3]); 6] = [
        (
            "two processors",
            2,
            &SUM,
            &[0, 0, 1, 2, 4, 8],
            &[0, 1, 0, 0, 0, 0],
            [9, 10, 9],
        ),
        (
            "one processor",
            1,
            &SUM,
            &[0, 1, 2, 3, 5, 9],
            &[0, 0, 0, 0, 0, 0],
            [10, 10, 9],
        ),
        (
            "chains",
            2,
            &chains,
            &[0, 0, 1, 1],
            &[0, 1, 1, 0],
            [2, 4, 2],
        ),
        ("ties", 2, &words, &[0, 0, 1], &[0, 1, 0], [2, 3, 1]),
        (
            "more processors than tuples",
            4,
            &words,
            &[0, 0, 0],
            &[0, 1, 2],
            [1, 3, 1],
        ),
        ("no tuples", 2, &[], &[], &[], [0, 0, 0]),
    ];
    for (name, processors, tuples, starts, places, numbers) in table {
        assert!(rt;
            has_schedule(rt.alloc(), processors, tuples, starts, places, numbers)?,
            "{name}"
        );
    }
    Ok(())
}

// The load follows the store of its variable.
#[test]
fn tuples_are_linked_to_the_last_that_touches_the_same(rt: HostRuntime) -> Result<(), Fail> {
    let block = block_of(rt.alloc(), &SUM)?;
    let deps = conflicts(rt.alloc(), &block)?;
    let links = deps.links() == [255, 255, 255, 255, 3, 255].as_slice();
    assert!(rt; links && deps.len() == 6 && deps.pairs() == 5);
    Ok(())
}
