// Machines, masks, blocks and lines that tests begin with.
ghost use Rattle.std.specs.Prelude.{◌≡◌, ◌<◌, ◌^◌, IfOk, IfSome, bit_or};
ghost use Rattle.bm_base.specs.Spec.{standard};
ghost use Rattle.time_interval.specs.Examples.{divided};
ghost use Rattle.mask_merge.specs.Examples.{divided_tuples};

use bm_base::{Bin, Interval, Mask, Spec, Un};
use line_model::{Item, Items, Line};
use std::alloc::{AllocError, Global};
use tuple_ir::{Block, Next, Tuple, Tuples};

/// The default times.
const TIMES: [Interval; 9] = [
    Interval { least: 1, most: 1 },
    Interval { least: 1, most: 4 },
    Interval { least: 1, most: 2 },
    Interval { least: 1, most: 6 },
    Interval { least: 1, most: 4 },
    Interval { least: 1, most: 1 },
    Interval { least: 2, most: 3 },
    Interval { least: 4, most: 12 },
    Interval { least: 1, most: 1 },
];

/// A machine with the default times, and a delay of the barriers.
pub fn machine(processors: u8, barrier: u8) -> Option<Spec>
    ensures { IfSome result (λ spec. spec ≡ record standard { processors = processors; delay = barrier }) }
{
    Spec::new(processors, barrier, TIMES)
}

/// The mask of two processors.
pub fn pair(a: u8, b: u8) -> Mask
    requires first { a < 128 }
    requires second { b < 128 }
    ensures { result ≡ bit_or (bit_or 0 (2 ^ a)) (2 ^ b) }
{
    let mut mask = Mask::empty();
    mask.insert(a);
    mask.insert(b);
    mask
}

/// A block of these tuples.
pub fn block_of(alloc: Global, tuples: &[Tuple]) -> Result<Block, AllocError>
    ensures { IfOk result (λ block. block.tuples ≡ tuples.now) }
{
    let mut list = Tuples::new(alloc);
    for tuple in tuples {
        list.push(*tuple)?;
    }
    Ok(Block {
        tuples: list,
        next: Next::Halt,
    })
}

/// A line of these items.
pub fn line_of(alloc: Global, items: &[Item]) -> Result<Line, AllocError>
    ensures { IfOk result (λ line. line.items ≡ items.now) }
{
    let mut list = Items::new(alloc);
    for item in items {
        list.push(*item)?;
    }
    Ok(Line { items: list })
}

/// Two loads are added on processor 0 while processors 2 and 4 divide; the sum and a quotient are
/// negated.
pub fn divided_block(alloc: Global) -> Result<Block, AllocError>
    ensures { IfOk result (λ block. block.tuples ≡ divided_tuples) }
{
    block_of(
        alloc,
        &[
            Tuple::Load { name: 0 },
            Tuple::Load { name: 1 },
            Tuple::Const { value: 6 },
            Tuple::Two {
                op: Bin::Div,
                a: 2,
                b: 2,
            },
            Tuple::Const { value: 2 },
            Tuple::Two {
                op: Bin::Div,
                a: 4,
                b: 4,
            },
            Tuple::Two {
                op: Bin::Add,
                a: 0,
                b: 1,
            },
            Tuple::One { op: Un::Neg, a: 3 },
            Tuple::One { op: Un::Neg, a: 6 },
        ],
    )
}

/// The line of that block.
pub fn divided_line(alloc: Global) -> Result<Line, AllocError>
    ensures { IfOk result (λ line. line.items ≡ divided) }
{
    line_of(
        alloc,
        &[
            Item::Run {
                processor: 0,
                tuple: 0,
            },
            Item::Run {
                processor: 1,
                tuple: 1,
            },
            Item::Run {
                processor: 2,
                tuple: 2,
            },
            Item::Run {
                processor: 2,
                tuple: 3,
            },
            Item::Run {
                processor: 4,
                tuple: 4,
            },
            Item::Run {
                processor: 4,
                tuple: 5,
            },
            Item::Bar { mask: pair(0, 1) },
            Item::Run {
                processor: 0,
                tuple: 6,
            },
            Item::Bar { mask: pair(2, 3) },
            Item::Run {
                processor: 3,
                tuple: 7,
            },
            Item::Run {
                processor: 4,
                tuple: 8,
            },
        ],
    )
}
