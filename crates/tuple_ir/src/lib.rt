//! The compiler's instructions: tuples, blocks of them, and what they mean in serial order.
//!
//! `specs/` has the meaning: the operands of a tuple in the order of its text (`OperandList`), which
//! tuples conflict (`Conflict`), what a tuple reads, which value it gives and where that goes
//! (`World`), which tuples and blocks are sound (`Sound`), and the outcome of a row of blocks
//! (`Serial`), with small examples.
#![tactic(auto)]

mod block;
mod event;
mod examples;
mod tuple;

ghost use Rattle.std.specs.Prelude.{ℕ, ◌≤◌, List};
ghost use Rattle.bm_base.specs.Memory.{Content};
ghost use Rattle.bm_base.specs.Prefix.{IsPrefixOf};
ghost use Rattle.tuple_ir.specs.declared.block.Block.{Block};
ghost use Rattle.tuple_ir.specs.Serial.{outcome};

pub use block::{Block, BlockList, Blocks, Next, Tuples};
pub use event::Event;
pub use examples::{conflict_examples, serial_examples};
pub use tuple::{Tuple, class, gives_value};

/// More blocks only add output: what some blocks print begins with what fewer of them print.
pub fn more_blocks_only_add_output()
    ensures { (blocks : List Block) (memory : List Content) (j k : ℕ) → j ≤ k
        → IsPrefixOf (outcome blocks memory j).world.output (outcome blocks memory k).world.output }
{}
