// Blocks: rows of tuples with what follows them.
use crate::Tuple;
use bm_base::{Names, Sequence};

/// What is run after a block.
#[derive(Clone, Copy, Debug, PartialEq, Eq)]
pub enum Next {
    /// Nothing: the run ends.
    Halt,
    /// The block of this number.
    Goto { block: u32 },
    /// Block `yes` where the cell of tuple number `cell` is not 0, else block `no`.
    If { cell: u8, yes: u32, no: u32 },
}

/// The tuples of a block, in number order. Contracts see the list.
pub type Tuples = Sequence<Tuple>;

/// Tuples, and what is run after them.
#[derive(Drop)]
pub struct Block {
    /// The tuples; the tuple at place i is tuple number i.
    pub tuples: Tuples,
    /// What is run after the block.
    pub next: Next,
}

/// Blocks in order; the first is where a run begins. Contracts see the list.
pub type BlockList = Sequence<Block>;

/// A lowered program: its names and its blocks.
#[derive(Drop)]
pub struct Blocks {
    /// The declared names, by their numbers.
    pub names: Names,
    /// The blocks, by their numbers.
    pub blocks: BlockList,
}
