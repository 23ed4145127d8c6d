// Blocks that are lowered one after another.
ghost use Rattle.std.specs.Prelude.{◌≡◌, ◌<◌, ◌≤◌, ◌++◌, ◌∷◌, [], length, IfOk, OnOk};
ghost use Rattle.tuple_ir.specs.declared.block.Next.TheVariants as next;
ghost use Rattle.tuple_lower.specs.Blocks.{block, cut, halted};
ghost use Rattle.tuple_lower.specs.Drafted.{continued, with_next};

use bm_base::MOST_TUPLES;
use std::alloc::{AllocError, Global};
use std::marker::Model;
use std::mem;
use tuple_ir::{Block, BlockList, Next, Tuple, Tuples};

/// Blocks that are ended, and the tuples of the current block behind them. Contracts see both as one
/// piece.
#[derive(Drop)]
pub(crate) struct Draft {
    alloc: Global,
    ended: Vec<Block>,
    current: Tuples,
}

impl Model for Draft {
    ghost use Rattle.tuple_lower.specs.Blocks.{Piece};

    ghost Value = { Piece };

    ghost view = { λ d. record { ended = d.ended.items; current = d.current } };
}

impl Draft {
    /// Block 0 is current.
    pub(crate) fn new(alloc: Global) -> Draft
        ensures { result ≡ record { ended = []; current = [] } }
    {
        Draft {
            alloc,
            ended: Vec::new(alloc),
            current: Tuples::new(alloc),
        }
    }

    /// The number of the current block.
    pub(crate) fn number(&self) -> u32
        requires { length self.now.ended < 4294967296 }
        ensures { result ≡ length self.now.ended }
    {
        self.ended.len() as u32
    }

    /// Puts a tuple behind those of the current block and gives its number.
    pub(crate) fn push(&mut self, tuple: Tuple) -> Result<u8, AllocError>
        requires { length self.old.current < MOST_TUPLES }
        ensures pushed { OnOk result (self.new ≡ record { ended = self.old.ended; current = self.old.current ++ tuple ∷ [] }) }
        ensures number { IfOk result (λ cell. cell ≡ length self.old.current) }
    {
        let number = self.current.items().len();
        self.current.push(tuple)?;
        Ok(number as u8)
    }

    /// Ends the current block; a new one is opened and is current.
    pub(crate) fn end_by(&mut self, next: Next) -> Result<(), AllocError>
        ensures { OnOk result (self.new ≡ record { ended = self.old.ended ++ block self.old.current next ∷ []; current = [] }) }
    {
        let tuples = mem::replace(&mut self.current, Tuples::new(self.alloc));
        self.ended.push(Block { tuples, next })?;
        Ok(())
    }

    /// Makes room in the current block for so many tuples more: where they would make it pass 128, it
    /// ends by a goto a new one, which is current.
    pub(crate) fn make_room(&mut self, more: usize) -> Result<(), AllocError>
        requires numbers { length self.old.ended < 4294967295 }
        requires few { more ≤ MOST_TUPLES }
        requires cells { length self.old.current ≤ MOST_TUPLES }
        ensures { OnOk result (self.new ≡ continued self.old (cut more)) }
    {
        if self.current.items().len() + more > MOST_TUPLES {
            let block = self.number() + 1;
            return self.end_by(Next::Goto { block });
        }
        Ok(())
    }

    /// Changes what follows a block that is ended.
    pub(crate) fn set_next(&mut self, number: u32, next: Next)
        requires { number < length self.old.ended }
        ensures { self.new ≡ with_next number next self.old }
    {
        self.ended[number as usize].next = next;
    }

    /// All blocks, the current one with a halt.
    pub(crate) fn finish(self) -> Result<BlockList, AllocError>
        ensures { IfOk result (λ blocks. blocks ≡ halted self) }
    {
        let mut blocks = BlockList::from_vec(self.ended);
        blocks.push(Block {
            tuples: self.current,
            next: Next::Halt,
        })?;
        Ok(blocks)
    }
}
