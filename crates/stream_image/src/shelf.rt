// Blocks as an image holds them.
ghost use Rattle.std.specs.Prelude.{◌≡◌, ◌≤◌, ◌<◌, ◌++◌, ◌∷◌, [], length, get_or, take, OnOk, OnErr};
ghost use Rattle.line_model.specs.Streams as lines;
ghost use Rattle.stream_image.specs.Columns.{AreColumns, BeginAs, held_in};
ghost use Rattle.stream_image.specs.Flat.{held_at, held_of, held_of_line};
ghost use Rattle.stream_image.specs.Line as spec;

use crate::given::Stream;
use crate::lists::{Lists, start};
use crate::stream_list::StreamList;
use bm_base::Mask;
use line_model::{Item, Line, StreamItem};
use std::alloc::{AllocError, Global};
use std::marker::Model;
use tuple_ir::{Block, Next, Tuple};

/// The columns of the blocks: what is run next, the tuples, the masks in queue order, and where the
/// streams of each block end among those of all. Buffers for the streams and masks of a line.
#[derive(Drop)]
pub(crate) struct Columns {
    nexts: Vec<Next>,
    tuples: Lists<Tuple>,
    masks: Lists<Mask>,
    streams: StreamList,
    ends: Vec<u32>,
    own: Vec<StreamItem>,
    queue: Vec<Mask>,
}

/// Blocks with their streams and masks, one behind another. Contracts see the list. The tuples of all
/// blocks lie in one vector, and so do their masks and the items of their streams.
#[derive(Drop)]
pub(crate) struct Shelf {
    columns: Columns,
}

impl Model for Shelf {
    ghost use Rattle.std.specs.Prelude.{List};
    ghost use Rattle.stream_image.specs.Flat.{HeldBlock};
    ghost use Rattle.stream_image.specs.Columns.{AreColumns, held_in};

    ghost Value = { List HeldBlock };

    ghost view = { λ s. held_in s.columns };

    ghost invariant = { λ s. AreColumns s.columns };
}

/// Puts the masks of a line into the buffer, in the place of what it holds.
fn fill(queue: &mut Vec<Mask>, line: &Line) -> Result<(), AllocError>
    ensures { OnOk result (queue.new.items ≡ lines.masks line.now.items) }
{
    queue.clear();
    for item in line.items.items() {
        if let Item::Bar { mask } = *item {
            queue.push(mask)?;
        }
    }
    Ok(())
}

/// Puts the count of the streams and what is run next behind the others; after an error one of them may
/// stand there.
fn close(
    ends: &mut Vec<u32>,
    nexts: &mut Vec<Next>,
    count: usize,
    next: Next,
) -> Result<(), AllocError>
    ensures ends { OnOk result (ends.new.items ≡ ends.old.items ++ count ∷ []) }
    ensures nexts { OnOk result (nexts.new.items ≡ nexts.old.items ++ next ∷ []) }
    ensures first_ends { take (length ends.old.items) ends.new.items ≡ ends.old.items }
    ensures first_nexts { take (length nexts.old.items) nexts.new.items ≡ nexts.old.items }
{
    let Ok(end) = u32::try_from(count) else {
        return Err(AllocError);
    };
    ends.push(end)?;
    nexts.push(next)?;
    Ok(())
}

impl Columns {
    /// Puts a block with its streams and masks behind the others; after an error some of it may stand
    /// there.
    fn put(&mut self, block: &Block, streams: &[Stream], masks: &[Mask]) -> Result<(), AllocError>
        requires { AreColumns self.old }
        ensures columns { OnOk result (AreColumns self.new) }
        ensures ok { OnOk result (held_in self.new ≡ held_in self.old ++ held_of block.now streams.now masks.now ∷ []) }
        ensures begin { BeginAs self.old self.new }
    {
        self.tuples.push(block.tuples.items())?;
        self.masks.push(masks)?;
        self.streams.push_all(streams)?;
        let count = self.streams.len();
        close(&mut self.ends, &mut self.nexts, count, block.next)
    }

    /// Puts a block with the streams of a line on n processors and its masks behind the others; after
    /// an error some of it may stand there.
    fn put_line(&mut self, block: &Block, n: u8, line: &Line) -> Result<(), AllocError>
        requires { AreColumns self.old }
        ensures columns { OnOk result (AreColumns self.new) }
        ensures ok { OnOk result (held_in self.new ≡ held_in self.old ++ held_of_line block.now n line.now.items ∷ []) }
        ensures begin { BeginAs self.old self.new }
    {
        self.tuples.push(block.tuples.items())?;
        fill(&mut self.queue, line)?;
        self.masks.push(&self.queue)?;
        self.streams.push_own(n, line, &mut self.own)?;
        let count = self.streams.len();
        close(&mut self.ends, &mut self.nexts, count, block.next)
    }

    /// Leaves the first blocks, so many, and the first streams.
    fn cut(&mut self, blocks: usize, streams: usize)
        ensures nexts { self.new.nexts.items ≡ take blocks self.old.nexts.items }
        ensures tuples { self.new.tuples ≡ take blocks self.old.tuples }
        ensures masks { self.new.masks ≡ take blocks self.old.masks }
        ensures streams { self.new.streams ≡ take streams self.old.streams }
        ensures ends { self.new.ends.items ≡ take blocks self.old.ends.items }
    {
        self.nexts.truncate(blocks);
        self.tuples.truncate(blocks);
        self.masks.truncate(blocks);
        self.streams.truncate(streams);
        self.ends.truncate(blocks);
    }
}

impl Shelf {
    /// No blocks. It takes no memory.
    pub(crate) fn new(alloc: Global) -> Shelf
        ensures { result ≡ [] }
    {
        Shelf {
            columns: Columns {
                nexts: Vec::new(alloc),
                tuples: Lists::new(alloc),
                masks: Lists::new(alloc),
                streams: StreamList::new(alloc),
                ends: Vec::new(alloc),
                own: Vec::new(alloc),
                queue: Vec::new(alloc),
            },
        }
    }

    /// How many blocks.
    pub(crate) fn len(&self) -> usize
        ensures { result ≡ length self.now }
    {
        self.columns.nexts.as_slice().len()
    }

    /// What is run after a block.
    pub(crate) fn next(&self, b: usize) -> Next
        requires { b < length self.now }
        ensures { result ≡ (held_at self.now b).block.next }
    {
        self.columns.nexts.as_slice()[b]
    }

    /// The tuples of a block.
    pub(crate) fn tuples(&self, b: usize) -> &[Tuple]
        requires { b < length self.now }
        ensures { result.now ≡ (held_at self.now b).block.tuples }
    {
        self.columns.tuples.list(b)
    }

    /// The masks of a block in queue order.
    pub(crate) fn masks(&self, b: usize) -> &[Mask]
        requires { b < length self.now }
        ensures { result.now ≡ (held_at self.now b).masks }
    {
        self.columns.masks.list(b)
    }

    /// The items of a processor in a block: none where no stream is its own.
    pub(crate) fn stream(&self, b: usize, p: u8) -> &[StreamItem]
        requires { b < length self.now }
        ensures { result.now ≡ spec.items_of (held_at self.now b).streams p }
    {
        let from = start(&self.columns.ends, b);
        let to = self.columns.ends.as_slice()[b] as usize;
        self.columns.streams.find(from, to, p)
    }

    /// Puts a block with its streams and masks behind the others; after an error nothing has changed.
    /// The error is want of memory, or of room for more than 2^32 - 1 tuples, masks or items of
    /// streams.
    pub(crate) fn push(
        &mut self,
        block: &Block,
        streams: &[Stream],
        masks: &[Mask],
    ) -> Result<(), AllocError>
        ensures ok { OnOk result (self.new ≡ self.old ++ held_of block.now streams.now masks.now ∷ []) }
        ensures err { OnErr result (self.new ≡ self.old) }
    {
        let blocks = self.columns.nexts.as_slice().len();
        let before = self.columns.streams.len();
        let done = self.columns.put(block, streams, masks);
        if done.is_err() {
            self.columns.cut(blocks, before);
        }
        done
    }

    /// Puts a block with the streams of a line on n processors and its masks behind the others; after
    /// an error nothing has changed.
    pub(crate) fn push_line(&mut self, block: &Block, n: u8, line: &Line) -> Result<(), AllocError>
        ensures ok { OnOk result (self.new ≡ self.old ++ held_of_line block.now n line.now.items ∷ []) }
        ensures err { OnErr result (self.new ≡ self.old) }
    {
        let blocks = self.columns.nexts.as_slice().len();
        let before = self.columns.streams.len();
        let done = self.columns.put_line(block, n, line);
        if done.is_err() {
            self.columns.cut(blocks, before);
        }
        done
    }
}
