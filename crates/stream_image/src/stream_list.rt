// Streams, one behind another.
ghost use Rattle.std.specs.Prelude.{◌≡◌, ◌<◌, ◌≤◌, ◌++◌, ◌∷◌, [], length, get_or, take, slice_range, OnOk, OnErr};
ghost use Rattle.line_model.specs.Streams as lines;
ghost use Rattle.line_model.specs.Streams.{item_for};
ghost use Rattle.stream_image.specs.Flat.{no_stream, streams_on};
ghost use Rattle.stream_image.specs.Line as spec;

use crate::given::Stream;
use crate::lists::Lists;
use line_model::{Item, Line, StreamItem};
use std::alloc::{AllocError, Global};
use std::marker::Model;

/// Streams in order. Contracts see the list.
#[derive(Drop)]
pub(crate) struct StreamList {
    processors: Vec<u8>,
    items: Lists<StreamItem>,
}

impl Model for StreamList {
    ghost use Rattle.std.specs.Prelude.{◌≡◌, List, length};
    ghost use Rattle.stream_image.specs.declared.given.Stream.{Stream};
    ghost use Rattle.stream_image.specs.Flat.{streams_of};

    ghost Value = { List Stream };

    ghost view = { λ s. streams_of s.processors.items s.items };

    ghost invariant = { λ s. length s.items ≡ length s.processors.items };
}

/// What the item is to processor p, where it is anything to it.
fn own_item(item: Item, p: u8) -> Option<StreamItem>
    ensures { result ≡ item_for p item }
{
    match item {
        Item::Run { processor, tuple } if processor == p => Some(StreamItem::Do { tuple }),
        Item::Bar { mask } if mask.has(p) => Some(StreamItem::Wait),
        _ => None,
    }
}

/// Puts processor p's items of a line into the buffer, in the place of what it holds.
fn fill(own: &mut Vec<StreamItem>, line: &Line, p: u8) -> Result<(), AllocError>
    ensures { OnOk result (own.new.items ≡ lines.stream p line.now.items) }
{
    own.clear();
    for item in line.items.items() {
        if let Some(one) = own_item(*item, p) {
            own.push(one)?;
        }
    }
    Ok(())
}

impl StreamList {
    /// No streams. It takes no memory.
    pub(crate) fn new(alloc: Global) -> StreamList
        ensures { result ≡ [] }
    {
        StreamList {
            processors: Vec::new(alloc),
            items: Lists::new(alloc),
        }
    }

    /// How many streams.
    pub(crate) fn len(&self) -> usize
        ensures { result ≡ length self.now }
    {
        self.processors.as_slice().len()
    }

    /// The processor of a stream.
    fn processor(&self, k: usize) -> u8
        requires { k < length self.now }
        ensures { result ≡ (get_or self.now k no_stream).processor }
    {
        self.processors.as_slice()[k]
    }

    /// The items of a stream.
    fn items(&self, k: usize) -> &[StreamItem]
        requires { k < length self.now }
        ensures { result.now ≡ (get_or self.now k no_stream).items }
    {
        self.items.list(k)
    }

    /// The items of processor p among the streams from one place to another: none where no stream is
    /// its own.
    pub(crate) fn find(&self, from: usize, to: usize, p: u8) -> &[StreamItem]
        requires order { from ≤ to }
        requires within { to ≤ length self.now }
        ensures { result.now ≡ spec.items_of (slice_range self.now from to) p }
    {
        for k in from..to {
            if self.processor(k) == p {
                return self.items(k);
            }
        }
        &[]
    }

    /// Puts a stream behind the others; after an error nothing has changed.
    fn push(&mut self, processor: u8, items: &[StreamItem]) -> Result<(), AllocError>
        ensures ok { OnOk result (self.new ≡ self.old ++ record { processor = processor; items = items.now } ∷ []) }
        ensures err { OnErr result (self.new ≡ self.old) }
    {
        self.items.push(items)?;
        match self.processors.push(processor) {
            Ok(()) => Ok(()),
            Err(_) => {
                self.items.truncate(self.processors.as_slice().len());
                Err(AllocError)
            }
        }
    }

    /// Puts streams behind the others; after an error some of them may stand there.
    pub(crate) fn push_all(&mut self, streams: &[Stream]) -> Result<(), AllocError>
        ensures ok { OnOk result (self.new ≡ self.old ++ streams.now) }
        ensures begin { take (length self.old) self.new ≡ self.old }
    {
        for stream in streams {
            self.push(stream.processor, stream.items.items())?;
        }
        Ok(())
    }

    /// Puts the streams of a line on n processors behind the others, without the empty ones, by way
    /// of the buffer; after an error some of them may stand there.
    pub(crate) fn push_own(
        &mut self,
        n: u8,
        line: &Line,
        own: &mut Vec<StreamItem>,
    ) -> Result<(), AllocError>
        ensures ok { OnOk result (self.new ≡ self.old ++ streams_on n line.now.items) }
        ensures begin { take (length self.old) self.new ≡ self.old }
    {
        for p in 0..n {
            fill(own, line, p)?;
            if !own.as_slice().is_empty() {
                self.push(p, own)?;
            }
        }
        Ok(())
    }

    /// Leaves the first streams, so many.
    pub(crate) fn truncate(&mut self, count: usize)
        ensures { self.new ≡ take count self.old }
    {
        self.processors.truncate(count);
        self.items.truncate(count);
    }
}
