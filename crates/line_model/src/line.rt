// Lines, and the streams and the queue that they give.
ghost use Rattle.std.specs.Prelude.{◌≡◌, ◌++◌, ◌∷◌, [], ◌-◌, ◌<◌, IfOk, OnOk, OnErr, length, take, slice_set};
ghost use Rattle.line_model.specs.Streams.{stream, masks, item_for};

use bm_base::{Mask, Sequence};
use std::alloc::{AllocError, Global};

/// One item of a line.
#[derive(Clone, Copy, Debug, PartialEq, Eq)]
pub enum Item {
    /// A processor runs the tuple of this number.
    Run { processor: u8, tuple: u8 },
    /// The members of the mask wait for one another.
    Bar { mask: Mask },
}

/// One item of a processor's stream.
#[derive(Clone, Copy, Debug, PartialEq, Eq)]
pub enum StreamItem {
    /// The tuple of this number is run.
    Do { tuple: u8 },
    /// The processor waits. A wait names no barrier: a processor's k-th wait is for the k-th mask
    /// of the queue that has it.
    Wait,
}

/// The items of a line. Contracts see the list.
pub type Items = Sequence<Item>;

/// A line: the runs and barriers of one block in order.
#[derive(Drop)]
pub struct Line {
    /// The items.
    pub items: Items,
}

/// What the item is to processor p, where it is anything to it.
fn own_item(item: Item, p: u8) -> Option<StreamItem>
    ensures { result ≡ item_for p item }
{
    match item {
        Item::Run { processor, tuple } if processor == p => Some(StreamItem::Do { tuple }),
        Item::Bar { mask } if mask.has(p) => Some(StreamItem::Wait),
        _ => None,
    }
}

impl Line {
    /// Processor p's stream: its tuples in order, with a wait at each barrier that has it. It is
    /// empty for a processor without items.
    pub fn stream(&self, alloc: Global, p: u8) -> Result<Vec<StreamItem>, AllocError>
        ensures { IfOk result (λ items. items.items ≡ stream p self.now.items) }
    {
        let mut items = Vec::new(alloc);
        for item in self.items.items() {
            if let Some(own) = own_item(*item, p) {
                items.push(own)?;
            }
        }
        Ok(items)
    }

    /// The queue of masks: those of the barriers, in order.
    pub fn masks(&self, alloc: Global) -> Result<Vec<Mask>, AllocError>
        ensures { IfOk result (λ queue. queue.items ≡ masks self.now.items) }
    {
        let mut queue = Vec::new(alloc);
        for item in self.items.items() {
            if let Item::Bar { mask } = *item {
                queue.push(mask)?;
            }
        }
        Ok(queue)
    }
}
