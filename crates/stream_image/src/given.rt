// Streams as they are given.
use bm_base::Sequence;
use line_model::StreamItem;

/// The items of a processor, in order. Contracts see the list.
pub type StreamItems = Sequence<StreamItem>;

/// A processor's stream.
#[derive(Drop)]
pub struct Stream {
    /// The processor.
    pub processor: u8,
    /// Its tuples in order, with a wait for each mask that it is a member of.
    pub items: StreamItems,
}
