// Why a block, or an image, is refused.
/// Why a block or an image is refused: the first cause in this order.
#[derive(Clone, Copy)]
pub enum ImageFault {
    /// A stream is given for a processor that the machine lacks; the lowest.
    Processor {
        block: u32,
        processor: u8,
    },
    /// A number stands twice in the streams; the first repeat by processor, then place.
    TupleTwice {
        block: u32,
        tuple: u8,
    },
    /// A number is a tuple and in no stream, or in a stream and no tuple; the least.
    TupleMissing {
        block: u32,
        tuple: u8,
    },
    /// An operand is not an earlier value, or a name is not of the right kind; the first tuple, the
    /// first place counted from 0.
    Operand {
        block: u32,
        tuple: u8,
        place: u8,
    },
    /// The cell of `if` is not a value of the block.
    Cell {
        block: u32,
        cell: u8,
    },
    /// The waits of a processor are not as many as the masks that have it; the lowest.
    Waits {
        block: u32,
        processor: u8,
        waits: u64,
        masks: u8,
    },
    /// A mask has no processor; the first.
    MaskEmpty {
        block: u32,
        mask: u8,
    },
    /// A mask has a processor that the machine lacks; the first.
    MaskBit {
        block: u32,
        mask: u8,
    },
    /// Tuples a and b conflict and stand on one processor, b before a; the first by b, then a.
    Order {
        block: u32,
        a: u8,
        b: u8,
    },
    /// Tuples a and b conflict, and a is not ordered before b by processor, by barrier or by time; the
    /// first by b, then a.
    Unordered {
        block: u32,
        a: u8,
        b: u8,
    },
    /// A next leads to no block; the first block, its first such target.
    Target {
        block: u32,
        target: u32,
    },
    /// Memory ran out.
    Memory,
}
