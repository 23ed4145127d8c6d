// The numbers in streams are bytes.
ghost use Rattle.std.specs.List.{AllByRecursion};
ghost use Rattle.stream_image.specs.Keeps.{AreItems, ItemFits};

use crate::given::Stream;
use line_model::StreamItem;

/// The numbers of these items are bytes.
fn items_are_bytes(items: &[StreamItem])
    ensures { AllByRecursion ItemFits items.now }
{
    for item in items {
        if let StreamItem::Do { tuple } = *item {
            let _tuple = tuple;
        }
    }
}

/// The numbers in these streams are bytes, as all are. It is for proofs, and does nothing.
pub(crate) fn streams_are_bytes(streams: &[Stream])
    ensures { AreItems streams.now }
{
    for stream in streams {
        items_are_bytes(stream.items.items());
    }
}
