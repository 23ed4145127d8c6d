// What the test of a block means, and what the line of streams and masks has.
ghost use Rattle.stream_image.specs.Keeps.{IsTest};
ghost use Rattle.stream_image.specs.Firsts.{IsTold};
ghost use Rattle.stream_image.specs.Again.{AreBuiltAgain};
ghost use Rattle.stream_image.specs.Laws.{LinesHaveTheirStreams, LinesHaveTheirMasks, LinesAreTheirOwn};
ghost use Rattle.stream_image.specs.Laws.{ImagesAreDeterminate, RefusedBlocksAreNotAccepted};

/// `first_fault` is none exactly where a block keeps all.
pub fn test_is_what_a_block_keeps()
    ensures { IsTest }
{}

/// The fault that `first_fault` tells stands, and none that comes before it in the order of
/// `ImageFault` or in its place.
pub fn told_fault_is_the_first()
    ensures { IsTold }
{}

/// Where each processor has as many waits as masks, the line of streams and masks has these streams
/// and these masks, and so is the line of its own.
pub fn lines_have_their_streams()
    ensures streams { LinesHaveTheirStreams }
    ensures masks { LinesHaveTheirMasks }
    ensures own { LinesAreTheirOwn }
{}

/// Every image is determinate: on every lawful unit, whatever the times within their intervals and the
/// order of simultaneous steps, each producer finishes before its consumer starts, no run is stuck,
/// and memory and output are those of the serial order, within the stated bounds of time and steps.
pub fn images_are_determinate()
    ensures { ImagesAreDeterminate }
{}

/// A block is never both refused and accepted, so it is refused exactly where it is not accepted.
pub fn refused_blocks_are_not_accepted()
    ensures { RefusedBlocksAreNotAccepted }
{}

/// An image's own blocks with their streams and masks, given again in their order, are never refused,
/// and give the image again.
pub fn images_are_built_again()
    ensures { AreBuiltAgain }
{}
