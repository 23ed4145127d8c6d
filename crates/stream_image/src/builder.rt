// Images are built, block by block.
ghost use Rattle.std.specs.Prelude.{◌≡◌, ◌<◌, ◌≤◌, ◌+◌, ◌-◌, ◌^◌, ◌⊎◌, None, Some, IfErr, IfOk, OnErr, OnOk, length, map, []};
ghost use Rattle.unit_law.specs.Determinate.{IsDeterminate};
ghost use Rattle.stream_image.specs.declared.fault.ImageFault.TheVariants as fault;
ghost use Rattle.stream_image.specs.Image.{IsImage, IsKept, with_line, with_streams};
ghost use Rattle.stream_image.specs.Line.{AreIncreasing};
ghost use Rattle.stream_image.specs.Refused.{IsAccepted, IsRefused, target_fault};
ghost use Rattle.stream_image.specs.Refused as spec;

use crate::bytes::streams_are_bytes;
use crate::check::first_fault;
use crate::fault::ImageFault;
use crate::given::Stream;
use crate::image::{Image, machine_is_lawful};
use crate::order::order_fault;
use crate::shelf::Shelf;
use bm_base::{MOST_MASKS, MOST_TUPLES, Mask, Names, Spec};
use line_model::Line;
use std::alloc::{AllocError, Global};
use std::marker::Model;
use tuple_ir::{Block, Next};

/// An image that is built. Contracts see what the machine will run, so far.
#[derive(Drop)]
pub struct ImageBuilder {
    alloc: Global,
    spec: Spec,
    names: Names,
    held: Shelf,
}

impl Model for ImageBuilder {
    ghost use Rattle.unit_law.specs.State.{Program};
    ghost use Rattle.stream_image.specs.Held.{program_of, AreHeld};

    ghost Value = { Program };

    ghost view = { λ i. program_of i.spec i.names i.held };

    ghost invariant = { λ i. AreHeld i.spec i.names i.held };
}

impl ImageBuilder {
    /// No blocks yet, for a machine and its names. It takes no memory.
    pub fn new(alloc: Global, spec: Spec, names: Names) -> ImageBuilder
        ensures { result ≡ record { machine = spec; names = names; blocks = []; lines = [] } }
    {
        ImageBuilder {
            alloc,
            spec,
            names,
            held: Shelf::new(alloc),
        }
    }

    /// One block more, with its streams in increasing order of processors and its masks in queue
    /// order. Its line is theirs.
    ///
    /// # Errors
    ///
    /// The first cause in the order of `ImageFault` for which the block is refused, or `Memory`, which
    /// an image of more than 2^32 - 1 tuples, masks, streams or stream items answers too. The builder
    /// is then unchanged, and the block gone.
    pub fn block(
        &mut self,
        block: Block,
        streams: &[Stream],
        masks: &[Mask],
    ) -> Result<(), ImageFault>
        requires tuples { length block.tuples ≤ MOST_TUPLES }
        requires masks { length masks.now ≤ MOST_MASKS }
        requires increasing { AreIncreasing streams.now }
        requires room { length self.old.blocks < 2 ^ 32 - 1 }
        ensures ok { OnOk result (self.new ≡ with_streams self.old block streams.now masks.now) }
        ensures accepted { OnOk result (IsAccepted self.old block streams.now masks.now) }
        ensures err { OnErr result (self.new ≡ self.old) }
        ensures refused { IfErr result (λ f. (f ≡ fault.Memory) ⊎ IsRefused self.old block streams.now masks.now f) }
    {
        // Only for its contract.
        streams_are_bytes(streams);
        let number = self.held.len() as u32;
        let n = self.spec.processors();
        if let Some(fault) = first_fault(
            number,
            &self.names,
            n,
            block.tuples.items(),
            block.next,
            streams,
            masks,
        ) {
            return Err(fault);
        }
        match order_fault(self.alloc, number, &block, streams, masks, &self.spec) {
            Ok(None) => {}
            Ok(Some(fault)) => return Err(fault),
            Err(_) => return Err(ImageFault::Memory),
        }
        match self.hold(&block, streams, masks) {
            Ok(()) => Ok(()),
            Err(_) => Err(ImageFault::Memory),
        }
    }

    /// Holds one block more with its streams and masks; want of memory changes nothing.
    fn hold(&mut self, block: &Block, streams: &[Stream], masks: &[Mask]) -> Result<(), AllocError>
        requires accepted { IsAccepted self.old block.now streams.now masks.now }
        requires tuples { length block.now.tuples ≤ MOST_TUPLES }
        requires masks { length masks.now ≤ MOST_MASKS }
        requires increasing { AreIncreasing streams.now }
        requires room { length self.old.blocks < 2 ^ 32 - 1 }
        ensures ok { OnOk result (self.new ≡ with_streams self.old block.now streams.now masks.now) }
        ensures err { OnErr result (self.new ≡ self.old) }
    {
        // Only for their contracts.
        streams_are_bytes(streams);
        let _processors = self.spec.processors();
        self.held.push(block, streams, masks)
    }

    /// One block more, with the streams and masks of a line in which it keeps the stream invariant.
    /// Its line is the one of these streams and masks. It fails only where memory runs out, as for
    /// `block`, and then the builder is unchanged, and the block gone.
    pub fn line(&mut self, block: Block, line: &Line) -> Result<(), AllocError>
        requires kept { IsKept self.old.machine self.old.names block line.now.items }
        requires room { length self.old.blocks < 2 ^ 32 - 1 }
        ensures ok { OnOk result (self.new ≡ with_line self.old block line.now.items) }
        ensures err { OnErr result (self.new ≡ self.old) }
    {
        self.held.push_line(&block, self.spec.processors(), line)
    }

    /// The image of the blocks. It is determinate: on every lawful unit, whatever the times within
    /// their intervals and the order of simultaneous steps, each producer finishes before its consumer
    /// starts, no run is stuck, and memory and output are those of the serial order.
    ///
    /// # Errors
    ///
    /// `Target` exactly where a next leads to no block.
    pub fn finish(self) -> Result<Image, ImageFault>
        requires some { 1 ≤ length self.blocks }
        ensures ok { IfOk result (λ image. image ≡ self) }
        ensures whole { OnOk result (target_fault self.blocks ≡ None) }
        ensures err { IfErr result (λ f. target_fault self.blocks ≡ Some f) }
        ensures lawful { IfOk result IsImage }
        ensures determinate { IfOk result IsDeterminate }
    {
        // Only for their contracts.
        machine_is_lawful(&self.spec);
        let _names = self.names.len();
        if let Some(fault) = target_fault(&self.held) {
            return Err(fault);
        }
        Ok(Image {
            spec: self.spec,
            names: self.names,
            held: self.held,
        })
    }
}

/// The first target of a next that is none of so many blocks.
fn bad_target(count: u32, next: Next) -> Option<u32>
    ensures { result ≡ spec.bad_target count next }
{
    match next {
        Next::Halt => None,
        Next::Goto { block } => if block < count { None } else { Some(block) },
        Next::If { yes, no, .. } => if yes >= count {
            Some(yes)
        } else if no >= count {
            Some(no)
        } else {
            None
        },
    }
}

/// The first target of a block's next that is none of them.
fn target_fault(held: &Shelf) -> Option<ImageFault>
    requires { length held.now < 2 ^ 32 }
    ensures { result ≡ spec.target_fault (map (λ h. h.block) held.now) }
{
    for number in 0..held.len() {
        if let Some(target) = bad_target(held.len() as u32, held.next(number)) {
            return Some(ImageFault::Target {
                block: number as u32,
                target,
            });
        }
    }
    None
}
