// The blocks of a text, given to a builder as they are read.
ghost use Rattle.std.specs.Prelude.{◌≡◌, ◌++◌, ◌∷◌, ◌-◌, ◌<◌, ◌^◌, [], List, length, IfOk, IfErr};
ghost use Rattle.bm_base.specs.Machine.{IsMachine};
ghost use Rattle.unit_law.specs.State.{Program};
ghost use Rattle.stream_image.specs.declared.fault.ImageFault.TheVariants as found;
ghost use Rattle.stream_file.specs.Fields.{BlockFields};
ghost use Rattle.stream_file.specs.Drafted.{block_fields, machine_drafted, head_drafted, with_block};
ghost use Rattle.stream_file.specs.Images.{IsGiven};
ghost use Rattle.stream_file.specs.Built as spec;

use crate::draft::{BlockDraft, Draft};
use bm_base::{Interval, Spec};
use std::alloc::Global;
use stream_image::{Image, ImageBuilder, ImageFault};
use tuple_ir::{Block, Tuples};

/// What the blocks so far make.
#[derive(Drop)]
pub enum Made {
    /// There is none yet.
    Nothing,
    /// An image of them all.
    Image { image: ImageBuilder },
    /// No image: the first cause.
    Fault { fault: ImageFault },
}

/// How many blocks are complete, and what they make.
#[derive(Drop)]
pub struct Built {
    pub(crate) blocks: u32,
    pub(crate) made: Made,
}

/// The machine with these processors, this delay and these nine times.
fn machine(processors: u8, barrier: u8, times: &[Interval]) -> Spec
    requires { IsMachine (record { processors = processors; delay = barrier; times = times.now }) }
    ensures { result ≡ record { processors = processors; delay = barrier; times = times.now } }
{
    let nine = [
        times[0], times[1], times[2], times[3], times[4], times[5], times[6], times[7], times[8],
    ];
    Spec::new(processors, barrier, nine).unwrap()
}

/// No blocks yet, for the machine and the names that were read.
fn begin(alloc: Global, draft: &Draft) -> Result<ImageBuilder, ImageFault>
    requires { IsMachine (machine_drafted draft.now) }
    ensures ok { IfOk result (λ image. image ≡ head_drafted draft.now) }
    ensures err { IfErr result (λ f. f ≡ found.Memory) }
{
    let machine = machine(draft.processors, draft.barrier, &draft.times);
    match draft.names.copy(alloc) {
        Ok(names) => Ok(ImageBuilder::new(alloc, machine, names)),
        Err(_) => Err(ImageFault::Memory),
    }
}

/// One block more.
fn put(builder: ImageBuilder, one: BlockDraft) -> Made
    requires given { IsGiven (block_fields one) }
    requires room { length builder.blocks < 2 ^ 32 - 1 }
    ensures { (h : Program) (bs : List BlockFields) → spec.AreBuilt h bs builder → spec.Makes h (bs ++ block_fields one ∷ []) result }
{
    let mut image = builder;
    let block = Block {
        tuples: Tuples::from_vec(one.tuples),
        next: one.next,
    };
    match image.block(block, &one.streams, &one.masks) {
        Ok(()) => Made::Image { image },
        Err(fault) => Made::Fault { fault },
    }
}

/// One block more; after a fault it is passed over.
fn add(alloc: Global, draft: &Draft, made: Made, one: BlockDraft) -> Made
    requires { spec.IsOffered draft.now made one }
    ensures { (bs : List BlockFields) → spec.Makes (head_drafted draft.now) bs made
        → spec.Makes (head_drafted draft.now) (bs ++ block_fields one ∷ []) result }
{
    match made {
        Made::Nothing => match begin(alloc, draft) {
            Ok(image) => put(image, one),
            Err(fault) => Made::Fault { fault },
        },
        Made::Image { image } => put(image, one),
        Made::Fault { fault } => Made::Fault { fault },
    }
}

impl Built {
    /// No blocks.
    pub fn new() -> Built
        ensures { (head : Program) → spec.Builds head [] result }
    {
        Built {
            blocks: 0,
            made: Made::Nothing,
        }
    }

    /// One block more, where a line ended one.
    pub fn with(self, alloc: Global, draft: &Draft, ended: Option<BlockDraft>) -> Built
        requires { spec.MayEnd draft.now self ended }
        ensures { (bs : List BlockFields) → spec.Builds (head_drafted draft.now) bs self
            → spec.Builds (head_drafted draft.now) (with_block bs ended) result }
    {
        match ended {
            None => self,
            Some(one) => Built {
                blocks: self.blocks + 1,
                made: add(alloc, draft, self.made, one),
            },
        }
    }
}

/// The image of all blocks.
pub fn finish(made: Made) -> Result<Image, ImageFault>
    requires { spec.IsBegun made }
    ensures { (head : Program) (bs : List BlockFields) → spec.Makes head bs made → spec.Ends head bs result }
{
    match made {
        Made::Nothing => unreachable!(),
        Made::Image { image } => image.finish(),
        Made::Fault { fault } => Err(fault),
    }
}
