// What has been read of a text so far.
ghost use Rattle.std.specs.Prelude.{◌≡◌, ◌++◌, ◌∷◌, [], List, length, OnOk, IfErr};
ghost use Rattle.bm_base.specs.Spec.{place_of};
ghost use Rattle.stream_file.specs.Fields as fields;
ghost use Rattle.stream_file.specs.Draft as spec;
ghost use Rattle.stream_file.specs.declared.fault.StepFault.{StepFault};
ghost use Rattle.stream_file.specs.Rows.{item_of};
ghost use Rattle.stream_file.specs.Drafted.{drafted, alone, Takes, TakesTo, TakesBlock, TakesLine, Items};
ghost use Rattle.stream_file.specs.Shown.{row};

use crate::cuts::small;
use crate::fault::StepFault;
use crate::line::{Line, line_of};
use bm_base::{
    Class, Interval, Kind, MOST_DELAY, MOST_MASKS, MOST_PROCESSORS, MOST_TUPLES, Mask, Names,
    NamesFault, Sequence, split_at_byte,
};
use line_model::StreamItem;
use std::alloc::Global;
use std::mem;
use stream_image::Stream;
use tuple_ir::{Next, Tuple};

/// Which lines may come next.
#[derive(Clone, Copy, Debug, PartialEq, Eq)]
pub enum Stage {
    /// `bmimd`.
    Version,
    /// `processors`.
    Processors,
    /// `barrier`.
    Barrier,
    /// The next `time`.
    Times,
    /// A name, or the first block.
    Names,
    /// A tuple, and what may follow the tuples.
    Tuples,
    /// A mask, and what may follow the masks.
    Masks,
    /// A stream, or what follows the block.
    Streams,
    /// A further block, or `end`.
    Between,
    /// Nothing.
    Done,
}

/// A block.
#[derive(Drop)]
pub struct BlockDraft {
    pub tuples: Vec<Tuple>,
    pub masks: Vec<Mask>,
    pub streams: Vec<Stream>,
    pub next: Next,
}

/// What the lines so far say, but for the blocks that are complete.
#[derive(Drop)]
pub struct Draft {
    pub(crate) stage: Stage,
    pub(crate) version: u8,
    pub(crate) processors: u8,
    pub(crate) barrier: u8,
    pub(crate) times: Vec<Interval>,
    pub(crate) names: Names,
    pub(crate) tuples: Vec<Tuple>,
    pub(crate) masks: Vec<Mask>,
    pub(crate) streams: Vec<Stream>,
    pub(crate) from: u16,
}

/// One item of a stream.
fn item(bytes: &[u8]) -> Option<StreamItem>
    ensures { result ≡ item_of bytes.now }
{
    if bytes == b"w".as_slice() {
        Some(StreamItem::Wait)
    } else {
        Some(StreamItem::Do {
            tuple: small(bytes)?,
        })
    }
}

fn add(items: &mut Sequence<StreamItem>, item: StreamItem) -> Result<(), StepFault>
    ensures ok { OnOk result (items.new ≡ items.old ++ item ∷ []) }
    ensures err { IfErr result (λ e. e ≡ StepFault.Memory) }
{
    match items.push(item) {
        Ok(()) => Ok(()),
        Err(_) => Err(StepFault::Memory),
    }
}

/// The items of a stream's text.
fn items(alloc: Global, text: &[u8]) -> Result<Sequence<StreamItem>, StepFault>
    ensures { Items (spec.items_of text.now) result }
{
    let mut items = Sequence::new(alloc);
    let mut rest = text;
    let mut more = true;
    while more {
        let (field, found, behind) = split_at_byte(rest, b' ');
        match item(field) {
            Some(item) => add(&mut items, item)?,
            None => return Err(StepFault::Refused),
        }
        rest = behind;
        more = found;
    }
    Ok(items)
}

/// The place of a class among the times.
fn place(class: Class) -> usize
    ensures { result ≡ place_of class }
{
    match class {
        Class::Const => 0,
        Class::Load => 1,
        Class::Store => 2,
        Class::LoadEl => 3,
        Class::StoreEl => 4,
        Class::Alu => 5,
        Class::Mul => 6,
        Class::Div => 7,
        Class::Print => 8,
    }
}

/// That a line was taken which ends no block.
fn alone(taken: Result<(), StepFault>) -> Result<Option<BlockDraft>, StepFault>
    ensures { result ≡ alone taken }
{
    taken?;
    Ok(None)
}

fn fits_processors(version: u8, count: u8) -> bool
    ensures { result ≡ fields.fits_processors version count }
{
    if version == 3 {
        65 <= count && count <= MOST_PROCESSORS
    } else {
        1 <= count && count <= 64
    }
}

fn fits_barrier(version: u8, delay: u8) -> bool
    ensures { result ≡ fields.fits_barrier version delay }
{
    if version == 3 {
        delay <= MOST_DELAY
    } else {
        1 <= delay && delay <= MOST_DELAY
    }
}

fn fits_mask(version: u8, mask: Mask) -> bool
    ensures { result ≡ fields.fits_mask version mask }
{
    version == 3 || mask.number() < 1 << 64
}

impl Draft {
    /// Nothing.
    pub fn new(alloc: Global) -> Draft
        ensures { drafted [] result ≡ spec.start }
    {
        Draft {
            stage: Stage::Version,
            version: 0,
            processors: 0,
            barrier: 0,
            times: Vec::new(alloc),
            names: Names::new(alloc),
            tuples: Vec::new(alloc),
            masks: Vec::new(alloc),
            streams: Vec::new(alloc),
            from: 0,
        }
    }

    /// Whether the text is whole.
    pub fn is_done(&self) -> bool
        ensures { result ≡ spec.is_done self.now.stage }
    {
        matches!(self.stage, Stage::Done)
    }

    fn take_version(&mut self, version: u8) -> Result<(), StepFault>
        ensures { TakesTo (spec.take_version version) self.old self.new result }
    {
        if matches!(self.stage, Stage::Version) && 1 <= version && version <= 3 {
            self.stage = Stage::Processors;
            self.version = version;
            Ok(())
        } else {
            Err(StepFault::Refused)
        }
    }

    fn take_processors(&mut self, count: u8) -> Result<(), StepFault>
        ensures { TakesTo (spec.take_processors count) self.old self.new result }
    {
        if matches!(self.stage, Stage::Processors) && fits_processors(self.version, count) {
            self.stage = if self.version == 1 {
                Stage::Times
            } else {
                Stage::Barrier
            };
            self.processors = count;
            Ok(())
        } else {
            Err(StepFault::Refused)
        }
    }

    fn take_barrier(&mut self, delay: u8) -> Result<(), StepFault>
        ensures { TakesTo (spec.take_barrier delay) self.old self.new result }
    {
        if matches!(self.stage, Stage::Barrier) && fits_barrier(self.version, delay) {
            self.stage = Stage::Times;
            self.barrier = delay;
            Ok(())
        } else {
            Err(StepFault::Refused)
        }
    }

    fn take_time(&mut self, class: Class, time: Interval) -> Result<(), StepFault>
        ensures { TakesTo (spec.take_time class time) self.old self.new result }
    {
        let count = self.times.len();
        if matches!(self.stage, Stage::Times) && place(class) == count {
            if self.times.push(time).is_err() {
                return Err(StepFault::Memory);
            }
            self.stage = if count == 8 {
                Stage::Names
            } else {
                Stage::Times
            };
            Ok(())
        } else {
            Err(StepFault::Refused)
        }
    }

    fn take_name(&mut self, name: &[u8], kind: Kind) -> Result<(), StepFault>
        ensures { TakesTo (spec.take_name (record { name = name.now; kind = kind })) self.old self.new result }
    {
        if !matches!(self.stage, Stage::Names) {
            return Err(StepFault::Refused);
        }
        match self.names.add(name, kind) {
            Ok(_) => Ok(()),
            Err(NamesFault::Memory) => Err(StepFault::Memory),
            Err(_) => Err(StepFault::Refused),
        }
    }

    fn take_opening(&mut self, blocks: u32, number: u32) -> Result<(), StepFault>
        ensures { (bs : List fields.BlockFields) → length bs ≡ blocks
            → Takes (spec.take_opening number (drafted bs self.old)) (λ _. drafted bs self.new) result }
    {
        if matches!(self.stage, Stage::Names | Stage::Between) && number == blocks {
            self.stage = Stage::Tuples;
            Ok(())
        } else {
            Err(StepFault::Refused)
        }
    }

    fn take_tuple(&mut self, tuple: Tuple) -> Result<(), StepFault>
        ensures { TakesTo (spec.take_tuple tuple) self.old self.new result }
    {
        if matches!(self.stage, Stage::Tuples) && self.tuples.len() < MOST_TUPLES {
            match self.tuples.push(tuple) {
                Ok(()) => Ok(()),
                Err(_) => Err(StepFault::Memory),
            }
        } else {
            Err(StepFault::Refused)
        }
    }

    fn take_mask(&mut self, mask: Mask) -> Result<(), StepFault>
        ensures { TakesTo (spec.take_mask mask) self.old self.new result }
    {
        if matches!(self.stage, Stage::Tuples | Stage::Masks)
            && self.masks.len() < MOST_MASKS
            && fits_mask(self.version, mask)
        {
            self.stage = Stage::Masks;
            match self.masks.push(mask) {
                Ok(()) => Ok(()),
                Err(_) => Err(StepFault::Memory),
            }
        } else {
            Err(StepFault::Refused)
        }
    }

    fn take_stream(&mut self, alloc: Global, processor: u8, text: &[u8]) -> Result<(), StepFault>
        ensures { TakesTo (spec.take_stream processor text.now) self.old self.new result }
    {
        if matches!(self.stage, Stage::Tuples | Stage::Masks | Stage::Streams)
            && self.from <= u16::from(processor)
        {
            let items = items(alloc, text)?;
            self.stage = Stage::Streams;
            self.from = u16::from(processor) + 1;
            match self.streams.push(Stream { processor, items }) {
                Ok(()) => Ok(()),
                Err(_) => Err(StepFault::Memory),
            }
        } else {
            Err(StepFault::Refused)
        }
    }

    fn take_next(&mut self, alloc: Global, next: Next) -> Result<BlockDraft, StepFault>
        ensures { TakesBlock (spec.take_next next) self.old self.new result }
    {
        if matches!(self.stage, Stage::Tuples | Stage::Masks | Stage::Streams) {
            let tuples = mem::replace(&mut self.tuples, Vec::new(alloc));
            let masks = mem::replace(&mut self.masks, Vec::new(alloc));
            let streams = mem::replace(&mut self.streams, Vec::new(alloc));
            self.stage = Stage::Between;
            self.from = 0;
            Ok(BlockDraft {
                tuples,
                masks,
                streams,
                next,
            })
        } else {
            Err(StepFault::Refused)
        }
    }

    fn take_end(&mut self) -> Result<(), StepFault>
        ensures { TakesTo spec.take_end self.old self.new result }
    {
        if matches!(self.stage, Stage::Between) {
            self.stage = Stage::Done;
            Ok(())
        } else {
            Err(StepFault::Refused)
        }
    }

    fn step(
        &mut self,
        alloc: Global,
        blocks: u32,
        line: Line,
    ) -> Result<Option<BlockDraft>, StepFault>
        ensures { TakesLine blocks (λ d. spec.step d (row line.entry)) self.old self.new result }
    {
        match line {
            Line::Version { version } => alone(self.take_version(version)),
            Line::Processors { count } => alone(self.take_processors(count)),
            Line::Barrier { delay } => alone(self.take_barrier(delay)),
            Line::Times { class, time } => alone(self.take_time(class, time)),
            Line::Named { name, kind } => alone(self.take_name(name, kind)),
            Line::Opens { number } => alone(self.take_opening(blocks, number)),
            Line::Does { tuple } => alone(self.take_tuple(tuple)),
            Line::Masks { mask } => alone(self.take_mask(Mask::of_number(mask))),
            Line::Streams { processor, items } => alone(self.take_stream(alloc, processor, items)),
            Line::Follows { next } => Ok(Some(self.take_next(alloc, next)?)),
            Line::Ends => alone(self.take_end()),
        }
    }

    /// Takes one line more, without its LF, behind so many blocks; the block that it ends, if it does.
    pub fn take_line(
        &mut self,
        alloc: Global,
        blocks: u32,
        bytes: &[u8],
    ) -> Result<Option<BlockDraft>, StepFault>
        ensures { TakesLine blocks (λ d. spec.take_line d bytes.now) self.old self.new result }
    {
        match line_of(bytes) {
            Some(line) => self.step(alloc, blocks, line),
            None => Err(StepFault::Refused),
        }
    }
}
