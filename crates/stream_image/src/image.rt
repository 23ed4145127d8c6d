// Images: programs for a barrier machine that keep the stream invariant.
ghost use Rattle.std.specs.Prelude.{◌≡◌, ◌<◌, ◌≤◌, ℕ, IfOk, length};
ghost use Rattle.bm_base.specs.Machine.{IsTime};
ghost use Rattle.bm_base.specs.Spec.{time_of};
ghost use Rattle.line_model.specs.Streams as lines;
ghost use Rattle.unit_law.specs.State.{code_at};
ghost use Rattle.unit_law.specs.Determinate.{IsDeterminate};
ghost use Rattle.stream_image.specs.Held.{most_masks_of};
ghost use Rattle.stream_image.specs.Image.{AreLines, IsImage, IsLawful};
ghost use Rattle.stream_image.specs.Line.{AreOf};
ghost use Rattle.time_interval.specs.Lines.{IsLine};

use crate::given::Stream;
use crate::line::line_of;
use crate::shelf::Shelf;
use bm_base::{Class, Mask, Names, Sequence, Spec};
use line_model::{Line, StreamItem};
use std::alloc::{AllocError, Global};
use std::marker::Model;
use tuple_ir::{Next, Tuple};

/// A program for a barrier machine: the machine, the names, and the blocks with their streams and
/// masks. Contracts see what the machine runs, each line the one of its own streams and masks. An
/// image keeps the stream invariant, and so is determinate.
#[derive(Drop)]
pub struct Image {
    pub(crate) spec: Spec,
    pub(crate) names: Names,
    pub(crate) held: Shelf,
}

impl Model for Image {
    ghost use Rattle.unit_law.specs.State.{Program};
    ghost use Rattle.stream_image.specs.Held.{program_of, AreWhole};

    ghost Value = { Program };

    ghost view = { λ i. program_of i.spec i.names i.held };

    ghost invariant = { λ i. AreWhole i.spec i.names i.held };
}

impl Image {
    /// The machine.
    pub fn spec(&self) -> &Spec
        ensures { result.now ≡ self.now.machine }
    {
        &self.spec
    }

    /// The names.
    pub fn names(&self) -> &Names
        ensures { result.now ≡ self.now.names }
    {
        &self.names
    }

    /// How many blocks, at least one.
    pub fn blocks(&self) -> u32
        ensures value { result ≡ length self.now.blocks }
        ensures lawful { IsImage self.now }
        ensures determinate { IsDeterminate self.now }
        ensures lines { AreLines self.now }
    {
        // Only for their contracts.
        machine_is_lawful(&self.spec);
        let _names = self.names.len();
        self.held.len() as u32
    }

    /// The tuples of a block.
    pub fn tuples(&self, b: u32) -> &[Tuple]
        requires { b < length self.now.blocks }
        ensures { result.now ≡ (code_at self.now b).tuples }
    {
        self.held.tuples(b as usize)
    }

    /// The stream of a processor in a block: its tuples in order, with a wait for each mask that has
    /// it. It is empty for a processor without items.
    pub fn stream(&self, b: u32, p: u8) -> &[StreamItem]
        requires block { b < length self.now.blocks }
        requires processor { p < self.now.machine.processors }
        ensures { result.now ≡ lines.stream p (code_at self.now b).line }
    {
        self.held.stream(b as usize, p)
    }

    /// The masks of a block in queue order.
    pub fn masks(&self, b: u32) -> &[Mask]
        requires { b < length self.now.blocks }
        ensures { result.now ≡ lines.masks (code_at self.now b).line }
    {
        self.held.masks(b as usize)
    }

    /// The streams of the processors in a block.
    fn streams(&self, alloc: Global, b: u32) -> Result<Vec<Stream>, AllocError>
        requires { b < length self.now.blocks }
        ensures { IfOk result (λ given. AreOf self.now.machine.processors (λ p. lines.stream p (code_at self.now b).line) given.items) }
    {
        let mut streams = Vec::new(alloc);
        for p in 0..self.spec().processors() {
            let items = Sequence::from_vec(Vec::from_slice(alloc, self.stream(b, p))?);
            streams.push(Stream {
                processor: p,
                items,
            })?;
        }
        Ok(streams)
    }

    /// The line of a block: the one of its streams and masks. Bounds can be made of it.
    pub fn line(&self, alloc: Global, b: u32) -> Result<Line, AllocError>
        requires { b < length self.now.blocks }
        ensures line { IfOk result (λ line. line.items ≡ (code_at self.now b).line) }
        ensures bounded { IfOk result (λ line. IsLine (length (code_at self.now b).tuples) self.now.machine.processors line.items) }
    {
        // Only for its contract.
        let _blocks = self.blocks();
        let streams = self.streams(alloc, b)?;
        line_of(alloc, self.spec().processors(), &streams, self.masks(b))
    }

    /// What is run after a block.
    pub fn next(&self, b: u32) -> Next
        requires { b < length self.now.blocks }
        ensures { result ≡ (code_at self.now b).next }
    {
        self.held.next(b as usize)
    }

    /// The greatest number of masks of a block.
    pub fn most_masks(&self) -> usize
        ensures value { result ≡ most_masks_of self.now.lines }
        ensures most { (b : ℕ) → length (lines.masks (code_at self.now b).line) ≤ result }
    {
        let mut most = 0;
        for b in 0..self.held.len() {
            let count = self.held.masks(b).len();
            if count > most {
                most = count;
            }
        }
        most
    }
}

/// The time of a class on a machine is lawful.
fn is_time(spec: &Spec, class: Class)
    ensures { IsTime (time_of spec.now class) }
{
    let _ = spec.time(class);
}

/// Every machine is lawful.
pub(crate) fn machine_is_lawful(spec: &Spec)
    ensures { IsLawful spec.now }
{
    let _processors = spec.processors();
    is_time(spec, Class::Const);
    is_time(spec, Class::Load);
    is_time(spec, Class::Store);
    is_time(spec, Class::LoadEl);
    is_time(spec, Class::StoreEl);
    is_time(spec, Class::Alu);
    is_time(spec, Class::Mul);
    is_time(spec, Class::Div);
    is_time(spec, Class::Print);
}
