// Programs are compiled.
ghost use Rattle.std.specs.Prelude.{◌≡◌, ◌≤◌, ◌<◌, ◌^◌, ◌-◌, IfOk, length};
ghost use Rattle.tuple_ir.specs.Sound.{AreBlocksSound};
ghost use Rattle.src_names.specs.Sizes.{AllFewNodes, statements};
ghost use Rattle.compiled_image.specs.Compiled.{IsCompiled};
ghost use Rattle.compiled_image.specs.Summarised.{IsSummaryOf};
ghost use Rattle.compiled_image.specs.Counts.{Comes, IsMade};

use crate::counting::{of_no_blocks, with_block};
use crate::pairs::{Tally, count_pairs};
use crate::{Plan, plan};
use bm_base::{MOST_TUPLES, Spec};
use bm_report::Summary;
use src_names::Resolved;
use std::alloc::{AllocError, Global};
use stream_image::{Image, ImageBuilder};
use tuple_ir::{Block, Blocks};
use tuple_lower::{lower, lowered_blocks_mean_their_programs};

/// What a program is compiled to.
#[derive(Drop)]
pub struct Compiled {
    /// What the machine runs.
    pub image: Image,
    /// What was counted of it.
    pub summary: Summary,
}

/// A block's plan, and the counts of its conflicting pairs.
#[derive(Drop)]
struct PlannedBlock {
    plan: Plan,
    tally: Tally,
}

/// The plan of a block and the counts of its conflicting pairs. It fails only where memory runs out.
fn planned(alloc: Global, block: &Block, spec: &Spec) -> Result<PlannedBlock, AllocError>
    requires { length block.now.tuples ≤ MOST_TUPLES }
    ensures { IfOk result (λ p. Comes spec.now block.now.tuples p.plan p.tally) }
{
    // Only for its contract.
    let _processors = spec.processors();
    let plan = plan(alloc, block, spec)?;
    let tally = count_pairs(alloc, block, &plan.line, spec)?;
    Ok(PlannedBlock { plan, tally })
}

/// The image and the summary of sound blocks. It fails only where memory runs out.
fn with_plans(alloc: Global, spec: Spec, blocks: Blocks) -> Result<Compiled, AllocError>
    requires sound { AreBlocksSound blocks.names blocks.blocks }
    requires few { length blocks.blocks < 2 ^ 32 - 1 }
    ensures { IfOk result (λ c. IsMade spec blocks.names blocks.blocks c.image c.summary) }
{
    let mut builder = ImageBuilder::new(alloc, spec, blocks.names);
    let mut summary = of_no_blocks();
    for block in blocks.blocks.into_vec() {
        let planned = planned(alloc, &block, &spec)?;
        summary = with_block(&summary, &block, &planned.plan, planned.tally);
        builder.line(block, &planned.plan.line)?;
    }
    match builder.finish() {
        Ok(image) => Ok(Compiled { image, summary }),
        Err(_) => unreachable!(),
    }
}

/// What a program is compiled to on a machine: the image, which is the lowered blocks, each with the
/// streams and the masks of its plan's reduced line, and means what the program means in every run;
/// and its summary.
///
/// # Errors
///
/// `AllocError` where there is no memory for it.
pub fn compile(alloc: Global, program: &Resolved, spec: Spec) -> Result<Compiled, AllocError>
    requires nodes { AllFewNodes program.now.body }
    requires statements { statements program.now.body < 2 ^ 28 }
    ensures image { IfOk result (λ c. IsCompiled spec program.now c.image) }
    ensures summary { IfOk result (λ c. IsSummaryOf spec program.now c.summary) }
{
    // Only for their contracts.
    lowered_blocks_mean_their_programs();
    let _names = program.names();
    let blocks = lower(alloc, program)?;
    let compiled = with_plans(alloc, spec, blocks)?;
    // Only for its contract.
    let _blocks = compiled.image.blocks();
    Ok(compiled)
}
