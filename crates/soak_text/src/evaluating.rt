// The evaluation of the source.
ghost use Rattle.std.specs.Prelude.{◌≡◌, pos, IfOk, IfErr, IsOk, OnOk};
ghost use Rattle.bm_base.specs.Memories.{IsMemoryOf};
ghost use Rattle.bm_io.specs.declared.sinks.SinkFault.TheVariants.{Memory};
ghost use Rattle.src_meaning.specs.Meaning.{meaning};
ghost use Rattle.soak_text.specs.Soak.{outcome_of};
ghost use Rattle.soak_text.specs.Parts.{evaluated_of};

use bm_base::Store;
use bm_io::{FoldValues, SinkFault};
use src_meaning::{End, eval};
use src_names::Resolved;
use std::alloc::Global;

/// How many turns of its loops the source is evaluated for.
const TURNS: u64 = 1_000_000;

/// How the source stands after its turns, and what it has printed.
#[derive(Clone, Copy, Debug, PartialEq, Eq)]
pub(crate) struct Evaluated {
    /// Whether it is done.
    pub(crate) end: End,
    /// What it has printed.
    pub(crate) prints: FoldValues,
}

/// The evaluation of a program. It fails only where memory runs out.
pub(crate) fn evaluate(alloc: Global, program: &Resolved) -> Result<Evaluated, SinkFault>
    ensures value { IfOk result (λ evaluated. evaluated ≡ evaluated_of (outcome_of program.now)) }
    ensures starved { IfErr result (λ fault. fault ≡ Memory) }
{
    let mut store = Store::new(alloc, program.names())?;
    let mut prints = FoldValues { count: 0, fold: 0 };
    let end = eval(program, &mut store, TURNS, &mut prints)?;
    Ok(Evaluated { end, prints })
}
