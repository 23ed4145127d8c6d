// The program of a soak.
ghost use Rattle.std.specs.Prelude.{◌≡◌, ◌≤◌, ◌<◌, ◌^◌, ◌+◌, ◌*◌, IfOk, IfErr, length};
ghost use Rattle.bm_io.specs.declared.sinks.SinkFault.TheVariants.{Memory};
ghost use Rattle.src_names.specs.Sizes.{AllFewNodes, statements as count_statements};
ghost use Rattle.src_tree.specs.Text.{program_text};
ghost use Rattle.src_front.specs.Reads.{Reads};
ghost use Rattle.soak_text.specs.Generator.{generated};

use crate::{
    MOST_DECLARATION_BYTES, MOST_ITEM_BYTES, generate, generated_texts_are_read_back,
    generated_trees_are_named,
};
use bm_base::MOST_STATEMENTS;
use bm_io::SinkFault;
use src_front::{SourceFault, read_source};
use src_names::Resolved;
use src_tree::source;
use std::alloc::{AllocError, Global};

/// The text of the generated tree.
fn generated_text(alloc: Global, seed: u64, statements: u32) -> Result<Vec<u8>, AllocError>
    requires { statements ≤ MOST_STATEMENTS }
    ensures text { IfOk result (λ text. text.items ≡ program_text (generated seed statements)) }
    ensures short { IfOk result (λ text. length text.items ≤ MOST_ITEM_BYTES * MOST_STATEMENTS + MOST_DECLARATION_BYTES) }
{
    let tree = generate(alloc, seed, statements)?;
    source(alloc, &tree)
}

/// The program that the text of the generated tree reads as. It fails only where memory runs out.
pub(crate) fn read_program(alloc: Global, seed: u64, statements: u32) -> Result<Resolved, SinkFault>
    requires { statements ≤ MOST_STATEMENTS }
    ensures read { IfOk result (λ program. Reads (program_text (generated seed statements)) program) }
    ensures nodes { IfOk result (λ program. AllFewNodes program.body) }
    ensures few { IfOk result (λ program. count_statements program.body < 2 ^ 28) }
    ensures starved { IfErr result (λ fault. fault ≡ Memory) }
{
    // Only for their contracts.
    generated_trees_are_named();
    generated_texts_are_read_back();
    let text = generated_text(alloc, seed, statements)?;
    match read_source(alloc, &text) {
        Ok(program) => Ok(program),
        Err(SourceFault::Memory) => Err(SinkFault::Memory),
        Err(SourceFault::Lex(_)) => unreachable!(),
        Err(SourceFault::Parse(_)) => unreachable!(),
        Err(SourceFault::Names(_)) => unreachable!(),
    }
}
