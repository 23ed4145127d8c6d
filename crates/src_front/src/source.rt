//! From a text to its resolved program.

ghost use Rattle.std.specs.Prelude.{◌≡◌, ◌≢◌, ◌⊎◌, ◌≤◌, ◌<◌, ◌^◌, ◌-◌, length, IfOk, IfErr, MatchResult};
ghost use Rattle.src_names.specs.RProgram.{RProgram};
ghost use Rattle.src_names.specs.Sizes.{AllFewNodes, statements};
ghost use Rattle.src_front.specs.declared.fault.SourceFault.{SourceFault};
ghost use Rattle.src_front.specs.Reads.{Reads, FirstFault};

use crate::fault::SourceFault;
use src_lexer::lex;
use src_names::{Resolved, resolve};
use src_parser::parse;
use src_tree::derived_trees_are_plain;
use std::alloc::Global;

/// The resolved program that a text reads as.
///
/// # Errors
///
/// The first fault: that of the bytes; where they spell tokens, that of the tokens; where these
/// derive a tree, that of its names. Want of memory may come for any text.
pub fn read_source(alloc: Global, bytes: &[u8]) -> Result<Resolved, SourceFault>
    requires { length bytes.now < 2 ^ 32 - 1 }
    // What is given, the text reads as.
    ensures found { IfOk result (λ r. Reads bytes.now r) }
    // It has at most 120 nodes a statement, and no more statements than bytes.
    ensures nodes { IfOk result (λ r. AllFewNodes r.body) }
    ensures statements { IfOk result (λ r. statements r.body ≤ length bytes.now) }
    // What the text reads as is given, unless memory runs out.
    ensures only { (r : RProgram) → Reads bytes.now r → MatchResult result (λ x. x ≡ r) (λ e. e ≡ SourceFault.Memory) }
    // A fault is the first, and where there is one, it is told.
    ensures fault { IfErr result (λ e. (e ≢ SourceFault.Memory) → FirstFault bytes.now e) }
    ensures only_fault { (e : SourceFault) → FirstFault bytes.now e
        → MatchResult result (λ _. ⊥) (λ x. (x ≡ e) ⊎ (x ≡ SourceFault.Memory)) }
{
    // Only for its contract.
    derived_trees_are_plain();
    let tokens = lex(alloc, bytes)?;
    let tree = parse(alloc, bytes, &tokens)?;
    Ok(resolve(alloc, &tree)?)
}
