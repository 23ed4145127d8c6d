//! From a tree to its resolved program.

ghost use Rattle.std.specs.Prelude.{◌≡◌, ◌≢◌, ◌⊎◌, ◌≤◌, length, IfOk, IfErr, MatchResult};
ghost use Rattle.src_names.specs.declared.fault.NameFault.{NameFault};
ghost use Rattle.src_names.specs.RProgram.{RProgram};
ghost use Rattle.src_names.specs.Declarations.{AreNamedWell};
ghost use Rattle.src_names.specs.Named.{IsNamed};
ghost use Rattle.src_names.specs.Fault.{Faults};

use crate::body::name_body;
use crate::declare::declare_all;
use crate::fault::NameFault;
use crate::resolved::Resolved;
use bm_base::{MOST_NAMES, Names};
use src_tree::Program;
use std::alloc::Global;

/// The resolved program of a tree of at most 1024 declarations.
fn name_program(alloc: Global, program: &Program) -> Result<Resolved, NameFault>
    requires few { length program.now.decls ≤ MOST_NAMES }
    requires well { AreNamedWell program.now.decls }
    ensures ok { IfOk result (λ r. IsNamed program.now r) }
    ensures err { IfErr result (λ e. (e ≢ NameFault.Memory) → Faults program.now e) }
{
    let mut names = Names::new(alloc);
    declare_all(&mut names, program.decls.as_slice())?;
    let body = name_body(alloc, &names, program.body.as_slice())?;
    Ok(Resolved::new(names, body))
}

/// The resolved program of a tree: its declared names, and its statements with a number in the
/// place of each identifier.
///
/// # Errors
///
/// The first in this order: there are over 1024 declarations; the first declaration in the order of
/// the text whose name is declared before it, or whose array has no element or no room; the first
/// use of a name in the order of the text that is not declared, or not as what it is used as. Want
/// of memory may come for any tree.
pub fn resolve(alloc: Global, program: &Program) -> Result<Resolved, NameFault>
    requires { AreNamedWell program.now.decls }
    // What is given, the tree is named by.
    ensures found { IfOk result (λ r. IsNamed program.now r) }
    // What the tree is named by is given, unless memory runs out.
    ensures only { (r : RProgram) → IsNamed program.now r → MatchResult result (λ x. x ≡ r) (λ e. e ≡ NameFault.Memory) }
    // A fault is the first, and where there is one, it is told.
    ensures fault { IfErr result (λ e. (e ≢ NameFault.Memory) → Faults program.now e) }
    ensures only_fault { (e : NameFault) → Faults program.now e → MatchResult result (λ _. ⊥) (λ x. (x ≡ e) ⊎ (x ≡ NameFault.Memory)) }
{
    let count = program.decls.len();
    if count > MOST_NAMES {
        let count = count.min(u32::MAX as usize) as u32;
        return Err(NameFault::TooManyNames { count });
    }
    name_program(alloc, program)
}
