//! The program of a seed.

ghost use Rattle.std.specs.Prelude.{◌≡◌, ◌≤◌, ◌<◌, ◌+◌, ◌*◌, ◌++◌, [], ◌∷◌, pos, length, OnOk, IfOk};
ghost use Rattle.src_tree.specs.Plain.{IsPlain};
ghost use Rattle.src_tree.specs.Text.{program_text};
ghost use Rattle.soak_text.specs.GeneratorLaws.{HasProgram};
ghost use Rattle.src_tree.specs.declared.tree.Decl.TheVariants as d;
ghost use Rattle.soak_text.specs.Generator as spec;

use crate::draws::Draws;
use crate::expressions::named;
use crate::generator_laws::{
    generated_texts_are_short, generated_trees_are_named, generated_trees_are_plain,
};
use crate::statements::several;
use crate::{MOST_DECLARATION_BYTES, MOST_ITEM_BYTES};
use bm_base::MOST_STATEMENTS;
use sqlite_items::Items;
use src_tree::{Decl, Program};
use std::alloc::{AllocError, Global};

/// Adds a variable.
fn declare(
    decls: &mut Items<Decl>,
    alloc: Global,
    letter: u8,
    k: u64,
    initial: i64,
) -> Result<(), AllocError>
    requires { k < 10 }
    ensures { OnOk result (decls.new ≡ decls.old ++ d.Var (spec.named letter k) initial ∷ []) }
{
    let name = named(alloc, letter, k)?;
    decls.push(Decl::Var { name, initial })
}

/// Adds an array of 16 elements.
fn declare_array(decls: &mut Items<Decl>, alloc: Global, k: u64) -> Result<(), AllocError>
    requires { k < 10 }
    ensures { OnOk result (decls.new ≡ decls.old ++ d.Array (spec.a k) (pos 16) ∷ []) }
{
    let name = named(alloc, b'a', k)?;
    decls.push(Decl::Array { name, len: 16 })
}

fn variables(alloc: Global) -> Result<Items<Decl>, AllocError>
    ensures { IfOk result (λ ds. ds ≡ spec.variables 8) }
{
    let mut decls = Items::new(alloc);
    for k in 0..8 {
        declare(&mut decls, alloc, b'v', k, 1 + k as i64)?;
    }
    Ok(decls)
}

fn declarations(alloc: Global) -> Result<Items<Decl>, AllocError>
    ensures { IfOk result (λ ds. ds ≡ spec.decls) }
{
    let mut decls = variables(alloc)?;
    declare_array(&mut decls, alloc, 0)?;
    declare_array(&mut decls, alloc, 1)?;
    declare(&mut decls, alloc, b'l', 0, 0)?;
    declare(&mut decls, alloc, b'l', 1, 0)?;
    Ok(decls)
}

/// The program of a seed: its variables and arrays, and a body of this many items, where an item is
/// a statement or two. The same numbers give the same program. Its text is read again as the same
/// program, and has at most [`MOST_ITEM_BYTES`] bytes an item and [`MOST_DECLARATION_BYTES`]
/// for the declarations.
///
/// # Errors
///
/// `AllocError` where there is no memory for the tree.
pub fn generate(alloc: Global, seed: u64, statements: u32) -> Result<Program, AllocError>
    requires { statements ≤ MOST_STATEMENTS }
    ensures tree { IfOk result (λ p. p ≡ spec.generated seed statements) }
    ensures plain { IfOk result (λ p. IsPlain p) }
    ensures named { IfOk result (λ p. HasProgram p) }
    ensures short { IfOk result (λ p. length (program_text p) ≤ MOST_ITEM_BYTES * statements + MOST_DECLARATION_BYTES) }
{
    // Only for their contracts.
    generated_trees_are_plain();
    generated_trees_are_named();
    generated_texts_are_short();
    let decls = declarations(alloc)?;
    let mut draws = Draws { state: seed };
    let body = several(alloc, &mut draws, statements, 2)?;
    Ok(Program { decls, body })
}
