//! The names of a tree's declarations.

ghost use Rattle.std.specs.Prelude.{◌≡◌, ◌≢◌, ◌<◌, ◌≤◌, ◌≤ℤ◌, pos, ◌++◌, ◌∷◌, [], length, IfErr, OnOk};
ghost use Rattle.src_names.specs.Declarations.{AreNamedWell, IsNamedWell, AreDeclared, name_of};
ghost use Rattle.bm_base.specs.Names.{AreInRange};
ghost use Rattle.src_names.specs.Fault.{DeclFault, DeclsFault};
ghost use Rattle.src_names.specs.Adding.{cut_of, kind_of, size_of};

use crate::fault::NameFault;
use bm_base::{Kind, MOST_NAMES, Names, NamesFault};
use src_tree::{Decl, Ident};

/// The declared name.
fn name(decl: &Decl) -> &Ident
    ensures { result.now ≡ name_of decl.now }
{
    match decl {
        Decl::Var { name, .. } => name,
        Decl::Array { name, .. } => name,
    }
}

/// A length as `Names` takes it. One that is too large for it is too large for an array too.
fn cut(len: i64) -> u32
    requires { pos 0 ≤ℤ len }
    ensures { result ≡ cut_of len }
{
    if len > i64::from(u32::MAX) {
        u32::MAX
    } else {
        len as u32
    }
}

/// What the name names.
fn kind(decl: &Decl) -> Kind
    requires { IsNamedWell decl.now }
    ensures { result ≡ kind_of decl.now }
{
    match decl {
        Decl::Var { initial, .. } => Kind::Var { initial: *initial },
        Decl::Array { len, .. } => Kind::Array { len: cut(*len) },
    }
}

/// An array's size; 0 for a variable.
fn size(decl: &Decl) -> i64
    ensures { result ≡ size_of decl.now }
{
    match decl {
        Decl::Var { .. } => 0,
        Decl::Array { len, .. } => *len,
    }
}

/// Declares one more name behind those of the earlier declarations.
fn declare(names: &mut Names, earlier: &[Decl], decl: &Decl) -> Result<(), NameFault>
    requires few { length names.old < MOST_NAMES }
    requires well { IsNamedWell decl.now }
    requires declared { AreDeclared earlier.now names.old }
    requires range { AreInRange names.old }
    ensures ok { OnOk result (AreDeclared (earlier.now ++ decl.now ∷ []) names.new) }
    ensures range { OnOk result (AreInRange names.new) }
    ensures err { IfErr result (λ e. (e ≢ NameFault.Memory) → DeclFault earlier.now names.old decl.now e) }
{
    let Ident { text, at } = name(decl);
    match names.add(text.as_slice(), kind(decl)) {
        Ok(_) => Ok(()),
        Err(NamesFault::Twice { first }) => {
            let first = name(&earlier[first as usize]).at;
            Err(NameFault::Twice { at: *at, first })
        }
        Err(NamesFault::Size) => Err(NameFault::ArraySize {
            at: *at,
            n: size(decl),
        }),
        Err(NamesFault::Memory) => Err(NameFault::Memory),
        Err(NamesFault::BadName) => unreachable!(),
        Err(NamesFault::TooMany) => unreachable!(),
    }
}

/// Declares all names, in order.
pub(crate) fn declare_all(names: &mut Names, decls: &[Decl]) -> Result<(), NameFault>
    requires few { length decls.now ≤ MOST_NAMES }
    requires none { names.old ≡ [] }
    requires well { AreNamedWell decls.now }
    ensures ok { OnOk result (AreDeclared decls.now names.new) }
    ensures range { OnOk result (AreInRange names.new) }
    ensures err { IfErr result (λ e. (e ≢ NameFault.Memory) → DeclsFault decls.now e) }
{
    for decl in decls {
        let earlier = &decls[..names.len()];
        declare(names, earlier, decl)?;
    }
    Ok(())
}
