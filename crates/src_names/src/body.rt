//! Expressions and statements with a number in the place of each identifier.

ghost use Rattle.std.specs.Prelude.{◌≡◌, IfOk, IfErr};
ghost use Rattle.src_names.specs.Named.{IsVar, IsArray, NamedExpr, NamedStmt, NamedBody};
ghost use Rattle.src_names.specs.Fault as spec;
ghost use Rattle.src_names.specs.Stops.{Stops};
ghost use Rattle.src_names.specs.declared.fault.NameFault.{NameFault};
ghost use Rattle.src_names.specs.declared.resolved.RExpr.TheVariants as e;
ghost use Rattle.src_tree.specs.declared.tree.Stmt.TheVariants as s;

use crate::fault::NameFault;
use crate::resolved::{RExpr, RStmt};
use bm_base::{Bin, Kind, Names, Un};
use sqlite_items::{Boxed, Items};
use src_tree::{Expr, Ident, Stmt};
use std::alloc::Global;

/// The number of a variable.
fn variable(names: &Names, name: &Ident) -> Result<u16, NameFault>
    ensures ok { IfOk result (λ id. IsVar names.now name.now id) }
    ensures err { IfErr result (λ e. spec.UseFault names.now (spec.Plain name.now) e) }
{
    let Some(id) = names.find(name.text.as_slice()) else {
        return Err(NameFault::Unknown { at: name.at });
    };
    match names.kind(id) {
        Kind::Var { .. } => Ok(id),
        Kind::Array { .. } => Err(NameFault::NotScalar { at: name.at }),
    }
}

/// The number of an array.
fn array(names: &Names, name: &Ident) -> Result<u16, NameFault>
    ensures ok { IfOk result (λ id. IsArray names.now name.now id) }
    ensures err { IfErr result (λ e. spec.UseFault names.now (spec.Indexed name.now) e) }
{
    let Some(id) = names.find(name.text.as_slice()) else {
        return Err(NameFault::Unknown { at: name.at });
    };
    match names.kind(id) {
        Kind::Var { .. } => Err(NameFault::NotArray { at: name.at }),
        Kind::Array { .. } => Ok(id),
    }
}

/// The element of an array at an index.
fn element(alloc: Global, name: u16, index: RExpr) -> Result<RExpr, NameFault>
    ensures ok { IfOk result (λ x. x ≡ e.Element name index) }
    ensures err { IfErr result (λ fault. fault ≡ NameFault.Memory) }
{
    let index = Boxed::new(alloc, index)?;
    Ok(RExpr::Element { name, index })
}

/// An operator and its operand.
fn one(alloc: Global, op: Un, a: RExpr) -> Result<RExpr, NameFault>
    ensures ok { IfOk result (λ x. x ≡ e.One op a) }
    ensures err { IfErr result (λ fault. fault ≡ NameFault.Memory) }
{
    let a = Boxed::new(alloc, a)?;
    Ok(RExpr::One { op, a })
}

/// An operator and its operands.
fn two(alloc: Global, op: Bin, a: RExpr, b: RExpr) -> Result<RExpr, NameFault>
    ensures ok { IfOk result (λ x. x ≡ e.Two op a b) }
    ensures err { IfErr result (λ fault. fault ≡ NameFault.Memory) }
{
    match Boxed::new(alloc, a) {
        Ok(a) => match Boxed::new(alloc, b) {
            Ok(b) => Ok(RExpr::Two { op, a, b }),
            Err(_) => {
                drop(a);
                Err(NameFault::Memory)
            }
        },
        Err(_) => {
            drop(b);
            Err(NameFault::Memory)
        }
    }
}

#[tactic(auto, using(crate::proofs::Wrong::of_expressions))]
fn name_expr(alloc: Global, names: &Names, x: &Expr) -> Result<RExpr, NameFault>
    ensures ok { IfOk result (λ named. NamedExpr names.now x.now named) }
    ensures err { IfErr result (λ e. Stops names.now (spec.uses x.now) e) }
{
    match x {
        Expr::Number { value } => Ok(RExpr::Number { value: *value }),
        Expr::Var { name } => Ok(RExpr::Var {
            name: variable(names, name)?,
        }),
        Expr::Element { name, index } => {
            let name = array(names, name)?;
            let index = name_expr(alloc, names, index.get())?;
            element(alloc, name, index)
        }
        Expr::One { op, a } => {
            let a = name_expr(alloc, names, a.get())?;
            one(alloc, *op, a)
        }
        Expr::Two { op, a, b } => {
            let a = name_expr(alloc, names, a.get())?;
            match name_expr(alloc, names, b.get()) {
                Ok(b) => two(alloc, *op, a, b),
                Err(fault) => {
                    drop(a);
                    Err(fault)
                }
            }
        }
    }
}

/// An assignment to a variable.
#[tactic(auto, using(crate::proofs::Wrong::of_statements))]
fn name_assign(alloc: Global, names: &Names, name: &Ident, value: &Expr) -> Result<RStmt, NameFault>
    ensures ok { IfOk result (λ named. NamedStmt names.now (s.Assign name.now value.now) named) }
    ensures err { IfErr result (λ e. Stops names.now (spec.stmt_uses (s.Assign name.now value.now)) e) }
{
    let name = variable(names, name)?;
    let value = name_expr(alloc, names, value)?;
    Ok(RStmt::Assign { name, value })
}

/// An assignment to an element.
#[tactic(auto, using(crate::proofs::Wrong::of_statements))]
fn name_set(
    alloc: Global,
    names: &Names,
    name: &Ident,
    index: &Expr,
    value: &Expr,
) -> Result<RStmt, NameFault>
    ensures ok { IfOk result (λ named. NamedStmt names.now (s.SetElement name.now index.now value.now) named) }
    ensures err { IfErr result (λ e. Stops names.now (spec.stmt_uses (s.SetElement name.now index.now value.now)) e) }
{
    let name = array(names, name)?;
    let index = name_expr(alloc, names, index)?;
    match name_expr(alloc, names, value) {
        Ok(value) => Ok(RStmt::SetElement { name, index, value }),
        Err(fault) => {
            drop(index);
            Err(fault)
        }
    }
}

#[cycle(name)]
#[tactic(auto, using(crate::proofs::Wrong::of_statements))]
fn name_stmt(alloc: Global, names: &Names, stmt: &Stmt) -> Result<RStmt, NameFault>
    ensures ok { IfOk result (λ named. NamedStmt names.now stmt.now named) }
    ensures err { IfErr result (λ e. Stops names.now (spec.stmt_uses stmt.now) e) }
{
    match stmt {
        Stmt::Assign { name, value } => name_assign(alloc, names, name, value),
        Stmt::SetElement { name, index, value } => { name_set(alloc, names, name, index, value) }
        Stmt::Print { value } => Ok(RStmt::Print {
            value: name_expr(alloc, names, value)?,
        }),
        Stmt::If { cond, yes, no } => {
            let cond = name_expr(alloc, names, cond)?;
            let yes = match name_body(alloc, names, yes.as_slice()) {
                Ok(yes) => yes,
                Err(fault) => {
                    drop(cond);
                    return Err(fault);
                }
            };
            match name_body(alloc, names, no.as_slice()) {
                Ok(no) => Ok(RStmt::If { cond, yes, no }),
                Err(fault) => {
                    drop((cond, yes));
                    Err(fault)
                }
            }
        }
        Stmt::While { cond, body } => {
            let cond = name_expr(alloc, names, cond)?;
            match name_body(alloc, names, body.as_slice()) {
                Ok(body) => Ok(RStmt::While { cond, body }),
                Err(fault) => {
                    drop(cond);
                    Err(fault)
                }
            }
        }
    }
}

/// The statements, in order.
#[cycle(name)]
#[tactic(auto, using(crate::proofs::Wrong::of_bodies))]
pub(crate) fn name_body(
    alloc: Global,
    names: &Names,
    body: &[Stmt],
) -> Result<Items<RStmt>, NameFault>
    ensures ok { IfOk result (λ named. NamedBody names.now body.now named) }
    ensures err { IfErr result (λ e. Stops names.now (spec.body_uses body.now) e) }
{
    let mut named = Items::new(alloc);
    for stmt in body {
        named.push(name_stmt(alloc, names, stmt)?)?;
    }
    Ok(named)
}
