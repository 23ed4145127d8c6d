//! Statements that are drawn.

ghost use Rattle.std.specs.Prelude.{◌≡◌, ◌≤◌, ◌<◌, ◌-◌, [], ◌∷◌, IfOk};
ghost use Rattle.src_tree.specs.declared.tree.Expr.TheVariants as e;
ghost use Rattle.src_tree.specs.declared.tree.Stmt.TheVariants as s;
ghost use Rattle.soak_text.specs.Generator as spec;

use crate::draws::Draws;
use crate::expressions::{array, expr, index, named, variable};
use bm_base::Bin;
use sqlite_items::{Boxed, Items};
use src_tree::{Expr, Ident, Stmt};
use std::alloc::{AllocError, Global};

fn assign(alloc: Global, draws: &mut Draws) -> Result<Stmt, AllocError>
    ensures { IfOk result (λ x. spec.assign draws.old.state ≡ (x, draws.new.state)) }
{
    let name = variable(alloc, draws)?;
    let value = expr(alloc, draws, 3)?;
    Ok(Stmt::Assign { name, value })
}

fn set_element(alloc: Global, draws: &mut Draws) -> Result<Stmt, AllocError>
    ensures { IfOk result (λ x. spec.set_element draws.old.state ≡ (x, draws.new.state)) }
{
    let name = array(alloc, draws)?;
    let index = index(alloc, draws)?;
    let value = expr(alloc, draws, 3)?;
    Ok(Stmt::SetElement { name, index, value })
}

fn print(alloc: Global, draws: &mut Draws) -> Result<Stmt, AllocError>
    ensures { IfOk result (λ x. spec.print draws.old.state ≡ (x, draws.new.state)) }
{
    let value = expr(alloc, draws, 3)?;
    Ok(Stmt::Print { value })
}

/// A statement without a body, of this kind.
#[tactic(auto, unfolding(crate::specs::Generator::plain))]
fn plain(alloc: Global, draws: &mut Draws, kind: u64) -> Result<Stmt, AllocError>
    ensures { IfOk result (λ x. spec.plain kind draws.old.state ≡ (x, draws.new.state)) }
{
    if kind < 5 {
        assign(alloc, draws)
    } else if kind < 7 {
        set_element(alloc, draws)
    } else {
        print(alloc, draws)
    }
}

fn one(alloc: Global, stmt: Stmt) -> Result<Items<Stmt>, AllocError>
    ensures { IfOk result (λ xs. xs ≡ stmt ∷ []) }
{
    let mut items = Items::new(alloc);
    items.push(stmt)?;
    Ok(items)
}

/// So many items, one behind the other.
#[cycle(items)]
#[tactic(auto, using(crate::proofs::Steps::several_none, crate::proofs::Steps::several_more))]
pub(crate) fn several(
    alloc: Global,
    draws: &mut Draws,
    count: u32,
    levels: u8,
) -> Result<Items<Stmt>, AllocError>
    requires { levels ≤ 2 }
    ensures { IfOk result (λ xs. spec.several count (spec.item levels) draws.old.state ≡ (xs, draws.new.state)) }
{
    let mut items = Items::new(alloc);
    for _ in 0..count {
        items.append(item(alloc, draws, levels)?)?;
    }
    Ok(items)
}

/// One to three items.
#[cycle(items)]
fn body(alloc: Global, draws: &mut Draws, levels: u8) -> Result<Items<Stmt>, AllocError>
    requires { levels ≤ 2 }
    ensures { IfOk result (λ xs. spec.body (spec.item levels) draws.old.state ≡ (xs, draws.new.state)) }
{
    let count = 1 + draws.below(3) as u32;
    several(alloc, draws, count, levels)
}

#[cycle(items)]
fn choose(alloc: Global, draws: &mut Draws, levels: u8) -> Result<Stmt, AllocError>
    requires { levels ≤ 2 }
    ensures { IfOk result (λ x. spec.choose (spec.item levels) draws.old.state ≡ (x, draws.new.state)) }
{
    let cond = expr(alloc, draws, 2)?;
    let yes = body(alloc, draws, levels)?;
    let no = body(alloc, draws, levels)?;
    Ok(Stmt::If { cond, yes, no })
}

/// An operator between a count and a number.
fn counted(alloc: Global, op: Bin, depth: u64, value: i64) -> Result<Expr, AllocError>
    requires { depth < 2 }
    ensures { IfOk result (λ x. x ≡ e.Two op (e.Var (spec.l depth)) (e.Number value)) }
{
    let name = named(alloc, b'l', depth)?;
    let a = Boxed::new(alloc, Expr::Var { name })?;
    let b = Boxed::new(alloc, Expr::Number { value })?;
    Ok(Expr::Two { op, a, b })
}

/// What a count takes.
fn count_takes(alloc: Global, depth: u64, value: Expr) -> Result<Stmt, AllocError>
    requires { depth < 2 }
    ensures { IfOk result (λ x. x ≡ s.Assign (spec.l depth) value) }
{
    let name = named(alloc, b'l', depth)?;
    Ok(Stmt::Assign { name, value })
}

/// A loop of one to four turns, behind the statement that begins its count.
#[cycle(items)]
fn repeat(alloc: Global, draws: &mut Draws, levels: u8) -> Result<Items<Stmt>, AllocError>
    requires { levels < 2 }
    ensures { IfOk result (λ xs. spec.repeat (spec.l (1 - levels)) (spec.item levels) draws.old.state ≡ (xs, draws.new.state)) }
{
    let depth = u64::from(1 - levels);
    let turns = 1 + draws.below(4) as i64;
    let mut body = body(alloc, draws, levels)?;
    let more = counted(alloc, Bin::Add, depth, 1)?;
    body.push(count_takes(alloc, depth, more)?)?;
    let cond = counted(alloc, Bin::Lt, depth, turns)?;
    let mut items = one(alloc, count_takes(alloc, depth, Expr::Number { value: 0 })?)?;
    items.push(Stmt::While { cond, body })?;
    Ok(items)
}

/// An item, in which bodies may stand to this many levels.
#[cycle(items)]
#[tactic(auto, using(crate::proofs::Steps::item_none, crate::proofs::Steps::item_more))]
fn item(alloc: Global, draws: &mut Draws, levels: u8) -> Result<Items<Stmt>, AllocError>
    requires { levels ≤ 2 }
    ensures { IfOk result (λ xs. spec.item levels draws.old.state ≡ (xs, draws.new.state)) }
{
    if levels == 0 {
        let kind = draws.below(8);
        return one(alloc, plain(alloc, draws, kind)?);
    }
    let kind = draws.below(10);
    if kind < 8 {
        one(alloc, plain(alloc, draws, kind)?)
    } else if kind == 8 {
        one(alloc, choose(alloc, draws, levels - 1)?)
    } else {
        repeat(alloc, draws, levels - 1)
    }
}
