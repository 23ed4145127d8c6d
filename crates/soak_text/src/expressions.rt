//! Expressions that are drawn.

ghost use Rattle.std.specs.Prelude.{◌≡◌, ◌<◌, IfOk};
ghost use Rattle.soak_text.specs.Generator as spec;

use crate::draws::Draws;
use bm_base::{Bin, Un};
use sqlite_items::{Boxed, Items};
use src_tree::{Expr, Ident};
use std::alloc::{AllocError, Global};

/// A name of a letter and a digit.
pub(crate) fn named(alloc: Global, letter: u8, k: u64) -> Result<Ident, AllocError>
    requires { k < 10 }
    ensures { IfOk result (λ n. n ≡ spec.named letter k) }
{
    let text = Items::from_slice(alloc, &[letter, b'0' + k as u8])?;
    Ok(Ident { text, at: 0 })
}

/// One of the eight variables.
pub(crate) fn variable(alloc: Global, draws: &mut Draws) -> Result<Ident, AllocError>
    ensures { IfOk result (λ n. spec.variable draws.old.state ≡ (n, draws.new.state)) }
{
    let k = draws.below(8);
    named(alloc, b'v', k)
}

/// One of the two arrays.
pub(crate) fn array(alloc: Global, draws: &mut Draws) -> Result<Ident, AllocError>
    ensures { IfOk result (λ n. spec.array draws.old.state ≡ (n, draws.new.state)) }
{
    let k = draws.below(2);
    named(alloc, b'a', k)
}

/// A number below n.
fn number_below(draws: &mut Draws, n: u64) -> Expr
    requires some { 0 < n }
    requires small { n < 1000 }
    ensures { spec.number_below n draws.old.state ≡ (result, draws.new.state) }
{
    let value = draws.below(n) as i64;
    Expr::Number { value }
}

fn use_of_variable(alloc: Global, draws: &mut Draws) -> Result<Expr, AllocError>
    ensures { IfOk result (λ x. spec.use_of spec.variable draws.old.state ≡ (x, draws.new.state)) }
{
    let name = variable(alloc, draws)?;
    Ok(Expr::Var { name })
}

/// An index: a number, perhaps just behind the array's end, or a variable.
#[tactic(auto, unfolding(crate::specs::Generator::index))]
pub(crate) fn index(alloc: Global, draws: &mut Draws) -> Result<Expr, AllocError>
    ensures { IfOk result (λ x. spec.index draws.old.state ≡ (x, draws.new.state)) }
{
    if draws.below(2) == 0 {
        Ok(number_below(draws, 18))
    } else {
        use_of_variable(alloc, draws)
    }
}

fn element(alloc: Global, draws: &mut Draws) -> Result<Expr, AllocError>
    ensures { IfOk result (λ x. spec.element draws.old.state ≡ (x, draws.new.state)) }
{
    let name = array(alloc, draws)?;
    let index = Boxed::new(alloc, index(alloc, draws)?)?;
    Ok(Expr::Element { name, index })
}

/// An expression without operators, of this kind.
#[tactic(auto, unfolding(crate::specs::Generator::leaf))]
fn leaf(alloc: Global, draws: &mut Draws, kind: u64) -> Result<Expr, AllocError>
    ensures { IfOk result (λ x. spec.leaf kind draws.old.state ≡ (x, draws.new.state)) }
{
    match kind {
        0 => Ok(number_below(draws, 100)),
        1 => use_of_variable(alloc, draws),
        _ => element(alloc, draws),
    }
}

fn sign(k: u64) -> Un
    ensures { result ≡ spec.sign k }
{
    if k == 0 { Un::Neg } else { Un::Not }
}

/// The binary operator of this place in their order.
fn operator(k: u64) -> Bin
    requires { k < 16 }
    ensures { result ≡ spec.operator k }
{
    match k {
        0 => Bin::Or,
        1 => Bin::Xor,
        2 => Bin::And,
        3 => Bin::Eq,
        4 => Bin::Ne,
        5 => Bin::Lt,
        6 => Bin::Le,
        7 => Bin::Gt,
        8 => Bin::Ge,
        9 => Bin::Shl,
        10 => Bin::Shr,
        11 => Bin::Add,
        12 => Bin::Sub,
        13 => Bin::Mul,
        14 => Bin::Div,
        15 => Bin::Rem,
        _ => unreachable!(),
    }
}

#[cycle(expressions)]
fn unary(alloc: Global, draws: &mut Draws, most: u8) -> Result<Expr, AllocError>
    ensures { IfOk result (λ x. spec.unary (spec.expr most) draws.old.state ≡ (x, draws.new.state)) }
{
    let op = sign(draws.below(2));
    let a = Boxed::new(alloc, expr(alloc, draws, most)?)?;
    Ok(Expr::One { op, a })
}

#[cycle(expressions)]
fn binary(alloc: Global, draws: &mut Draws, most: u8) -> Result<Expr, AllocError>
    ensures { IfOk result (λ x. spec.binary (spec.expr most) draws.old.state ≡ (x, draws.new.state)) }
{
    let op = operator(draws.below(16));
    let a = Boxed::new(alloc, expr(alloc, draws, most)?)?;
    let b = Boxed::new(alloc, expr(alloc, draws, most)?)?;
    Ok(Expr::Two { op, a, b })
}

/// An expression in which so many operators, at most, stand one in another.
#[cycle(expressions)]
#[tactic(auto, using(crate::proofs::Steps::expr_none, crate::proofs::Steps::expr_more))]
pub(crate) fn expr(alloc: Global, draws: &mut Draws, most: u8) -> Result<Expr, AllocError>
    ensures { IfOk result (λ x. spec.expr most draws.old.state ≡ (x, draws.new.state)) }
{
    if most == 0 {
        let kind = draws.below(3);
        return leaf(alloc, draws, kind);
    }
    let kind = draws.below(6);
    if kind < 3 {
        leaf(alloc, draws, kind)
    } else if kind == 3 {
        unary(alloc, draws, most - 1)
    } else {
        binary(alloc, draws, most - 1)
    }
}
