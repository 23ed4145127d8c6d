//! Depth and nodes, token by token.

ghost use Rattle.std.specs.Prelude.{◌≡◌, ◌≤◌, ◌<◌, ◌+◌, ◌-◌, ◌^◌, [], ◌∷◌, OnOk, length, true, false};
ghost use Rattle.src_tree.specs.Limits as limits;
ghost use Rattle.src_parser.specs.Tally as spec;

use crate::stack::Stack;
use src_lexer::{Symbol, Token, TokenKind};
use std::alloc::{AllocError, Global};

/// What is open, and what is counted of the statement that is read.
#[derive(Drop)]
pub struct Tally {
    /// For each open bracket, the innermost first, the unary operators before it that are still
    /// open.
    pub outer: Stack<u32>,
    /// The open unary operators behind the innermost bracket.
    pub signs: u32,
    /// Whether the last token ends an operand.
    pub ended: bool,
    /// The number of open brackets and unary operators.
    pub depth: u32,
    /// Whether the statement has begun.
    pub begun: bool,
    /// The place of its first byte, or 0.
    pub first: u32,
    /// Its nodes.
    pub nodes: u32,
}

/// A symbol between operands or after them: the unary operators before it are complete.
fn pass(tally: &mut Tally)
    ensures { tally.new ≡ spec.passed tally.old }
{
    tally.depth = tally.depth.saturating_sub(tally.signs);
    tally.signs = 0;
    tally.ended = false;
}

fn open(tally: &mut Tally) -> Result<(), AllocError>
    requires { tally.old.depth < 2 ^ 20 }
    ensures { OnOk result (tally.new ≡ spec.opened tally.old) }
{
    tally.outer.push(tally.signs)?;
    tally.signs = 0;
    tally.ended = false;
    tally.depth += 1;
    Ok(())
}

fn close(tally: &mut Tally, ended: bool)
    ensures { tally.new ≡ spec.closed_to tally.old.outer ended tally.old }
{
    tally.depth = tally.depth.saturating_sub(tally.signs);
    tally.signs = 0;
    tally.ended = ended;
    if let Some(signs) = tally.outer.pop() {
        tally.signs = signs;
        tally.depth = tally.depth.saturating_sub(1);
    }
}

fn sign(tally: &mut Tally)
    requires depth { tally.old.depth < 2 ^ 20 }
    requires signs { tally.old.signs < 2 ^ 20 }
    ensures { tally.new ≡ spec.signed tally.old }
{
    if tally.ended {
        pass(tally);
    } else {
        tally.signs += 1;
        tally.depth += 1;
        tally.ended = false;
    }
}

fn take_symbol(tally: &mut Tally, symbol: Symbol) -> Result<(), AllocError>
    requires depth { tally.old.depth < 2 ^ 20 }
    requires signs { tally.old.signs < 2 ^ 20 }
    ensures { OnOk result (tally.new ≡ spec.symbol_opens symbol tally.old) }
{
    match symbol {
        Symbol::LParen | Symbol::LBracket => open(tally)?,
        Symbol::LBrace => {
            pass(tally);
            open(tally)?;
        }
        Symbol::RParen | Symbol::RBracket => close(tally, true),
        Symbol::RBrace => close(tally, false),
        Symbol::Sub | Symbol::Not => sign(tally),
        _ => pass(tally),
    }
    Ok(())
}

fn take_kind(tally: &mut Tally, kind: TokenKind) -> Result<(), AllocError>
    requires depth { tally.old.depth < 2 ^ 20 }
    requires signs { tally.old.signs < 2 ^ 20 }
    ensures { OnOk result (tally.new ≡ spec.opens kind tally.old) }
{
    match kind {
        TokenKind::Sym(symbol) => take_symbol(tally, symbol)?,
        TokenKind::Word(_) => tally.ended = false,
        TokenKind::Name => tally.ended = true,
        TokenKind::Number { .. } => tally.ended = true,
    }
    Ok(())
}

/// A token that ends a statement's own tokens.
fn is_border(kind: TokenKind) -> bool
    ensures { result ≡ limits.is_border kind }
{
    match kind {
        TokenKind::Sym(Symbol::Semi) => true,
        TokenKind::Sym(Symbol::LBrace) => true,
        TokenKind::Sym(Symbol::RBrace) => true,
        _ => false,
    }
}

fn symbol_node(symbol: Symbol) -> u32
    ensures { result ≡ limits.node (TokenKind.Sym symbol) }
{
    match symbol {
        Symbol::Semi => 0,
        Symbol::Assign => 0,
        Symbol::LBracket => 0,
        Symbol::RBracket => 0,
        Symbol::LBrace => 0,
        Symbol::RBrace => 0,
        Symbol::LParen => 0,
        Symbol::RParen => 0,
        _ => 1,
    }
}

/// A number, a name and an operator are a node each.
fn node(kind: TokenKind) -> u32
    ensures { result ≡ limits.node kind }
{
    match kind {
        TokenKind::Name => 1,
        TokenKind::Number { .. } => 1,
        TokenKind::Word(_) => 0,
        TokenKind::Sym(symbol) => symbol_node(symbol),
    }
}

/// The first token of a statement is no node.
fn count(tally: &mut Tally, token: Token)
    requires { tally.old.nodes < 2 ^ 20 }
    ensures { tally.new ≡ spec.counts token tally.old }
{
    if is_border(token.kind) {
        tally.begun = false;
        tally.first = 0;
        tally.nodes = 0;
    } else if tally.begun {
        tally.nodes += node(token.kind);
    } else {
        tally.begun = true;
        tally.first = token.at;
        tally.nodes = 0;
    }
}

/// One token more.
pub fn take(tally: &mut Tally, token: Token) -> Result<(), AllocError>
    requires depth { tally.old.depth < 2 ^ 20 }
    requires signs { tally.old.signs < 2 ^ 20 }
    requires nodes { tally.old.nodes < 2 ^ 20 }
    ensures { OnOk result (tally.new ≡ spec.tallied token tally.old) }
{
    take_kind(tally, token.kind)?;
    count(tally, token);
    Ok(())
}

/// Before the first token.
pub fn nothing(alloc: Global) -> Tally
    ensures { result ≡ spec.nothing }
{
    Tally {
        outer: Stack::new(alloc),
        signs: 0,
        ended: false,
        depth: 0,
        begun: false,
        first: 0,
        nodes: 0,
    }
}
