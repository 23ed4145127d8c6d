//! A token inside an expression.

ghost use Rattle.std.specs.Prelude.{◌≡◌, ◌∷◌, [], ◌++◌, IfOk, if◌then◌else◌, ◌≤◌, ◌<◌, length};
ghost use Rattle.std.specs.Option.{option_copied};
ghost use Rattle.src_tree.specs.Operators as ops;
ghost use Rattle.src_tree.specs.Grammar as gr;
ghost use Rattle.src_parser.specs.Machine as spec;

use crate::machine::{Action, Goal, Head, Mode, Part};
use crate::stack::Stack;
use bm_base::{Bin, Un};
use sqlite_items::{Boxed, Items};
use src_lexer::{Symbol, Token, TokenKind};
use src_tree::{Expr, Ident, Stmt, level};
use std::alloc::{AllocError, Global};

/// The operator that a symbol is between two operands.
fn binary(symbol: Symbol) -> Option<Bin>
    ensures { result ≡ ops.binary symbol }
{
    match symbol {
        Symbol::Or => Some(Bin::Or),
        Symbol::Xor => Some(Bin::Xor),
        Symbol::And => Some(Bin::And),
        Symbol::Eq => Some(Bin::Eq),
        Symbol::Ne => Some(Bin::Ne),
        Symbol::Lt => Some(Bin::Lt),
        Symbol::Le => Some(Bin::Le),
        Symbol::Gt => Some(Bin::Gt),
        Symbol::Ge => Some(Bin::Ge),
        Symbol::Shl => Some(Bin::Shl),
        Symbol::Shr => Some(Bin::Shr),
        Symbol::Add => Some(Bin::Add),
        Symbol::Sub => Some(Bin::Sub),
        Symbol::Mul => Some(Bin::Mul),
        Symbol::Div => Some(Bin::Div),
        Symbol::Rem => Some(Bin::Rem),
        _ => None,
    }
}

/// The identifier that a name's token is.
pub fn ident(alloc: Global, src: &[u8], token: Token) -> Result<Ident, AllocError>
    requires low { token.at ≤ token.end }
    requires high { token.end ≤ length src.now }
    ensures { IfOk result (λ n. n ≡ gr.ident src.now token) }
{
    Ok(Ident {
        text: Items::from_slice(alloc, &src[token.at as usize..token.end as usize])?,
        at: token.at,
    })
}

fn one(alloc: Global, op: Un, a: Expr) -> Result<Expr, AllocError>
    ensures { IfOk result (λ x. x ≡ Expr.One op a) }
{
    Ok(Expr::One {
        op,
        a: Boxed::new(alloc, a)?,
    })
}

fn two(alloc: Global, op: Bin, a: Expr, b: Expr) -> Result<Expr, AllocError>
    ensures { IfOk result (λ x. x ≡ Expr.Two op a b) }
{
    Ok(Expr::Two {
        op,
        a: Boxed::new(alloc, a)?,
        b: Boxed::new(alloc, b)?,
    })
}

/// An operand is complete. The parts that bind at least as tightly take it in.
fn reduce(
    alloc: Global,
    least: u8,
    mut parts: Stack<Part>,
    value: Expr,
) -> Result<(Stack<Part>, Expr), AllocError>
    ensures { IfOk result (λ r. (r.0, r.1) ≡ spec.reduce least parts value) }
{
    match parts.pop() {
        None => Ok((parts, value)),
        Some(Part::Unary { op }) => reduce(alloc, least, parts, one(alloc, op, value)?),
        Some(Part::Binary { op, left }) => {
            if least <= level(op) {
                reduce(alloc, least, parts, two(alloc, op, left, value)?)
            } else {
                match parts.push(Part::Binary { op, left }) {
                    Ok(()) => Ok((parts, value)),
                    Err(fault) => {
                        drop((parts, value));
                        Err(fault)
                    }
                }
            }
        }
        Some(part) => match parts.push(part) {
            Ok(()) => Ok((parts, value)),
            Err(fault) => {
                drop((parts, value));
                Err(fault)
            }
        },
    }
}

/// A part is open, and an operand must begin.
fn begin_part(goal: Goal, mut parts: Stack<Part>, part: Part) -> Result<Action, AllocError>
    ensures { IfOk result (λ r. r ≡ Action.Go (Mode.Operand goal (part ∷ parts))) }
{
    match parts.push(part) {
        Ok(()) => Ok(Action::Go(Mode::Operand { goal, parts })),
        Err(fault) => {
            drop((goal, parts));
            Err(fault)
        }
    }
}

/// What a token asks for where an operand begins.
pub fn operand_at(
    alloc: Global,
    src: &[u8],
    goal: Goal,
    parts: Stack<Part>,
    token: Token,
) -> Result<Action, AllocError>
    requires low { token.at ≤ token.end }
    requires high { token.end ≤ length src.now }
    ensures { IfOk result (λ r. r ≡ spec.operand_at src.now goal parts token token.kind) }
{
    match token.kind {
        TokenKind::Number { value } => Ok(Action::Go(Mode::Value {
            goal,
            parts,
            value: Expr::Number { value },
        })),
        TokenKind::Name => match ident(alloc, src, token) {
            Ok(name) => Ok(Action::Go(Mode::Named { goal, parts, name })),
            Err(fault) => {
                drop((goal, parts));
                Err(fault)
            }
        },
        TokenKind::Sym(Symbol::LParen) => begin_part(goal, parts, Part::Paren),
        TokenKind::Sym(Symbol::Sub) => begin_part(goal, parts, Part::Unary { op: Un::Neg }),
        TokenKind::Sym(Symbol::Not) => begin_part(goal, parts, Part::Unary { op: Un::Not }),
        _ => {
            drop((goal, parts));
            Ok(Action::Refuse)
        }
    }
}

/// A symbol behind a whole statement's last expression.
fn finished(stmt: Stmt, symbol: Symbol) -> Action
    ensures { result ≡ spec.finished stmt symbol }
{
    match symbol {
        Symbol::Semi => Action::Finish(stmt),
        _ => {
            drop(stmt);
            Action::Refuse
        }
    }
}

fn indexed(name: Ident, index: Expr, symbol: Symbol) -> Action
    ensures { result ≡ spec.indexed name index symbol }
{
    match symbol {
        Symbol::RBracket => Action::Go(Mode::Target { name, index }),
        _ => {
            drop((name, index));
            Action::Refuse
        }
    }
}

fn opened(head: Head, symbol: Symbol) -> Action
    ensures { result ≡ spec.opened head symbol }
{
    match symbol {
        Symbol::LBrace => Action::Open(head),
        _ => {
            drop(head);
            Action::Refuse
        }
    }
}

/// The symbol that ends a whole expression.
fn ended(goal: Goal, value: Expr, symbol: Symbol) -> Action
    ensures { result ≡ spec.ended goal value symbol }
{
    match goal {
        Goal::Assign { name } => finished(Stmt::Assign { name, value }, symbol),
        Goal::SetIndex { name } => indexed(name, value, symbol),
        Goal::SetValue { name, index } => finished(Stmt::SetElement { name, index, value }, symbol),
        Goal::Print => finished(Stmt::Print { value }, symbol),
        Goal::If => opened(Head::If { cond: value }, symbol),
        Goal::While => opened(Head::While { cond: value }, symbol),
    }
}

fn closes_paren(goal: Goal, parts: Stack<Part>, value: Expr, symbol: Symbol) -> Action
    ensures { result ≡ spec.closes_paren goal parts value symbol }
{
    match symbol {
        Symbol::RParen => Action::Go(Mode::Value { goal, parts, value }),
        _ => {
            drop((goal, parts, value));
            Action::Refuse
        }
    }
}

fn closes_index(goal: Goal, parts: Stack<Part>, value: Expr, symbol: Symbol) -> Action
    ensures { result ≡ spec.closes_index goal parts value symbol }
{
    match symbol {
        Symbol::RBracket => Action::Go(Mode::Value { goal, parts, value }),
        _ => {
            drop((goal, parts, value));
            Action::Refuse
        }
    }
}

fn element(alloc: Global, name: Ident, index: Expr) -> Result<Expr, AllocError>
    ensures { IfOk result (λ x. x ≡ Expr.Element name index) }
{
    Ok(Expr::Element {
        name,
        index: Boxed::new(alloc, index)?,
    })
}

/// The symbol that ends the innermost open part.
fn closed(
    alloc: Global,
    goal: Goal,
    mut parts: Stack<Part>,
    value: Expr,
    symbol: Symbol,
) -> Result<Action, AllocError>
    ensures { IfOk result (λ r. r ≡ spec.closed goal (parts, value) symbol) }
{
    match parts.pop() {
        None => Ok(ended(goal, value, symbol)),
        Some(Part::Paren) => Ok(closes_paren(goal, parts, value, symbol)),
        Some(Part::Index { name }) => match element(alloc, name, value) {
            Ok(value) => Ok(closes_index(goal, parts, value, symbol)),
            Err(fault) => {
                drop((goal, parts));
                Err(fault)
            }
        },
        Some(Part::Unary { op: _ }) => {
            drop((goal, parts, value));
            Ok(Action::Refuse)
        }
        Some(Part::Binary { op: _, left }) => {
            drop(left);
            drop((goal, parts, value));
            Ok(Action::Refuse)
        }
    }
}

/// What a token of this kind asks for behind a whole operand.
pub fn value_at(
    alloc: Global,
    goal: Goal,
    parts: Stack<Part>,
    value: Expr,
    kind: TokenKind,
) -> Result<Action, AllocError>
    ensures { IfOk result (λ r. r ≡ spec.value_at goal parts value kind) }
{
    let TokenKind::Sym(symbol) = kind else {
        drop((goal, parts, value));
        return Ok(Action::Refuse);
    };
    match binary(symbol) {
        Some(op) => match reduce(alloc, level(op), parts, value) {
            Ok((parts, left)) => begin_part(goal, parts, Part::Binary { op, left }),
            Err(fault) => {
                drop(goal);
                Err(fault)
            }
        },
        None => match reduce(alloc, 0, parts, value) {
            Ok((parts, value)) => closed(alloc, goal, parts, value, symbol),
            Err(fault) => {
                drop(goal);
                Err(fault)
            }
        },
    }
}

fn is_bracket(kind: TokenKind) -> bool
    ensures { result ≡ spec.is_bracket kind }
{
    match kind {
        TokenKind::Sym(Symbol::LBracket) => true,
        _ => false,
    }
}

/// What a token of this kind asks for behind a name: a bracket opens its index, else it is a variable.
pub fn named_at(
    alloc: Global,
    goal: Goal,
    parts: Stack<Part>,
    name: Ident,
    kind: TokenKind,
) -> Result<Action, AllocError>
    ensures { IfOk result (λ r. r ≡ spec.named_at goal parts name kind) }
{
    if is_bracket(kind) {
        return begin_part(goal, parts, Part::Index { name });
    }
    value_at(alloc, goal, parts, Expr::Var { name }, kind)
}
