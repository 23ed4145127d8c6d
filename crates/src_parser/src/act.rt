//! What a token does.

ghost use Rattle.std.specs.Prelude.{◌≡◌, ◌∷◌, [], ◌++◌, IfOk, ◌≤◌, ◌<◌, length};
ghost use Rattle.src_parser.specs.Tokens.{IsPlain};
ghost use Rattle.src_parser.specs.Machine as spec;

use crate::machine::{Action, Goal, Head, Mode};
use crate::operand::{ident, named_at, operand_at, value_at};
use crate::stack::Stack;
use sqlite_items::Items;
use src_lexer::{Keyword, Symbol, Token, TokenKind};
use src_tree::{Decl, Expr, Ident, Stmt};
use std::alloc::{AllocError, Global};

fn item(alloc: Global, src: &[u8], token: Token) -> Result<Action, AllocError>
    requires low { token.at ≤ token.end }
    requires high { token.end ≤ length src.now }
    ensures { IfOk result (λ r. r ≡ spec.item src.now token token.kind) }
{
    match token.kind {
        TokenKind::Word(Keyword::Var) => Ok(Action::Begin(Mode::Var)),
        TokenKind::Word(Keyword::Array) => Ok(Action::Begin(Mode::Array)),
        TokenKind::Word(Keyword::Print) => Ok(Action::Go(Mode::Operand {
            goal: Goal::Print,
            parts: Stack::new(alloc),
        })),
        TokenKind::Word(Keyword::If) => Ok(Action::Go(Mode::Operand {
            goal: Goal::If,
            parts: Stack::new(alloc),
        })),
        TokenKind::Word(Keyword::While) => Ok(Action::Go(Mode::Operand {
            goal: Goal::While,
            parts: Stack::new(alloc),
        })),
        TokenKind::Name => Ok(Action::Go(Mode::Name {
            name: ident(alloc, src, token)?,
        })),
        TokenKind::Sym(Symbol::RBrace) => Ok(Action::Close),
        _ => Ok(Action::Refuse),
    }
}

fn name_at(alloc: Global, name: Ident, kind: TokenKind) -> Action
    ensures { result ≡ spec.name_at name kind }
{
    match kind {
        TokenKind::Sym(Symbol::Assign) => Action::Go(Mode::Operand {
            goal: Goal::Assign { name },
            parts: Stack::new(alloc),
        }),
        TokenKind::Sym(Symbol::LBracket) => Action::Go(Mode::Operand {
            goal: Goal::SetIndex { name },
            parts: Stack::new(alloc),
        }),
        _ => Action::Refuse,
    }
}

fn var_at(alloc: Global, src: &[u8], token: Token) -> Result<Action, AllocError>
    requires low { token.at ≤ token.end }
    requires high { token.end ≤ length src.now }
    ensures { IfOk result (λ r. r ≡ spec.fixed_at src.now Mode.Var token token.kind) }
{
    match token.kind {
        TokenKind::Name => Ok(Action::Go(Mode::VarName {
            name: ident(alloc, src, token)?,
        })),
        _ => Ok(Action::Refuse),
    }
}

fn var_name_at(name: Ident, token: Token) -> Action
    ensures { result ≡ spec.fixed_at [] (Mode.VarName name) token token.kind }
{
    match token.kind {
        TokenKind::Sym(Symbol::Semi) => Action::Declare(Decl::Var { name, initial: 0 }),
        TokenKind::Sym(Symbol::Assign) => Action::Go(Mode::VarAssign { name }),
        _ => Action::Refuse,
    }
}

fn var_assign_at(name: Ident, token: Token) -> Action
    ensures { result ≡ spec.fixed_at [] (Mode.VarAssign name) token token.kind }
{
    match token.kind {
        TokenKind::Sym(Symbol::Sub) => Action::Go(Mode::VarMinus { name }),
        TokenKind::Number { value } => Action::Go(Mode::Declared {
            decl: Decl::Var {
                name,
                initial: value,
            },
        }),
        _ => Action::Refuse,
    }
}

fn var_minus_at(name: Ident, token: Token) -> Action
    requires { IsPlain token }
    ensures { result ≡ spec.fixed_at [] (Mode.VarMinus name) token token.kind }
{
    match token.kind {
        TokenKind::Number { value } => Action::Go(Mode::Declared {
            decl: Decl::Var {
                name,
                initial: -value,
            },
        }),
        _ => Action::Refuse,
    }
}

fn array_at(alloc: Global, src: &[u8], token: Token) -> Result<Action, AllocError>
    requires low { token.at ≤ token.end }
    requires high { token.end ≤ length src.now }
    ensures { IfOk result (λ r. r ≡ spec.fixed_at src.now Mode.Array token token.kind) }
{
    match token.kind {
        TokenKind::Name => Ok(Action::Go(Mode::ArrayName {
            name: ident(alloc, src, token)?,
        })),
        _ => Ok(Action::Refuse),
    }
}

fn array_name_at(name: Ident, token: Token) -> Action
    ensures { result ≡ spec.fixed_at [] (Mode.ArrayName name) token token.kind }
{
    match token.kind {
        TokenKind::Sym(Symbol::LBracket) => Action::Go(Mode::ArrayOpen { name }),
        _ => Action::Refuse,
    }
}

fn array_open_at(name: Ident, token: Token) -> Action
    ensures { result ≡ spec.fixed_at [] (Mode.ArrayOpen name) token token.kind }
{
    match token.kind {
        TokenKind::Number { value } => Action::Go(Mode::ArrayLen { name, len: value }),
        _ => Action::Refuse,
    }
}

fn array_len_at(name: Ident, len: i64, token: Token) -> Action
    ensures { result ≡ spec.fixed_at [] (Mode.ArrayLen name len) token token.kind }
{
    match token.kind {
        TokenKind::Sym(Symbol::RBracket) => Action::Go(Mode::Declared {
            decl: Decl::Array { name, len },
        }),
        _ => Action::Refuse,
    }
}

fn declared_at(decl: Decl, token: Token) -> Action
    ensures { result ≡ spec.fixed_at [] (Mode.Declared decl) token token.kind }
{
    match token.kind {
        TokenKind::Sym(Symbol::Semi) => Action::Declare(decl),
        _ => Action::Refuse,
    }
}

fn else_at(cond: Expr, yes: Items<Stmt>, token: Token) -> Action
    ensures { result ≡ spec.fixed_at [] (Mode.Else cond yes) token token.kind }
{
    match token.kind {
        TokenKind::Sym(Symbol::LBrace) => Action::Open(Head::Else { cond, yes }),
        _ => Action::Refuse,
    }
}

/// An `if` is complete, and the token does what it does before an item.
fn after(stmt: Stmt, action: Action) -> Action
    ensures { result ≡ spec.after stmt action }
{
    match action {
        Action::Go(mode) => Action::FinishGo(stmt, mode),
        Action::Close => Action::FinishClose(stmt),
        action => {
            drop((stmt, action));
            Action::Refuse
        }
    }
}

fn is_else(kind: TokenKind) -> bool
    ensures { result ≡ spec.is_else kind }
{
    match kind {
        TokenKind::Word(Keyword::Else) => true,
        _ => false,
    }
}

fn after_if(
    alloc: Global,
    src: &[u8],
    cond: Expr,
    yes: Items<Stmt>,
    token: Token,
) -> Result<Action, AllocError>
    requires low { token.at ≤ token.end }
    requires high { token.end ≤ length src.now }
    ensures { IfOk result (λ r. r ≡ spec.after_if src.now cond yes token token.kind) }
{
    if is_else(token.kind) {
        return Ok(Action::Go(Mode::Else { cond, yes }));
    }
    let no = Items::new(alloc);
    let action = item(alloc, src, token)?;
    Ok(after(Stmt::If { cond, yes, no }, action))
}

fn target_at(alloc: Global, name: Ident, index: Expr, token: Token) -> Action
    ensures { result ≡ spec.fixed_at [] (Mode.Target name index) token token.kind }
{
    match token.kind {
        TokenKind::Sym(Symbol::Assign) => Action::Go(Mode::Operand {
            goal: Goal::SetValue { name, index },
            parts: Stack::new(alloc),
        }),
        _ => Action::Refuse,
    }
}

/// What a token does, by what stands before it.
pub fn act(alloc: Global, src: &[u8], mode: Mode, token: Token) -> Result<Action, AllocError>
    requires low { token.at ≤ token.end }
    requires high { token.end ≤ length src.now }
    requires plain { IsPlain token }
    ensures { IfOk result (λ r. r ≡ spec.act src.now mode token) }
{
    match mode {
        Mode::Item => item(alloc, src, token),
        Mode::Var => var_at(alloc, src, token),
        Mode::VarName { name } => Ok(var_name_at(name, token)),
        Mode::VarAssign { name } => Ok(var_assign_at(name, token)),
        Mode::VarMinus { name } => Ok(var_minus_at(name, token)),
        Mode::Array => array_at(alloc, src, token),
        Mode::ArrayName { name } => Ok(array_name_at(name, token)),
        Mode::ArrayOpen { name } => Ok(array_open_at(name, token)),
        Mode::ArrayLen { name, len } => Ok(array_len_at(name, len, token)),
        Mode::Declared { decl } => Ok(declared_at(decl, token)),
        Mode::Name { name } => Ok(name_at(alloc, name, token.kind)),
        Mode::Target { name, index } => Ok(target_at(alloc, name, index, token)),
        Mode::Operand { goal, parts } => operand_at(alloc, src, goal, parts, token),
        Mode::Named { goal, parts, name } => named_at(alloc, goal, parts, name, token.kind),
        Mode::Value { goal, parts, value } => value_at(alloc, goal, parts, value, token.kind),
        Mode::AfterIf { cond, yes } => after_if(alloc, src, cond, yes, token),
        Mode::Else { cond, yes } => Ok(else_at(cond, yes, token)),
    }
}
