//! The parts of a program that are open between two tokens.

use crate::stack::Stack;
use bm_base::{Bin, Un};
use sqlite_items::Items;
use src_tree::{Decl, Expr, Ident, Stmt};

/// What an expression is for.
#[derive(Drop)]
pub enum Goal {
    Assign { name: Ident },
    SetIndex { name: Ident },
    SetValue { name: Ident, index: Expr },
    Print,
    If,
    While,
}

/// A part of an expression that is not complete.
#[derive(Drop)]
pub enum Part {
    Paren,
    Index { name: Ident },
    Unary { op: Un },
    Binary { op: Bin, left: Expr },
}

/// What an open body belongs to.
#[derive(Drop)]
pub enum Head {
    If { cond: Expr },
    Else { cond: Expr, yes: Items<Stmt> },
    While { cond: Expr },
}

/// An open body's head, and the statements before it.
#[derive(Drop)]
pub struct OpenBody {
    pub before: Items<Stmt>,
    pub head: Head,
}

/// What stands before the next token.
#[derive(Drop)]
pub enum Mode {
    /// A whole declaration or statement, or a bracket of a body.
    Item,
    Var,
    VarName {
        name: Ident,
    },
    VarAssign {
        name: Ident,
    },
    VarMinus {
        name: Ident,
    },
    Array,
    ArrayName {
        name: Ident,
    },
    ArrayOpen {
        name: Ident,
    },
    ArrayLen {
        name: Ident,
        len: i64,
    },
    /// A declaration but for its `;`.
    Declared {
        decl: Decl,
    },
    /// The name that begins a statement.
    Name {
        name: Ident,
    },
    /// An assigned element.
    Target {
        name: Ident,
        index: Expr,
    },
    /// An operand must begin.
    Operand {
        goal: Goal,
        parts: Stack<Part>,
    },
    /// A name as an operand, which `[` makes an element.
    Named {
        goal: Goal,
        parts: Stack<Part>,
        name: Ident,
    },
    /// Another complete operand.
    Value {
        goal: Goal,
        parts: Stack<Part>,
        value: Expr,
    },
    /// The `}` of an `if`, whose `else` may follow.
    AfterIf {
        cond: Expr,
        yes: Items<Stmt>,
    },
    /// The word `else`.
    Else {
        cond: Expr,
        yes: Items<Stmt>,
    },
}

/// What a token does.
#[derive(Drop)]
pub enum Action {
    /// No program goes on with it.
    Refuse,
    Go(Mode),
    /// A declaration begins, which stands before the first statement alone.
    Begin(Mode),
    Declare(Decl),
    Finish(Stmt),
    /// A body begins; it ends.
    Open(Head),
    Close,
    /// The `if` before it is complete; then it goes on, or a body ends.
    FinishGo(Stmt, Mode),
    FinishClose(Stmt),
}

/// What the tokens so far have left open.
#[derive(Drop)]
pub struct State {
    pub decls: Items<Decl>,
    /// The innermost first.
    pub bodies: Stack<OpenBody>,
    /// The statements of the innermost body.
    pub body: Items<Stmt>,
    pub mode: Mode,
}
