//! The tree of a program. Parentheses leave no trace in it.

use bm_base::{Bin, Un};
use sqlite_items::{Boxed, Items};

/// A name, and where it stands.
#[derive(Drop)]
pub struct Ident {
    /// Its bytes.
    pub text: Items<u8>,
    /// The place of its first byte in the source, from 0.
    pub at: u32,
}

/// An expression. Each value is a word.
#[derive(Drop)]
pub enum Expr {
    /// A number; from a source it is 0 or more.
    Number {
        /// The number.
        value: i64,
    },
    /// The value of a variable.
    Var {
        /// The variable.
        name: Ident,
    },
    /// The element of an array at an index.
    Element {
        /// The array.
        name: Ident,
        /// The index, from 0.
        index: Boxed<Expr>,
    },
    /// A unary operator and its operand.
    One {
        /// The operator.
        op: Un,
        /// The operand.
        a: Boxed<Expr>,
    },
    /// A binary operator between its operands.
    Two {
        /// The operator.
        op: Bin,
        /// The left operand.
        a: Boxed<Expr>,
        /// The right operand.
        b: Boxed<Expr>,
    },
}

/// A statement.
#[derive(Drop)]
pub enum Stmt {
    /// `NAME = value;`
    Assign {
        /// The variable.
        name: Ident,
        /// Its new value.
        value: Expr,
    },
    /// `NAME[index] = value;`
    SetElement {
        /// The array.
        name: Ident,
        /// The index, from 0.
        index: Expr,
        /// The element's new value.
        value: Expr,
    },
    /// `print value;`
    Print {
        /// What is printed.
        value: Expr,
    },
    /// `if cond { yes } else { no }`
    If {
        /// The condition, which holds where it is not 0.
        cond: Expr,
        /// What runs where it holds.
        yes: Items<Stmt>,
        /// What runs where it does not. An omitted `else` is empty.
        no: Items<Stmt>,
    },
    /// `while cond { body }`
    While {
        /// The condition, which holds where it is not 0.
        cond: Expr,
        /// What runs while it holds.
        body: Items<Stmt>,
    },
}

/// A declaration.
#[derive(Drop)]
pub enum Decl {
    /// `var NAME = initial;`
    Var {
        /// The variable.
        name: Ident,
        /// Its initial value; 0 where the source omits it.
        initial: i64,
    },
    /// `array NAME[len];`
    Array {
        /// The array.
        name: Ident,
        /// Its number of elements; from a source it is 0 or more.
        len: i64,
    },
}

/// A program: declarations, then statements.
#[derive(Drop)]
pub struct Program {
    /// The declarations, in order.
    pub decls: Items<Decl>,
    /// The statements, in order.
    pub body: Items<Stmt>,
}
