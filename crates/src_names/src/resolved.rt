//! The resolved program. A name is its number, the place of its declaration from 0.

ghost use Rattle.std.specs.Prelude.{◌≡◌, ◌≤◌, length};
ghost use Rattle.src_names.specs.Right.{IsRight};

use bm_base::{Bin, Names, Un};
use sqlite_items::{Boxed, Items};
use std::marker::Model;

/// An expression. Each value is a word.
#[derive(Drop)]
pub enum RExpr {
    /// A number.
    Number {
        /// The number.
        value: i64,
    },
    /// The value of a variable.
    Var {
        /// The variable's number.
        name: u16,
    },
    /// The element of an array at an index.
    Element {
        /// The array's number.
        name: u16,
        /// The index, from 0.
        index: Boxed<RExpr>,
    },
    /// A unary operator and its operand.
    One {
        /// The operator.
        op: Un,
        /// The operand.
        a: Boxed<RExpr>,
    },
    /// A binary operator between its operands.
    Two {
        /// The operator.
        op: Bin,
        /// The left operand.
        a: Boxed<RExpr>,
        /// The right operand.
        b: Boxed<RExpr>,
    },
}

/// A statement.
#[derive(Drop)]
pub enum RStmt {
    /// A variable takes a value.
    Assign {
        /// The variable's number.
        name: u16,
        /// Its new value.
        value: RExpr,
    },
    /// An element of an array takes a value.
    SetElement {
        /// The array's number.
        name: u16,
        /// The index, from 0.
        index: RExpr,
        /// The element's new value.
        value: RExpr,
    },
    /// A value is printed.
    Print {
        /// What is printed.
        value: RExpr,
    },
    /// One of two bodies runs.
    If {
        /// The condition, which holds where it is not 0.
        cond: RExpr,
        /// What runs where it holds.
        yes: Items<RStmt>,
        /// What runs where it does not.
        no: Items<RStmt>,
    },
    /// A body runs again and again.
    While {
        /// The condition, which holds where it is not 0.
        cond: RExpr,
        /// What runs while it holds.
        body: Items<RStmt>,
    },
}

/// A resolved program: its declared names and its statements. Each name number in them is declared,
/// and of a variable or an array as its place asks for. A contract sees both as one record.
#[derive(Drop)]
pub struct Resolved {
    names: Names,
    body: Items<RStmt>,
}

impl Model for Resolved {
    ghost use Rattle.src_names.specs.RProgram.{RProgram};
    ghost use Rattle.src_names.specs.Right.{IsRight};
    ghost use Rattle.src_names.specs.contracts.resolved.RStmt as statement;
    ghost use Rattle.std.specs.Coded.{codes};

    ghost Value = { RProgram };

    ghost coded = { Prim.hlevel (codes, statement.the_row.coded) };

    ghost view = { λ r. record { names = r.names; body = r.body } };

    ghost invariant = { λ r. IsRight (record { names = r.names; body = r.body }) };
}

impl Resolved {
    /// A program of these names, which the statements use rightly.
    pub(crate) fn new(names: Names, body: Items<RStmt>) -> Resolved
        requires { IsRight (record { names = names; body = body }) }
        ensures { result ≡ record { names = names; body = body } }
    {
        Resolved { names, body }
    }

    /// The declared names, by number.
    pub fn names(&self) -> &Names
        ensures value { result.now ≡ self.now.names }
        ensures right { IsRight self.now }
    {
        &self.names
    }

    /// The statements, in order.
    pub fn body(&self) -> &[RStmt]
        ensures value { result.now ≡ self.now.body }
        ensures right { IsRight self.now }
    {
        self.body.as_slice()
    }
}
