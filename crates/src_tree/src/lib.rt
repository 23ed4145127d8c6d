//! The tree of a program, and its canonical text.
#![tactic(auto)]

mod laws;
mod operators;
mod text;
mod tree;

pub use laws::{derived_trees_are_plain, text_of_a_plain_tree_is_read_again};
pub use operators::level;
pub use text::source;
pub use tree::{Decl, Expr, Ident, Program, Stmt};
