//! The resolved program of a tree: each name is declared, of the right kind, and stands as its
//! number.
//!
//! `resolve` gives exactly the program that names the tree, or the first fault of its declarations
//! and uses.
#![tactic(auto)]

mod body;
mod declare;
mod fault;
mod laws;
mod naming;
mod resolved;

pub use fault::NameFault;
pub use laws::{trees_have_one_answer, trees_have_one_program};
pub use naming::resolve;
pub use resolved::{RExpr, RStmt, Resolved};
