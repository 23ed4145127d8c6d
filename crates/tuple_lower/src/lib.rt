//! From a resolved program to its blocks of tuples.
//!
//! [`lower`] gives the blocks of a program, which mean what the program means.
#![tactic(auto)]

mod draft;
mod laws;
mod lowering;

pub use laws::{lowered_blocks_mean_their_programs, lowered_tuples_fit};
pub use lowering::lower;
