//! What a resolved program means, and its evaluation.
//!
//! `specs/Meaning` has the meaning: a recursion over statements and turns, where each test of a loop
//! that is not 0 spends one turn. [`eval`] computes it word by word.
#![tactic(auto)]

mod evaluate;
mod laws;

pub use evaluate::{End, eval};
pub use laws::{loops_go_round, turns_only_add};
