//! Insertion of barriers: the line of a block's greedy schedule, with a barrier before each tuple
//! that has a producer which nothing else orders before it.
//!
//! `specs/Inserted.antt` says what the inserted line is, `specs/Laws.antt` what follows.
#![tactic(auto)]

mod insertion;
mod laws;
mod order;

pub use insertion::insert;
pub use laws::laws_of_insertion;
