//! Reduction of a line: barriers that are not needed go, and neighbours of the queue merge.
//!
//! `specs/Reduced.antt` says what the reduced line is, `specs/Laws.antt` what follows.
#![tactic(auto)]

mod laws;
mod turns;

pub use laws::laws_of_reduction;
pub use turns::reduce;
