//! Which tuples of a block conflict, and so must not change places in time.
//!
//! `specs/Producers.antt` has the lists of producers as a function of the tuples, `specs/Links.antt`
//! the links by which they are found, and `specs/Laws.antt` what producers are in the words of
//! conflicts.
#![tactic(auto)]

mod conflict;
mod deps;
mod laws;
mod links;
mod walk;

pub use deps::{Deps, conflicts};
pub use laws::{laws_of_links, laws_of_producers, producer_examples};
