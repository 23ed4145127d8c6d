//! The text of a listing: how each block of a program runs on a machine.
//!
//! `specs/Shown.antt` says what is shown of a block: the items of its plan's reduced line with the
//! schedule's starts, its conflicting pairs with the reasons why they are in order, and what follows
//! it; `specs/Listing.antt` has the lines. All of it is worked out before the first line is written.
#![tactic(auto)]

mod laws;
mod shown;
mod writing;

pub use laws::{programs_are_shown, programs_are_shown_once};
pub use shown::{ShownBlock, ShownItem, ShownPair, show_program};
pub use writing::write_listing;
