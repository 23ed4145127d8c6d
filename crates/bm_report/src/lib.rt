//! The lines that tell how a run ended, the memory that it left, and what a program was compiled to.
//!
//! `specs/Text.antt` has the lines of runs, each of which is one write; `specs/Summary.antt` those of a
//! summary, `specs/Listing.antt` those of a listing.
#![tactic(auto)]

mod ending;
mod event;
mod held_line;
mod listing;
mod memory;
mod summary;

pub use ending::{write_done, write_end, write_going};
pub use event::event_line;
pub use held_line::memory_line;
pub use listing::{item_line, next_line, pair_line};
pub use summary::{Summary, summary_line};
