//! Bounds of a line: when its points happen at the earliest and at the latest, in ticks since the
//! block's start or since a barrier; which tuples are ordered by them, and a line that is edited.
//!
//! After the timing analysis of Zaafrani, Dietz and O'Keefe, "Static Scheduling for Barrier MIMD
//! Architectures", in outline. That the queue of masks enters the latest ticks alone is this
//! project's own rule.
#![tactic(auto)]

mod along;
mod bounds;
mod edit;
mod examples;
mod front;
mod knows;
mod laws;
mod least;
mod members;
mod places;
mod reference;
mod rows;
pub mod seen;
mod timed;
mod timeline;
mod timing;
mod walk;

pub use along::run_of;
pub use bounds::Bounds;
pub use edit::Edit;
pub use examples::{bounds_examples, queue_examples};
pub use laws::laws_of_lines;
pub use reference::{Point, Reason, Reference};
pub use timed::copy_of;
pub use timeline::Timeline;
