//! From the bytes of a program to its resolved program.
//!
//! `read_source` gives exactly the program that a text reads as, or its first fault.
#![tactic(auto)]

mod fault;
mod laws;
mod source;

pub use fault::SourceFault;
pub use laws::{programs_are_read_right, sources_have_one_answer, texts_read_once};
pub use source::read_source;
