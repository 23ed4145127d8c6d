//! The command table: what the words of a command line ask for.
//!
//! `specs/Table.antt` has the rows. A word that matches none of a row's makes the whole line a usage fault.
#![tactic(auto)]

mod command;
mod laws;
mod rows;
mod words;

pub use command::{Command, DataWord, MachineWord, RunWords, ScriptWord, UnitWord};
pub use laws::requests_are_in_range;
pub use rows::match_words;
