//! What a soak writes: a large program is generated from a number, its text is read again, compiled
//! on the default machine, evaluated, and run on both units at three paces.
//!
//! `specs/Generator.antt` defines the program of each seed, `specs/Draws.antt` the numbers that it draws.
//! `specs/Soak.antt` has the text, `specs/Lines.antt` its seven last lines. It asks for no file, and a
//! seed and a number of items have exactly one text.
#![tactic(auto)]

mod draws;
mod evaluating;
mod expressions;
mod folding;
mod generator;
mod generator_laws;
mod laws;
mod lines;
mod pace;
mod program;
mod running;
mod sizes;
mod statements;
mod writing;

pub use generator::generate;
pub use generator_laws::{
    generated_texts_are_read_back, generated_texts_are_short, generated_trees_are_named,
    generated_trees_are_plain, same_trees_are_named_alike,
};
pub use laws::{ends_agree, runs_are_shown, soaks_agree, soaks_have_one_text, soaks_settle};
pub use pace::Pace;
pub use sizes::{MOST_DECLARATION_BYTES, MOST_ITEM_BYTES};
pub use writing::write_soak;
