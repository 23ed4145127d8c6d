//! What scripts and files of data say: rows of fields, rules that give each instruction its duration, and values
//! that are laid over the declared ones.
//!
//! `specs/Rows.antt` says which rows of fields a text has, `Script` and `Text` what a script is and which texts are
//! one, `Data` which bytes are a file of data and what memory it gives; `Reading` and `DataReading` say what is wrong
//! with others.
#![tactic(auto)]

mod data_laws;
mod data_reading;
mod fault;
mod fields;
mod gift;
mod laws;
mod laying;
mod offsets;
mod reading;
mod rows;
mod script;
mod seed;

pub use data_laws::data_has_one_answer;
pub use data_reading::read_data;
pub use fault::DataFault;
pub use fields::Fields;
pub use laws::{script_texts_have_one_answer, scripts_reach_all_timings};
pub use offsets::Offsets;
pub use reading::ScriptFault;
pub use rows::{Row, Rows, laws_of_rows};
pub use script::Script;
pub use timing_law::Timing;
