//! From the bytes of a machine file to its machine.
//!
//! A machine file is a TOML text with the keys `processors` and `times`, a table with the least and
//! the greatest time of each class of instructions, and maybe the key `barrier`, the ticks between
//! the firing of a mask and the resuming of its members. `read_machine` gives its machine, or the
//! first fault.
#![tactic(auto)]

mod fault;
mod laws;
mod read;

pub use fault::{KeyName, MachineFault};
pub use laws::machine_files_mean_machines;
pub use read::read_machine;
