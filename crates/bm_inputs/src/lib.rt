//! What commands read: programs, machines, images, scripts and data, and how their files are refused.
//!
//! `specs/Sources.antt` has the course of a source file, `Machines` that of a machine, `Images` that of an image, `Scripts`
//! and `Memories` those of a script and of data, `Beginning` that of what a run begins with behind an image. `SourceLines`,
//! `MachineLines`, `ImageLines`, `ScriptLines` and `DataLines` have the statuses and the lines of refusals, `Counts` the line
//! of an image's counts.
#![tactic(auto)]

mod begun;
mod counts;
mod image;
mod image_laws;
mod image_lines;
mod laws;
mod machine;
mod machine_lines;
mod memory;
mod pieces;
mod run_laws;
mod run_lines;
mod script;
mod source;
mod source_lines;

pub use begun::{Begun, begin};
pub use counts::image_line;
pub use image::loaded_image;
pub use image_laws::{images_have_one_step, images_settle, loaded_images_are_images};
pub use laws::{inputs_are_right, inputs_have_one_step, inputs_settle};
pub use machine::named_machine;
pub use memory::given_memory;
pub use run_laws::{beginnings_have_one_step, beginnings_settle, memories_are_right};
pub use script::named_script;
pub use source::source_of;
