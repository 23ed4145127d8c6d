//! The text of an image, both ways.
#![tactic(auto)]

mod built;
mod cuts;
mod draft;
mod fault;
mod line;
mod loading;
mod reading;
mod words;
mod writing;

pub use loading::{LoadFault, load};
pub use reading::{images_have_texts, texts_have_one_answer};
pub use writing::write_image;
