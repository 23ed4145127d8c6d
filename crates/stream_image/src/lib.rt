//! Images: blocks with their streams and masks, and what they keep.
//!
//! An image holds the tuples of all its blocks in one vector, and so their masks and the items of
//! their streams, with the places where each block's end.
#![tactic(auto)]

mod builder;
mod bytes;
mod check;
mod fault;
mod given;
mod image;
mod laws;
mod line;
mod lists;
mod order;
mod shelf;
mod sorted;
mod stream_list;

pub use builder::ImageBuilder;
pub use fault::ImageFault;
pub use given::{Stream, StreamItems};
pub use image::Image;
pub use laws::{
    images_are_built_again, images_are_determinate, lines_have_their_streams,
    refused_blocks_are_not_accepted, test_is_what_a_block_keeps, told_fault_is_the_first,
};
pub use order::Wrong;
