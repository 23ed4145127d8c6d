//! Words and their operators, masks, declared names, memory, machines and texts
//! of numbers, which the other crates share.
#![tactic(auto)]

mod hex_digits;
mod limits;
mod lines;
mod mask;
mod mixing;
mod names;
mod numerals;
mod piece;
mod sequence;
mod spec;
mod store;
mod strict;
mod word;

pub use hex_digits::{hex, laws_of_hexadecimal};
pub use limits::{
    MOST_BUDGET, MOST_DATA_BYTES, MOST_DELAY, MOST_DEPTH, MOST_ELEMENTS, MOST_IMAGE_BYTES,
    MOST_MACHINE_BYTES, MOST_MASK_DIGITS, MOST_MASKS, MOST_NAME_BYTES, MOST_NAMES, MOST_NODES,
    MOST_PROCESSORS, MOST_SCRIPT_BYTES, MOST_SOURCE_BYTES, MOST_STATEMENTS, MOST_TICKS,
    MOST_TUPLES, MOST_TURNS,
};
pub use lines::{LineOf, Lines, laws_of_lines, split_at_byte};
pub use mask::{Mask, laws_of_masks};
pub use mixing::mixed;
pub use names::{Kind, Names, NamesFault, begins_name, goes_on_name, has_name_form};
pub use numerals::{BadNumber, count, number};
pub use piece::Piece;
pub use sequence::Sequence;
pub use spec::{Class, Interval, Spec};
pub use store::{Store, laws_of_memories};
pub use strict::{laws_of_strict_numbers, strict_count, strict_number};
pub use word::{Bin, Un, apply1, apply2, laws_of_words};
