//! Trees from tokens.
//!
//! `parse` gives exactly the program that the tokens of a text derive within the limits on depth and
//! nodes, or the first fault by token. The parser is a machine over tokens: `act` tells what a token
//! does where it stands, `apply` does it to what is open.
#![tactic(auto)]

mod act;
mod apply;
mod fault;
mod laws;
mod machine;
mod operand;
mod program;
mod stack;
mod tally;
mod want;

pub use fault::ParseFault;
pub use laws::{
    text_of_a_plain_tree_is_parsed_again, tokens_have_one_answer, tokens_have_one_tree,
};
pub use program::parse;
pub use want::Want;
