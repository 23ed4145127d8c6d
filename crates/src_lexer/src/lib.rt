//! From the bytes of a program to its tokens.
//!
//! `lex` gives exactly the tokens that a text spells, in order, each the slice of the text that it
//! stands for, or the first fault by place. Places are counted in bytes from 0.
#![tactic(auto)]

mod fault;
mod laws;
mod pieces;
mod scan;
mod token;

pub use fault::LexFault;
pub use laws::{spelled_tokens_are_in_order, text_has_one_spelling, texts_have_one_answer};
pub use scan::lex;
pub use token::{Keyword, Symbol, Token, TokenKind};
