//! Why a text has no tokens.

use crate::token::Token;
use std::alloc::AllocFailed;
use thiserror::Error;

/// The first fault of a text, by place. Places and lengths are in bytes.
#[derive(Clone, Copy, Debug, PartialEq, Eq, Error)]
pub enum LexFault {
    /// A byte that begins no token, no comment and no white space.
    #[error("bad byte at {at}")]
    BadByte {
        /// The byte's place.
        at: u32,
    },
    /// A number over 2^63 - 1.
    #[error("number too large at {at}")]
    LongNumber {
        /// The place of its first digit.
        at: u32,
    },
    /// A name of over 64 bytes.
    #[error("name of {len} bytes at {at}")]
    LongName {
        /// The place of its first byte.
        at: u32,
        /// Its length.
        len: u32,
    },
    /// No memory for the tokens.
    #[error("no memory")]
    Memory,
}

impl From<AllocFailed<Token>> for LexFault {
    ghost use Rattle.std.specs.Prelude.{◌≡◌};
    ghost use Rattle.src_lexer.specs.declared.fault.LexFault.TheVariants.{Memory};

    ghost from_gives = { λ _ e. e ≡ Memory };

    fn from(_: AllocFailed<Token>) -> Self {
        LexFault::Memory
    }
}
