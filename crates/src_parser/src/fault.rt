//! Why tokens spell no program.

use crate::want::Want;
use std::alloc::AllocError;
use thiserror::Error;

/// The first fault of a text's tokens. Places are in bytes, from 0.
#[derive(Clone, Copy, Debug, PartialEq, Eq, Error)]
pub enum ParseFault {
    /// A token with which no program goes on, or the end of the text.
    #[error("expected something else at {at}")]
    Expected {
        /// The token's place; at the end of the text its length.
        at: u32,
        /// What could have come.
        what: Want,
    },
    /// A token that would make depth 65.
    #[error("nested too deep at {at}")]
    TooDeep {
        /// The token's place.
        at: u32,
    },
    /// A token that would be its statement's 121st node.
    #[error("too many nodes at {at} in the statement at {first}")]
    TooManyNodes {
        /// The token's place.
        at: u32,
        /// The place of the statement's first byte.
        first: u32,
    },
    /// No memory for the tree.
    #[error("no memory")]
    Memory,
}

impl From<AllocError> for ParseFault {
    ghost use Rattle.std.specs.Prelude.{◌≡◌};
    ghost use Rattle.src_parser.specs.declared.fault.ParseFault.TheVariants.{Memory};

    ghost from_gives = { λ _ e. e ≡ Memory };

    fn from(_: AllocError) -> Self {
        ParseFault::Memory
    }
}
