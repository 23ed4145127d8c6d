//! Why a tree has no resolved program.

use std::alloc::AllocError;
use thiserror::Error;

/// The first fault of a program's declarations and uses of names. Places are in bytes, from 0; the
/// place of a name is that of its first byte.
#[derive(Clone, Copy, Debug, PartialEq, Eq, Error)]
pub enum NameFault {
    /// A use of a name that is not declared.
    #[error("unknown name at {at}")]
    Unknown {
        /// The use's place.
        at: u32,
    },
    /// A second declaration of a name.
    #[error("name declared twice at {at}, first at {first}")]
    Twice {
        /// The place of the second.
        at: u32,
        /// The place of the first.
        first: u32,
    },
    /// A variable that is used as an array.
    #[error("not an array at {at}")]
    NotArray {
        /// The use's place.
        at: u32,
    },
    /// An array that is used as a variable.
    #[error("not a variable at {at}")]
    NotScalar {
        /// The use's place.
        at: u32,
    },
    /// Over 1024 declarations.
    #[error("{count} names")]
    TooManyNames {
        /// How many there are, or 2^32 - 1 where there are more.
        count: u32,
    },
    /// An array of no elements, or one with which all arrays have over 1,048,576 elements.
    #[error("array of {n} elements at {at}")]
    ArraySize {
        /// The place of the array's name.
        at: u32,
        /// The array's size.
        n: i64,
    },
    /// No memory for the program.
    #[error("no memory")]
    Memory,
}

impl From<AllocError> for NameFault {
    ghost use Rattle.std.specs.Prelude.{◌≡◌};
    ghost use Rattle.src_names.specs.declared.fault.NameFault.TheVariants.{Memory};

    ghost from_gives = { λ _ e. e ≡ Memory };

    fn from(_: AllocError) -> Self {
        NameFault::Memory
    }
}
