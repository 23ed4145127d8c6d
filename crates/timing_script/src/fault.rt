// Why a file of data is not read.
use std::alloc::AllocError;

/// What is wrong with the first line that has a fault. Lines are counted from 1.
#[derive(Clone, Copy, Debug, PartialEq, Eq)]
pub enum DataFault {
    /// The line is not a name and one value at least.
    DataText {
        /// Its number.
        line: u32,
    },
    /// No such name is declared.
    DataName {
        /// The line's number.
        line: u32,
    },
    /// The name was given its values before.
    DataTwice {
        /// The line's number.
        line: u32,
        /// The number of the line that gave them.
        first: u32,
    },
    /// More values are given than there is room for.
    DataCount {
        /// The line's number.
        line: u32,
        /// How many are given.
        given: u32,
        /// How many the name holds.
        room: u32,
    },
    /// There is no memory.
    Memory,
}

/// Why a row is not taken by itself.
#[derive(Clone, Copy, Debug, PartialEq, Eq)]
pub enum RowFault {
    /// It is not a name and one value at least.
    Refused,
    /// There is no memory for its values.
    Memory,
}

impl From<AllocError> for RowFault {
    ghost use Rattle.std.specs.Prelude.{◌≡◌};
    ghost use Rattle.timing_script.specs.declared.fault.RowFault.TheVariants.{Memory};

    ghost from_gives = { λ _ e. e ≡ Memory };

    fn from(_: AllocError) -> Self {
        RowFault::Memory
    }
}
