//! The statuses with which a call ends.

/// It has ended, or is done.
pub const ENDED: u8 = 0;

/// The words match no row of the command table.
pub const USAGE: u8 = 1;

/// The source is no program.
pub const SOURCE: u8 = 2;

/// A limit is passed.
pub const LIMIT: u8 = 3;

/// The machine file describes no machine.
pub const MACHINE: u8 = 4;

/// An image is none.
pub const IMAGE: u8 = 5;

/// A script is none.
pub const SCRIPT: u8 = 6;

/// Data are none.
pub const DATA: u8 = 7;

/// It is still going.
pub const GOING: u8 = 8;

/// A file cannot be read.
pub const UNREAD: u8 = 9;

/// A write failed.
pub const UNWRITTEN: u8 = 10;

/// There is no memory.
pub const MEMORY: u8 = 11;
