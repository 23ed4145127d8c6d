// The limits of programs, machines, commands and files.

/// How many processors a machine has at most. A mask has room for so many.
pub const MOST_PROCESSORS: u8 = 128;

/// How many ticks lie at most between the firing of a mask and the resuming of its members.
pub const MOST_DELAY: u8 = 100;

/// How many items a generated program has at most.
pub const MOST_STATEMENTS: u32 = 10_000;

/// How many ticks an instruction takes at most.
pub const MOST_TICKS: u16 = 1000;

/// How many names a program declares at most.
pub const MOST_NAMES: usize = 1024;

/// How many bytes a name has at most.
pub const MOST_NAME_BYTES: usize = 64;

/// How many elements all arrays of a program have together at most.
pub const MOST_ELEMENTS: u32 = 1_048_576;

/// How many tuples a block has at most.
pub const MOST_TUPLES: usize = 128;

/// How many masks the queue of a block has at most.
pub const MOST_MASKS: usize = 128;

/// How many nodes a statement has at most.
pub const MOST_NODES: u32 = 120;

/// How deep parentheses, signs, brackets and braces of a program stand in one another at most.
pub const MOST_DEPTH: u32 = 64;

/// How many hexadecimal digits a mask has at most.
pub const MOST_MASK_DIGITS: usize = 32;

/// How many rounds of its loops a source is evaluated for at most.
pub const MOST_TURNS: u64 = 1_000_000_000;

/// How many ticks a machine is run for at most.
pub const MOST_BUDGET: u64 = 1_000_000_000_000;

/// How many bytes a source has at most.
pub const MOST_SOURCE_BYTES: usize = 262_144;

/// How many bytes a machine file has at most.
pub const MOST_MACHINE_BYTES: usize = 65_536;

/// How many bytes a script of times has at most.
pub const MOST_SCRIPT_BYTES: usize = 16_777_216;

/// How many bytes a file of data has at most.
pub const MOST_DATA_BYTES: usize = 16_777_216;

/// How many bytes an image has at most.
pub const MOST_IMAGE_BYTES: usize = 134_217_728;
