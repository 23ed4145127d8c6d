// How long the text of a generated program is at most.

/// How many bytes an item of a generated program has at most in its canonical text.
pub const MOST_ITEM_BYTES: usize = 4600;

/// How many bytes the declarations of a generated program have at most in its canonical text.
pub const MOST_DECLARATION_BYTES: usize = 200;
