//! What the language sets a limit to: the numbers of `specs/Limits.antt`.

/// The characters of a word.
pub const LONGEST_WORD: usize = 31;

/// The dimensions of an array.
pub const GREATEST_RANK: usize = 7;

/// The elements of an array, and the cells of a block.
pub const MOST_ELEMENTS: u32 = 1 << 24;

/// The bytes of a text.
pub const LONGEST_TEXT: usize = 255;
