//! What a text is allowed at most: the numbers of `specs/Limits.antt`.

/// The most bytes of a file: 2^20.
pub const LONGEST_FILE: usize = 1 << 20;

/// The most characters of a line.
pub const LONGEST_LINE: usize = 132;

/// The first continuation line of a statement that is one too many.
pub const TOO_MANY_LINES: u8 = 40;
