//! The kinds of fault, in the order in which they are tried.

/// A word begins with `-`.
pub const OPTION: u8 = 1;

/// There is no word.
pub const NO_WORD: u8 = 2;

/// The first word is no command.
pub const NO_COMMAND: u8 = 3;

/// The command takes a number, and there is none.
pub const NO_NUMBER: u8 = 4;

/// The number is misspelt or too large.
pub const BAD_NUMBER: u8 = 5;

/// There is a word too many.
pub const WORD_TOO_MANY: u8 = 6;
