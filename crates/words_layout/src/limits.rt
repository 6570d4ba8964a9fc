//! The limits of the layout.

/// How many access classes there are at most.
pub const CLASS_LIMIT: u8 = 16;

/// How many segments may have mentors of one class: their serials are below this.
pub const SERIAL_LIMIT: u8 = 64;

/// How many entries a segment has.
pub const ENTRY_COUNT: u8 = 8;

/// How many frames a class may have.
pub const FRAME_LIMIT: u8 = 16;

/// How many pages a class may have.
pub const PAGE_LIMIT: u8 = 32;

/// How many words a segment has at most, and how many a frame or a page has room for.
pub const SIZE_LIMIT: u8 = 64;

/// How many words the layout has for each class.
pub const CLASS_WORDS: u32 = 34_869;
