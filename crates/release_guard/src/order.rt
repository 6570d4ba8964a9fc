//! A release order.

use labels::ClassTable;
use lists::Items;
use words_layout::SegId;

/// The most lines `release` of an order.
pub const MAX_RELEASES: usize = 64;

/// One release: the kept words of the source go into the target.
#[derive(Clone, Copy, Debug, PartialEq, Eq)]
pub struct Release {
    /// The line of the order, counted from 1.
    pub line: u32,
    /// The source.
    pub from: SegId,
    /// The target.
    pub to: SegId,
}

/// A whole release order.
#[derive(Drop)]
pub struct Order {
    pub table: ClassTable,
    /// At most 64, in the order of their lines.
    pub releases: Items<Release>,
    /// The class at or below which records are exported.
    pub export: u8,
}

/// Which line of an order comes next.
#[derive(Clone, Copy, Debug, PartialEq, Eq)]
pub enum Stage {
    Header,
    Count,
    Classes,
    /// A release or the export.
    Releases,
    End,
    /// Nothing.
    Ended,
}
