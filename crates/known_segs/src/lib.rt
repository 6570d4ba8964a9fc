//! The known table of a process: the segments that it knows, by number.
#![tactic(auto)]

mod table;

pub use table::KnownTable;
