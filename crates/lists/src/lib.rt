//! Lists: the vector that contracts see as a list, and the words on lists and tables that every layer cites.
#![tactic(auto)]

mod items;

pub use items::Items;
