//! What the gates have in common: how a loaded word is taken, what a gate replies, and how a gate runs in its turns.
#![tactic(auto)]

mod body;
mod next;
mod nothing;
mod taken;
mod whole_lists;
mod work;

pub use body::Body;
pub use next::Next;
pub use nothing::no_segment;
pub use taken::{entry_taken, home_taken};
pub use whole_lists::whole_lists_law;
pub use work::{InTurns, Work};
