//! Script text, read and printed.
#![tactic(auto)]

mod draft;
mod fault;
mod laws;
mod named;
mod names;
mod op;
mod operands;
mod printing;
mod reading;
mod word;

pub use fault::{AsmError, Code};
pub use laws::{printed_again, spelling_laws};
pub use printing::print;
pub use reading::{assemble, read_lines};
