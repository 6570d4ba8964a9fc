//! Access labels, their order, their text and bytes, and the table of the access classes.
#![tactic(auto)]

mod entries;
mod fault;
mod half;
mod label;
mod laws;
mod printing;
mod table;

pub use fault::{LabelFault, TableFault};
pub use label::{Label, MAX_LEVEL};
pub use laws::{class_laws, order_laws, text_laws, twin_laws};
pub use table::{ClassTable, MAX_CLASSES};
