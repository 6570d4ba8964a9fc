//! Instructions and programs.
#![tactic(auto)]

mod instr;
mod operand;
mod program;

pub use instr::Instr;
pub use operand::{Index, Reg};
pub use program::{Program, ProgramError};
