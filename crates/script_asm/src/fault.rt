//! What is wrong with a script's text.

ghost use Rattle.std.specs.Prelude.{◌≡◌};
ghost use Rattle.script_asm.specs.declared.fault.Refusal.TheVariants.{Memory};
ghost use Rattle.script_asm.specs.declared.fault.AsmError.TheVariants.{NoMemory};

use std::alloc::{AllocError, AllocFailed};
use std::fmt;

/// What is wrong with a line.
#[derive(Clone, Copy, Debug, PartialEq, Eq)]
pub enum Code {
    /// A byte that isn't allowed, or no mnemonic.
    Mnemonic = 1,
    /// The wrong number of operands, or a name that isn't alone or is none.
    Form = 2,
    /// A number that is misspelt or out of its range.
    Number = 3,
    /// An operand that must be a register isn't one.
    Register = 4,
    /// The name of an earlier line.
    Twice = 5,
    /// A target whose name no line has.
    Nameless = 6,
    /// The 257th instruction.
    Long = 7,
    /// The end of the text, without an instruction or after one that goes on.
    End = 8,
    /// A target that isn't below the number of instruction lines.
    Past = 9,
}

/// Why a line isn't taken.
#[derive(Clone, Copy, Debug)]
pub enum Refusal {
    /// What is wrong with it.
    Code(Code),
    /// Memory ran out.
    Memory,
}

impl From<AllocError> for Refusal {
    ghost from_gives = { λ _ e. e ≡ Memory };

    fn from(_e: AllocError) -> Refusal {
        Refusal::Memory
    }
}

impl<T: Drop> From<AllocFailed<T>> for Refusal {
    ghost from_gives = { λ _ e. e ≡ Memory };

    fn from(_e: AllocFailed<T>) -> Refusal {
        Refusal::Memory
    }
}

/// Why a text, or a list of lines, is no script.
#[derive(Clone, Copy, Debug, PartialEq, Eq)]
pub enum AsmError {
    /// The first faulty line, counted from 1, with its least code.
    Fault { line: u32, code: Code },
    /// Memory ran out.
    NoMemory,
}

impl fmt::Display for AsmError {
    fn fmt<W: fmt::Write>(&self, f: &mut fmt::Formatter<W>) -> fmt::Result {
        match self {
            AsmError::Fault { line, code } => {
                let number = *code as u8;
                write!(f, "line {line} is at fault (code {number})")
            }
            AsmError::NoMemory => f.write_str("out of memory"),
        }
    }
}

impl From<AllocError> for AsmError {
    ghost from_gives = { λ _ e. e ≡ NoMemory };

    fn from(_e: AllocError) -> AsmError {
        AsmError::NoMemory
    }
}
