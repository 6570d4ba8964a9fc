//! What is wrong with a configuration text.

ghost use Rattle.std.specs.Prelude.{◌≡◌};
ghost use Rattle.config_text.specs.Codes.{of_script};
ghost use Rattle.config_text.specs.declared.fault.Refusal.TheVariants.{Memory, Code as Refused};
ghost use Rattle.config_text.specs.declared.fault.ConfigError.TheVariants.{NoMemory};
ghost use Rattle.config_text.specs.declared.fault.Stop.TheVariants.{Memory as NoRoom};

use script_asm::Code as ScriptCode;
use std::alloc::{AllocError, AllocFailed};
use std::fmt;

/// What is wrong with a line.
#[derive(Clone, Copy, Debug, PartialEq, Eq)]
pub enum Code {
    /// A byte that isn't allowed.
    Bytes = 1,
    /// No form that may stand here.
    Form = 2,
    /// A misspelt number.
    Number = 3,
    /// A number out of its range, or brackets not in order.
    Range = 4,
    /// A label that is refused.
    Label = 5,
    /// A class name that is no name.
    Name = 6,
    /// The name or label of an earlier class.
    Twice = 7,
    /// A label that doesn't dominate that of class 0.
    Low = 8,
    /// A script whose class isn't at or below.
    Above = 9,
    /// The fifth process of a processor and class.
    Fifth = 10,
    /// The 33rd script or gate, or more events than a schedule may have.
    Limit = 11,
    /// The final `end` is missing.
    Missing = 12,
    /// In a script: no mnemonic.
    ScriptWord = 21,
    /// In a script: the wrong number of operands, or a name that isn't alone or is none.
    ScriptForm = 22,
    /// In a script: a number that is misspelt or out of its range.
    ScriptNumber = 23,
    /// In a script: an operand that must be a register isn't one.
    ScriptRegister = 24,
    /// In a script: the name of an earlier line.
    ScriptTwice = 25,
    /// In a script: a target whose name no line has.
    ScriptNameless = 26,
    /// In a script: the 257th instruction.
    ScriptLong = 27,
    /// The `end` of a script that has no instruction, or whose last one goes on.
    ScriptEnd = 28,
    /// In a script: a target that isn't below the number of instruction lines.
    ScriptPast = 29,
}

/// The code of a line of a configuration that has this code as a line of a script.
pub fn script_code(code: ScriptCode) -> Code
    ensures { result ≡ of_script code }
{
    match code {
        ScriptCode::Mnemonic => Code::ScriptWord,
        ScriptCode::Form => Code::ScriptForm,
        ScriptCode::Number => Code::ScriptNumber,
        ScriptCode::Register => Code::ScriptRegister,
        ScriptCode::Twice => Code::ScriptTwice,
        ScriptCode::Nameless => Code::ScriptNameless,
        ScriptCode::Long => Code::ScriptLong,
        ScriptCode::End => Code::ScriptEnd,
        ScriptCode::Past => Code::ScriptPast,
    }
}

/// Why a line isn't taken.
#[derive(Clone, Copy, Debug)]
pub enum Refusal {
    /// What is wrong with it.
    Code(Code),
    /// Memory ran out.
    Memory,
}

impl From<AllocError> for Refusal {
    ghost from_gives = { λ _ e. e ≡ Memory };

    fn from(_e: AllocError) -> Refusal {
        Refusal::Memory
    }
}

impl<T: Drop> From<AllocFailed<T>> for Refusal {
    ghost from_gives = { λ _ e. e ≡ Memory };

    fn from(_e: AllocFailed<T>) -> Refusal {
        Refusal::Memory
    }
}

impl From<Code> for Refusal {
    ghost from_gives = { λ c e. e ≡ Refused c };

    fn from(code: Code) -> Refusal {
        Refusal::Code(code)
    }
}

/// Why a line and those behind it aren't taken.
#[derive(Clone, Copy, Debug)]
pub enum Stop {
    /// A line has a code: this one at 0, those behind it from 1 on.
    Fault { offset: usize, code: Code },
    /// Memory ran out.
    Memory,
}

impl From<AllocError> for Stop {
    ghost from_gives = { λ _ e. e ≡ NoRoom };

    fn from(_e: AllocError) -> Stop {
        Stop::Memory
    }
}

impl<T: Drop> From<AllocFailed<T>> for Stop {
    ghost from_gives = { λ _ e. e ≡ NoRoom };

    fn from(_e: AllocFailed<T>) -> Stop {
        Stop::Memory
    }
}

/// Why a text is no configuration.
#[derive(Clone, Copy, Debug, PartialEq, Eq)]
pub enum ConfigError {
    /// The first faulty line, counted from 1, with its least code, from 1 to 12 or from 21 to 29.
    Fault { line: u32, code: u8 },
    /// Memory ran out.
    NoMemory,
}

impl fmt::Display for ConfigError {
    fn fmt<W: fmt::Write>(&self, f: &mut fmt::Formatter<W>) -> fmt::Result {
        match self {
            ConfigError::Fault { line, code } => {
                write!(f, "line {line} is at fault (code {code})")
            }
            ConfigError::NoMemory => f.write_str("out of memory"),
        }
    }
}

impl From<AllocError> for ConfigError {
    ghost from_gives = { λ _ e. e ≡ NoMemory };

    fn from(_e: AllocError) -> ConfigError {
        ConfigError::NoMemory
    }
}
