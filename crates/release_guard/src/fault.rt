//! What is wrong with a release order, by itself or for a volume.

ghost use Rattle.std.specs.Prelude.{◌≡◌};
ghost use Rattle.release_guard.specs.declared.fault.Refusal.TheVariants.{Memory, Code as Refused};
ghost use Rattle.release_guard.specs.declared.fault.OrderError.TheVariants.{NoMemory};
ghost use Rattle.release_guard.specs.declared.fault.ReleaseError.TheVariants.{NoMemory as NoRoom};

use std::alloc::{AllocError, AllocFailed};
use std::fmt;

/// What is wrong with a line.
#[derive(Clone, Copy, Debug, PartialEq, Eq)]
pub enum Code {
    /// A byte that isn't allowed.
    Bytes = 1,
    /// No form that may stand here.
    Form = 2,
    /// A misspelt number.
    Number = 3,
    /// A number out of its range.
    Range = 4,
    /// A label that is refused.
    Label = 5,
    /// A class name that is no name.
    Name = 6,
    /// The name or label of an earlier class.
    Twice = 7,
    /// A label that doesn't dominate that of class 0.
    Low = 8,
    /// The 65th release.
    Limit = 11,
    /// The final `end` is missing.
    Missing = 12,
}

/// Why a line isn't taken.
#[derive(Clone, Copy, Debug)]
pub enum Refusal {
    /// What is wrong with it.
    Code(Code),
    /// Memory ran out.
    Memory,
}

impl From<AllocError> for Refusal {
    ghost from_gives = { λ _ e. e ≡ Memory };

    fn from(_e: AllocError) -> Refusal {
        Refusal::Memory
    }
}

impl<T: Drop> From<AllocFailed<T>> for Refusal {
    ghost from_gives = { λ _ e. e ≡ Memory };

    fn from(_e: AllocFailed<T>) -> Refusal {
        Refusal::Memory
    }
}

impl From<Code> for Refusal {
    ghost from_gives = { λ c e. e ≡ Refused c };

    fn from(code: Code) -> Refusal {
        Refusal::Code(code)
    }
}

/// Why a text is no release order.
#[derive(Clone, Copy, Debug, PartialEq, Eq)]
pub enum OrderError {
    /// The first faulty line, counted from 1, with its least code: from 1 to 8, 11 or 12.
    Fault { line: u32, code: u8 },
    /// Memory ran out.
    NoMemory,
}

impl fmt::Display for OrderError {
    fn fmt<W: fmt::Write>(&self, f: &mut fmt::Formatter<W>) -> fmt::Result {
        match self {
            OrderError::Fault { line, code } => {
                write!(f, "line {line} is at fault (code {code})")
            }
            OrderError::NoMemory => f.write_str("out of memory"),
        }
    }
}

impl From<AllocError> for OrderError {
    ghost from_gives = { λ _ e. e ≡ NoMemory };

    fn from(_e: AllocError) -> OrderError {
        OrderError::NoMemory
    }
}

/// What a release lacks in a volume.
#[derive(Clone, Copy, Debug, PartialEq, Eq)]
pub enum Lack {
    /// No record of the source.
    Source = 13,
    /// The source has no kept words.
    Words = 14,
    /// No record of the target.
    Target = 15,
    /// The sizes differ.
    Size = 16,
}

/// Why an order can't be carried out on a volume.
#[derive(Clone, Copy, Debug, PartialEq, Eq)]
pub enum ReleaseError {
    /// The line of the first release at fault, with its least code, from 13 to 16.
    Fault { line: u32, code: u8 },
    /// Memory ran out.
    NoMemory,
}

impl fmt::Display for ReleaseError {
    fn fmt<W: fmt::Write>(&self, f: &mut fmt::Formatter<W>) -> fmt::Result {
        match self {
            ReleaseError::Fault { line, code } => {
                write!(f, "the release of line {line} is at fault (code {code})")
            }
            ReleaseError::NoMemory => f.write_str("out of memory"),
        }
    }
}

impl From<AllocError> for ReleaseError {
    ghost from_gives = { λ _ e. e ≡ NoRoom };

    fn from(_e: AllocError) -> ReleaseError {
        ReleaseError::NoMemory
    }
}

impl<T: Drop> From<AllocFailed<T>> for ReleaseError {
    ghost from_gives = { λ _ e. e ≡ NoRoom };

    fn from(_e: AllocFailed<T>) -> ReleaseError {
        ReleaseError::NoMemory
    }
}
