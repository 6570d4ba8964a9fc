//! Why bytes spell no volume.

ghost use Rattle.std.specs.Prelude.{◌≡◌, length};
ghost use Rattle.volume_image.specs.declared.fault.Stop.TheVariants.{Fault, Memory};

use std::alloc::{AllocError, AllocFailed};
use std::fmt;

/// What is wrong with a field.
#[derive(Clone, Copy, Debug, PartialEq, Eq)]
pub enum Code {
    /// The bytes end before the field does.
    Short = 1,
    /// The first six bytes aren't `GEMVOL`.
    Magic = 2,
    /// A format other than 1 and 2.
    Format = 3,
    /// A byte that must be 0 isn't.
    Zero = 4,
    /// A number of classes that isn't the table's, or is more than the format has room for.
    Classes = 5,
    /// A level above 15.
    Level = 6,
    /// Another label than that of the class.
    Label = 7,
    /// An identity that isn't above that of the record before.
    Order = 8,
    /// A number out of its range, or brackets not in order.
    Range = 9,
    /// A mentor under which the segment can't stand.
    Mentor = 10,
    /// A class that isn't at or above that of the mentor.
    Class = 11,
    /// More bytes follow the last record.
    Behind = 12,
    /// Another name than that of the class, or of another length.
    Name = 13,
}

/// Why reading stops.
#[derive(Clone, Copy, Debug)]
pub enum Stop {
    /// A field is at fault, and so many bytes are left from its first one on.
    Fault { left: usize, code: Code },
    /// Memory ran out.
    Memory,
}

/// The bytes end before a field does.
pub const SHORT: Stop = Stop::Fault {
    left: 0,
    code: Code::Short,
};

/// The field at the front of these bytes is at fault.
pub fn fault(bytes: &[u8], code: Code) -> Stop
    ensures { result ≡ Fault (length bytes.now) code }
{
    Stop::Fault {
        left: bytes.len(),
        code,
    }
}

impl From<AllocError> for Stop {
    ghost from_gives = { λ _ e. e ≡ Memory };

    fn from(_e: AllocError) -> Stop {
        Stop::Memory
    }
}

impl<T: Drop> From<AllocFailed<T>> for Stop {
    ghost from_gives = { λ _ e. e ≡ Memory };

    fn from(_e: AllocFailed<T>) -> Stop {
        Stop::Memory
    }
}

/// Why bytes are read as no volume.
#[derive(Clone, Copy, Debug, PartialEq, Eq)]
pub enum VolumeError {
    /// The first field at fault: the offset of its first byte, and its code, from 1 to 13.
    Fault { offset: u32, code: u8 },
    /// Memory ran out.
    NoMemory,
}

impl fmt::Display for VolumeError {
    fn fmt<W: fmt::Write>(&self, f: &mut fmt::Formatter<W>) -> fmt::Result {
        match self {
            VolumeError::Fault { offset, code } => {
                write!(f, "the image is at fault at offset {offset} (code {code})")
            }
            VolumeError::NoMemory => f.write_str("out of memory"),
        }
    }
}
