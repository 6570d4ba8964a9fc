//! What the top call answers.

ghost use Rattle.std.specs.Prelude.{◌≡◌};
ghost use Rattle.command_input.specs.StatusNumber.{status_number};

/// Why an input is refused.
#[derive(Clone, Copy, Debug, PartialEq, Eq)]
pub enum Refusal {
    /// The text of the configuration is faulty at this line, counted from 1.
    Config { line: u32, code: u8 },
    /// The class that was asked for isn't among the classes.
    Class { given: u8, classes: u8 },
    /// The bytes of a port are no volume, from this byte on.
    Volume { port: u8, offset: u32, code: u8 },
    /// An item of a volume, counted from 0, can't be loaded.
    Load { volume: u8, item: u16, code: u8 },
    /// A port has more bytes than its limit.
    TooLong { port: u8 },
    /// A release order is faulty at this line.
    Release { line: u32, code: u8 },
    /// The kept image is too long, or there is none.
    Store { length: u64 },
}

/// Which call of the host failed.
#[derive(Clone, Copy, Debug, PartialEq, Eq)]
pub enum PortFault {
    Read { port: u8 },
    Write { port: u8 },
    Disk,
}

/// The answer of the top call. Its `Display` is the line that says it, without a line feed.
#[derive(Clone, Copy, Debug, PartialEq, Eq)]
pub enum Status {
    /// All that was due is written, and no process is live.
    Done,
    /// The input is refused.
    Refused(Refusal),
    /// The words of the command aren't accepted.
    Usage { kind: u8 },
    /// A call of the host failed.
    HostFault(PortFault),
    /// All that was due is written, and some process is live.
    Unfinished,
    /// Memory was refused, before the first byte was written.
    NoMemory,
}

impl Status {
    /// The number with which the program exits, from 0 to 5.
    pub fn number(&self) -> u8
        ensures { result ≡ status_number self.now }
    {
        match self {
            Status::Done => 0,
            Status::Refused(_) => 1,
            Status::Usage { .. } => 2,
            Status::HostFault(_) => 3,
            Status::Unfinished => 4,
            Status::NoMemory => 5,
        }
    }
}
