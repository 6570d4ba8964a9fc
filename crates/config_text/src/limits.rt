//! The limits of a configuration.

/// The most classes.
pub const MAX_CLASSES: u64 = 16;

/// The most page frames of a class.
pub const MAX_FRAMES: u64 = 16;

/// The most pages of a class.
pub const MAX_PAGES: u64 = 32;

/// The most volumes.
pub const MAX_VOLUMES: u64 = 4;

/// The most processors.
pub const MAX_PROCESSORS: u64 = 4;

/// The most classes of a cycle, where a class may stand more than once.
pub const MAX_CYCLE: u64 = 16;

/// The most rounds.
pub const MAX_ROUNDS: u64 = 4096;

/// The most events of a quantum.
pub const MAX_QUANTUM: u64 = 256;

/// The most console lines of a class.
pub const MAX_CONSOLE: u64 = 4096;

/// The most scripts.
pub const MAX_SCRIPTS: usize = 32;

/// The most gates.
pub const MAX_GATES: usize = 32;

/// The most processes of a class on a processor.
pub const MAX_PROCESSES: usize = 4;

/// The greatest ring.
pub const MAX_RING: u64 = 7;

/// The most events of a schedule.
pub const MAX_EVENTS: u64 = 4_194_304;
