//! What the words may ask for.

/// What the words ask for.
#[derive(Clone, Copy, Debug, PartialEq, Eq)]
pub enum Plan {
    /// `sim`: to run the configuration at port 0 by its schedule and print its report.
    Sim,
    /// `run`: to run its rounds, with a thread for each processor.
    Run,
    /// `show`: to print the configuration.
    Show,
    /// `view N`: to print what the class with this number is shown, 0 to 15.
    View { class: u8 },
    /// `large N`: to run the large configuration of this number.
    Large { number: u64 },
    /// `audit N`: to print the accesses and replies that the class with this number is shown, 0 to 15.
    Audit { class: u8 },
    /// `guard`: to carry out a release order on a volume.
    Guard,
    /// `save`: to keep a volume on the disk.
    Save,
    /// `restore`: to give the kept volume back.
    Restore,
}

/// Why the words ask for nothing.
#[derive(Clone, Copy, Debug, PartialEq, Eq, Drop)]
pub enum PlanError {
    /// The list isn't accepted. The kinds, 1 to 6, are tried in their order. 1: a word begins with `-`. 2: there is no word. 3: the
    /// first word is no command. 4: the number is missing. 5: the number is misspelt or out of range. 6: there is a word too many.
    Fault { kind: u8 },
}
