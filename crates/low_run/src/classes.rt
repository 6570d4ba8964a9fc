//! The classes at or below a class.

ghost use Rattle.std.specs.Prelude.{◌≡◌, ◌<◌, length};
ghost use Rattle.words_layout.specs.Sizes.{most_classes};
ghost use Rattle.low_run.specs.Flags.{AreLow, is_low};

use labels::{ClassTable, MAX_CLASSES};
use std::marker::Model;

/// The classes at or below one class of a table: a flag for each class, asked of the table once, so that no event asks it.
/// Contracts see the list of the sixteen flags.
#[derive(Drop)]
pub struct LowClasses {
    flags: [bool; MAX_CLASSES],
}

impl Model for LowClasses {
    ghost use Rattle.std.specs.Prelude.{◌≡◌, Bool, List, length};
    ghost use Rattle.words_layout.specs.Sizes.{most_classes};

    ghost Value = { List Bool };

    ghost view = { λ l. l.flags };

    ghost invariant = { λ l. length l.flags ≡ most_classes };
}

impl LowClasses {
    /// The classes of the table at or below this one.
    pub fn of(table: &ClassTable, class: u8) -> LowClasses
        requires { class < length table.now }
        ensures { AreLow table.now class result }
    {
        table.table_law();
        let mut flags = [false; MAX_CLASSES];
        for low in 0..table.count() {
            flags[low as usize] = table.below(low, class);
        }
        LowClasses { flags }
    }

    /// Whether the class is among them.
    pub fn has(&self, class: u8) -> bool
        requires { class < most_classes }
        ensures { result ≡ is_low self.now class }
    {
        self.flags[class as usize]
    }
}
