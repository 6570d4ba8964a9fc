//! The records of a volume.

ghost use Rattle.std.specs.Prelude.{◌≡◌};

use rings::Brackets;
use std::marker::Model;
use words_layout::SegId;

/// A segment of a volume: its identity, class, brackets and size, the mentor and entry where it stands, and its words if
/// they were kept.
#[derive(Drop)]
pub struct SegRecord {
    pub seg: SegId,
    pub class: u8,
    pub brackets: Brackets,
    pub size: u8,
    pub mentor: SegId,
    pub entry: u8,
    pub kept: Option<Vec<u64>>,
}

impl Model for SegRecord {
    ghost use Rattle.std.specs.Prelude.{option_map};
    ghost use Rattle.class_model.specs.Config.{SegRecord as RecordValue};

    ghost Value = { RecordValue };

    ghost view = { λ r. record { seg = r.seg; class = r.class; brackets = r.brackets; size = r.size; mentor = r.mentor; entry = r.entry; kept = option_map (λ w. w.items) r.kept } };
}

/// A volume. Contracts see the list of its records.
#[derive(Drop)]
pub struct Volume {
    records: Vec<SegRecord>,
}

impl Model for Volume {
    ghost use Rattle.std.specs.Prelude.{List};
    ghost use Rattle.class_model.specs.Config.{SegRecord as RecordValue};

    ghost Value = { List RecordValue };

    ghost view = { λ v. v.records.items };
}

impl Volume {
    /// The volume of these records.
    pub fn new(list: Vec<SegRecord>) -> Volume
        ensures { result ≡ list.items }
    {
        Volume { records: list }
    }

    /// The records.
    pub fn list(&self) -> &[SegRecord]
        ensures { result.now ≡ self.now }
    {
        self.records.as_slice()
    }
}
