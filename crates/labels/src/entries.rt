//! The entries of a table, as they are tested.

ghost use Rattle.std.specs.Prelude.{◌≡◌, ◌<◌, ◌↔◌, ◌⊎◌, IsTrue, length, map};
ghost use Rattle.labels.specs.Label.{class_at, label_of};
ghost use Rattle.labels.specs.Table.{entry_of, IsSameEntry, StoodBefore, IsEntryAnswer, IsEntriesAnswer};

use crate::fault::TableFault;
use crate::label::Label;
use arrayvec::ArrayString;

fn same_text(a: &str, b: &str) -> bool
    ensures { IsTrue result ↔ (a.now ≡ b.now) }
{
    a == b
}

pub fn same_label(a: &Label, b: &Label) -> bool
    ensures { IsTrue result ↔ (a.now ≡ b.now) }
{
    a == b
}

/// Whether two entries have the same name or the same label.
fn same_entry(a: &(ArrayString<16>, Label), b: &(ArrayString<16>, Label)) -> bool
    ensures { IsTrue result ↔ IsSameEntry (entry_of a.now) (entry_of b.now) }
{
    same_text(a.0.as_str(), b.0.as_str()) || same_label(&a.1, &b.1)
}

/// The label of an entry.
pub fn label_at(entries: &[(ArrayString<16>, Label)], index: usize) -> &Label
    requires { index < length entries.now }
    ensures { result.now ≡ label_of (map entry_of entries.now) index }
{
    &entries[index].1
}

/// Whether the entries at two places have the same name or the same label.
fn same_at(entries: &[(ArrayString<16>, Label)], i: usize, j: usize) -> bool
    requires i { i < length entries.now }
    requires j { j < length entries.now }
    ensures { IsTrue result ↔ IsSameEntry (class_at (map entry_of entries.now) i) (class_at (map entry_of entries.now) j) }
{
    same_entry(&entries[i], &entries[j])
}

/// Whether an earlier entry has the name or the label of the one at the index.
fn stood_before(entries: &[(ArrayString<16>, Label)], index: usize) -> bool
    requires { index < length entries.now }
    ensures { IsTrue result ↔ StoodBefore (map entry_of entries.now) index }
{
    for earlier in 0..index {
        if same_at(entries, earlier, index) {
            return true;
        }
    }
    false
}

/// What is wrong with the entry at the index.
fn fault_at(entries: &[(ArrayString<16>, Label)], index: usize) -> Option<TableFault>
    requires { index < length entries.now }
    ensures { IsEntryAnswer (map entry_of entries.now) index result }
{
    if stood_before(entries, index) {
        return Some(TableFault::Twice { index });
    }
    if !label_at(entries, index).dominates(label_at(entries, 0)) {
        return Some(TableFault::NotLow { index });
    }
    None
}

/// What is wrong with the first entry that has a fault.
pub fn check_entries(entries: &[(ArrayString<16>, Label)]) -> Result<(), TableFault>
    ensures { IsEntriesAnswer (map entry_of entries.now) result }
{
    for index in 0..entries.len() {
        if let Some(fault) = fault_at(entries, index) {
            return Err(fault);
        }
        label_at(entries, index).range_law();
    }
    Ok(())
}
