//! The table of the access classes.

ghost use Rattle.std.specs.Prelude.{◌≡◌, ◌≢◌, ℕ, ◌<◌, ◌≤◌, ◌↔◌, IsTrue, IfOk, MatchOption, Result, List, length, map};
ghost use Rattle.labels.specs.Label.{ClassEntry, class_at, label_of, at_or_below};
ghost use Rattle.labels.specs.Order.{Dominates};
ghost use Rattle.labels.specs.Table.{entry_of, IsTable, IsTableAnswer};
ghost use Rattle.labels.specs.declared.fault.TableFault.{TableFault};

use crate::entries::{check_entries, label_at, same_label};
use crate::fault::TableFault;
use crate::label::Label;
use arrayvec::ArrayString;
use std::alloc::{AllocError, Global};
use std::marker::Model;

/// The greatest number of classes.
pub const MAX_CLASSES: usize = 16;

/// The access classes by number. Contracts see the list of their names and labels: 1 to 16, with names and labels
/// that differ, each at or above class 0.
#[derive(Drop)]
pub struct ClassTable {
    entries: Vec<(ArrayString<16>, Label)>,
}

impl Model for ClassTable {
    ghost use Rattle.std.specs.Prelude.{List, map};
    ghost use Rattle.labels.specs.Label.{ClassEntry};
    ghost use Rattle.labels.specs.Table.{entry_of, IsTable};

    ghost Value = { List ClassEntry };

    ghost view = { λ t. map entry_of t.entries.items };

    ghost invariant = { λ t. IsTable (map entry_of t.entries.items) };
}

fn make_table(entries: Vec<(ArrayString<16>, Label)>) -> Result<ClassTable, TableFault>
    requires { 0 < length entries.items }
    ensures { IsTableAnswer (map entry_of entries.items) result }
{
    if entries.len() > MAX_CLASSES {
        return Err(TableFault::TooMany {
            given: entries.len(),
        });
    }
    match check_entries(entries.as_slice()) {
        Ok(()) => Ok(ClassTable { entries }),
        Err(fault) => Err(fault),
    }
}

impl ClassTable {
    /// The table of these classes, which are numbered from 0. `TooMany` comes exactly for more than 16. Else, at the
    /// least index that is at fault, `Twice` comes where its name or label stood before, and otherwise `NotLow` where
    /// its label doesn't dominate that of entry 0.
    pub fn new(entries: Vec<(ArrayString<16>, Label)>) -> Result<ClassTable, TableFault>
        requires { 0 < length entries.items }
        ensures right { IsTableAnswer (map entry_of entries.items) result }
        ensures only { (r : Result (List ClassEntry) TableFault) → IsTableAnswer (map entry_of entries.items) r → r ≡ result }
    {
        make_table(entries)
    }

    /// What holds of every table.
    pub fn table_law(&self)
        ensures { IsTable self.now }
    {
        let _ = &self.entries;
    }

    /// How many classes there are, from 1 to 16.
    pub fn count(&self) -> u8
        ensures { result ≡ length self.now }
    {
        self.entries.len() as u8
    }

    /// The label of a class.
    pub fn label(&self, class: u8) -> &Label
        requires { class < length self.now }
        ensures { result.now ≡ label_of self.now class }
    {
        label_at(self.entries.as_slice(), class as usize)
    }

    /// The name of a class.
    pub fn name(&self, class: u8) -> &str
        requires { class < length self.now }
        ensures { result.now ≡ (class_at self.now class).name }
    {
        self.entries[class as usize].0.as_str()
    }

    /// A name has at most 16 bytes.
    pub fn name_law(&self, class: u8)
        requires { class < length self.now }
        ensures { length (class_at self.now class).name ≤ 16 }
    {
        let _name = self.entries[class as usize].0.as_str();
    }

    /// Whether `c <= d`: the label of class d dominates that of class c.
    pub fn below(&self, c: u8, d: u8) -> bool
        requires c { c < length self.now }
        requires d { d < length self.now }
        ensures relation { IsTrue result ↔ Dominates (label_of self.now d) (label_of self.now c) }
        ensures computed { result ≡ at_or_below self.now c d }
    {
        self.label(d).dominates(self.label(c))
    }

    /// The class that has the label. None exactly where no class has it.
    pub fn index_of(&self, label: &Label) -> Option<u8>
        ensures { MatchOption result
            ((i : ℕ) → i < length self.now → label_of self.now i ≢ label.now)
            (λ i. (i < length self.now) × (label_of self.now i ≡ label.now)) }
    {
        for class in 0..self.count() {
            if same_label(self.label(class), label) {
                return Some(class);
            }
        }
        None
    }

    /// An equal table.
    pub fn copy(&self, alloc: Global) -> Result<ClassTable, AllocError>
        ensures { IfOk result (λ t. t ≡ self.now) }
    {
        let entries = Vec::from_slice(alloc, self.entries.as_slice())?;
        Ok(ClassTable { entries })
    }
}
