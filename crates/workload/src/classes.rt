//! The classes of the large configuration.

ghost use Rattle.std.specs.Prelude.{◌≡◌, ◌<◌, IfOk, map};
ghost use Rattle.labels.specs.Table.{entry_of, IsTable};
ghost use Rattle.workload.specs.Large.{large_class, large_table};

use arrayvec::ArrayString;
use labels::{ClassTable, Label};
use std::alloc::{AllocError, Global};

/// How many classes there are.
pub const CLASSES: u8 = 8;

/// The highest level of integrity.
const MOST_TRUSTED: u8 = 15;

/// The name and label of a class.
fn class_entry(class: u8) -> (ArrayString<16>, Label)
    requires { class < 8 }
    ensures { entry_of result ≡ large_class class }
{
    let mut name = ArrayString::new();
    name.push('c');
    name.push(char::from(b'0' + class));
    let label = Label {
        secrecy_level: class,
        secrecy_cats: 0,
        integrity_level: MOST_TRUSTED,
        integrity_cats: 0,
    };
    (name, label)
}

/// The table of these classes.
fn table_of(entries: Vec<(ArrayString<16>, Label)>) -> ClassTable
    requires { map entry_of entries.items ≡ large_table }
    ensures { result ≡ large_table }
{
    match ClassTable::new(entries) {
        Ok(table) => table,
        Err(_) => unreachable!(),
    }
}

/// The class table.
pub fn class_table(alloc: Global) -> Result<ClassTable, AllocError>
    ensures { IfOk result (λ table. table ≡ large_table) }
{
    let mut entries = Vec::with_capacity(alloc, CLASSES as usize)?;
    for class in 0..CLASSES {
        entries.push(class_entry(class))?;
    }
    Ok(table_of(entries))
}
