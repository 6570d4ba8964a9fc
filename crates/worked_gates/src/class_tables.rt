//! Class tables and lists of classes that make none.

use crate::fixture::class_table;
use arrayvec::ArrayString;
use labels::{ClassTable, Label, TableFault};
use std::alloc::Global;
use std::process::Abort;
use std::test::Fail;

/// The name and the label of a class.
type Row<'a> = (&'a str, &'a str);

const LOW: Row<'static> = ("low", "0{}/15{}");

const HIGH: Row<'static> = ("high", "1{3}/0{}");

const APART: Row<'static> = ("apart", "1{2}/15{}");

/// What is wrong with a table of these classes.
fn fault_of(alloc: Global, rows: &[Row]) -> Result<Option<TableFault>, Fail> {
    let mut entries = Vec::new(alloc);
    for (name, text) in rows {
        let name: ArrayString<16> = ArrayString::from(name).ok().ok_or("a name")?;
        let label = Label::parse(text).ok().ok_or("a label")?;
        entries.push((name, label))?;
    }
    if entries.is_empty() {
        return Ok(None);
    }
    Ok(ClassTable::new(entries).err())
}

fn has_fault(
    rt: &impl Abort,
    alloc: Global,
    rows: &[Row],
    fault: Option<TableFault>,
) -> Result<(), Fail> {
    assert_eq!(rt; fault_of(alloc, rows)?, fault);
    Ok(())
}

#[test]
fn a_class_stands_once(rt: HostRuntime) -> Result<(), Fail> {
    let alloc = rt.alloc();
    let twice = |index| Some(TableFault::Twice { index });
    has_fault(&rt, alloc, &[LOW, HIGH, APART], None)?;
    has_fault(&rt, alloc, &[LOW, HIGH, ("low", "1{}/15{}")], twice(2))?;
    has_fault(&rt, alloc, &[LOW, HIGH, ("other", "1{3}/0{}")], twice(2))?;
    has_fault(&rt, alloc, &[HIGH, ("high", "0{}/15{}"), APART], twice(1))?;
    Ok(())
}

#[test]
fn the_first_class_is_the_lowest(rt: HostRuntime) -> Result<(), Fail> {
    let alloc = rt.alloc();
    let not_low = Some(TableFault::NotLow { index: 1 });
    has_fault(&rt, alloc, &[HIGH, APART], not_low)?;
    has_fault(&rt, alloc, &[("trusted", "0{}/0{}"), LOW], not_low)?;
    has_fault(
        &rt,
        alloc,
        &[LOW; 17],
        Some(TableFault::TooMany { given: 17 }),
    )?;
    Ok(())
}

#[test]
fn classes(rt: HostRuntime) -> Result<(), Fail> {
    let table = class_table(rt.alloc(), &[LOW, HIGH, APART])?;
    let copied = table.copy(rt.alloc())?;
    assert_eq!(rt; copied.count(), 3);
    assert_eq!(rt; copied.name(1), "high");
    assert!(rt; copied.below(0, 1) && !copied.below(1, 0) && !copied.below(1, 2));
    let label = Label::parse("1{2}/15{}").ok().ok_or("a label")?;
    assert_eq!(rt; copied.index_of(&label), Some(2));
    Ok(())
}
