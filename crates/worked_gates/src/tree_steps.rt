//! How many steps makeknown, create and delete take, and their reply.

ghost use Rattle.std.specs.Prelude.{◌≡◌, ◌<◌, length};

use crate::fixture::{caller, class_table, done, last_told, segment};
use labels::ClassTable;
use policy::Outcome;
use std::process::Abort;
use std::test::Fail;
use tree_gates::{Create, Delete, MakeKnown};
use words_layout::Op;

/// The entry of a segment of class 0: brackets 7 7 7, one word, serial 3.
const CHILD: u64 = 0x0301_0777_0001;

/// Likewise of class 1.
const HIGHER: u64 = 0x0301_0777_0101;

/// A home in frame 5 with page 3.
const RESIDENT: u64 = 0x0404_0502;

/// Two classes, the second one above the first.
const CLASSES: [(&str, &str); 2] = [("low", "0{}/15{}"), ("high", "1{3}/15{}")];

/// The answers to a create, with the code and the value of the reply.
const CREATES: [(&[u64], u8, u64); 4] = [
    (&[0, 0, 0, 0, 0, 5, 0, 0, 0], 0, 5),
    (&[0, 0, 0, 3, 0], 19, 0),
    (&[0, 0, 0, 0, CHILD, 0], 5, 0),
    (&[0, 0, 0, 0, 0, 64, 0], 24, 0),
];

/// The answers to a delete, with the code of the reply.
const DELETES: [(&[u64], u8); 5] = [
    (&[0, 0, 0, HIGHER, 0, 0], 0),
    (&[0, 0, 0, 0, 0], 4),
    (&[0, 0, 0, CHILD, 0, 0, HIGHER, 0], 25),
    (
        &[
            0, 0, 0, CHILD, 0, 0, 0, 0, 0, 0, 0, 0, 0, 0, 0, 0, 0, 0, 0, 0,
        ],
        0,
    ),
    (
        &[
            0, 0, 0, CHILD, 0, 0, 0, 0, 0, 0, 0, 0, 0, 0, 0, RESIDENT, 0, 0, 0, 0, 0, 0,
        ],
        0,
    ),
];

/// What a loaded entry gives a makeknown that wants to observe: the code of the reply, and the serial that was found.
const ENTRIES: [(u64, u8, Option<u8>); 3] = [(CHILD, 0, Some(3)), (HIGHER, 6, None), (0, 4, None)];

fn deletes_entry_two(rt: &impl Abort, answers: &[u64], code: u8) {
    let mut gate = Delete::start(&caller(), Some(&segment(0)), 2);
    assert_eq!(rt; last_told(&mut gate, answers), Some(done(code, 0)));
}

fn creates_one_word(rt: &impl Abort, table: &ClassTable, answers: &[u64], code: u8, value: u64)
    requires { 0 < length table.now }
{
    let mut gate = Create::start(&caller(), Some(&segment(0)), table, 2, 0, 511, 1);
    assert_eq!(rt; last_told(&mut gate, answers), Some(done(code, value)));
}

fn finds(rt: &impl Abort, table: &ClassTable, word: u64, code: u8, serial: Option<u8>)
    requires { 0 < length table.now }
{
    let mut gate = MakeKnown::start(&caller(), Some(&segment(0)), 2, 1, false);
    assert_eq!(rt; gate.absorb(table, 7), Outcome::Going);
    assert_eq!(rt; gate.absorb(table, 7), Outcome::Going);
    assert_eq!(rt; gate.absorb(table, word), Outcome::Going);
    assert_eq!(rt; gate.absorb(table, 7), done(code, 0));
    assert_eq!(rt; gate.found().map(|alias| alias.serial), serial);
}

#[test]
fn deletes(rt: HostRuntime) {
    for (answers, code) in DELETES {
        deletes_entry_two(&rt, answers, code);
    }
}

#[test]
fn a_delete_by_nothing_known_is_refused(rt: HostRuntime) {
    let mut gate = Delete::start(&caller(), None, 2);
    assert_eq!(rt; gate.next_op(), Op::Nothing);
    assert_eq!(rt; gate.absorb(0), done(1, 0));
}

#[test]
fn creates(rt: HostRuntime) -> Result<(), Fail> {
    let table = class_table(rt.alloc(), &CLASSES)?;
    table.table_law();
    for (answers, code, value) in CREATES {
        creates_one_word(&rt, &table, answers, code, value);
    }
    Ok(())
}

#[test]
fn makes_known(rt: HostRuntime) -> Result<(), Fail> {
    let table = class_table(rt.alloc(), &CLASSES)?;
    table.table_law();
    for (word, code, serial) in ENTRIES {
        finds(&rt, &table, word, code, serial);
    }
    Ok(())
}
