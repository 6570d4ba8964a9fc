//! How many steps fetch and update take, and their reply.

use crate::fixture::{caller, done, last_told, segment};
use data_gates::{Fetch, Update};
use std::process::Abort;

/// A home in frame 5 with page 3, of four words.
const RESIDENT: u64 = 0x0404_0502;

/// The answers to a fetch of two words, with the code and the value of the reply.
const FETCHES: [(&[u64], u8, u64); 2] = [
    (&[7, 7, RESIDENT, 11, 12, 7], 0, 2),
    (&[7, 7, 0, 7], 20, 0),
];

/// Likewise to an update.
const UPDATES: [(&[u64], u8, u64); 2] = [
    (&[0, 9, 9, RESIDENT, 0, 0, 4, 0], 0, 5),
    (&[0, 9, 9, 0, 0], 20, 0),
];

fn fetches_two(rt: &impl Abort, answers: &[u64], code: u8, value: u64) {
    let mut gate = Fetch::start(&caller(), Some(&segment(4)), 1, 2, 0);
    assert_eq!(rt; last_told(&mut gate, answers), Some(done(code, value)));
    assert_eq!(rt; gate.words().len() as u64, value);
}

fn updates_two(rt: &impl Abort, answers: &[u64], code: u8, value: u64) {
    let mut gate = Update::start(&caller(), Some(&segment(4)), 1, 2, 0, &[6; 64]);
    assert_eq!(rt; last_told(&mut gate, answers), Some(done(code, value)));
}

#[test]
fn fetches(rt: HostRuntime) {
    for (answers, code, value) in FETCHES {
        fetches_two(&rt, answers, code, value);
    }
}

#[test]
fn updates(rt: HostRuntime) {
    for (answers, code, value) in UPDATES {
        updates_two(&rt, answers, code, value);
    }
}
