//! How many steps swapin and swapout take, and their reply.

use crate::fixture::{caller, done, last_told, segment};
use policy::Reply;
use std::process::Abort;
use swap_gates::{SwapIn, SwapOut};

/// A home in page 3, of two words.
const STORED: u64 = 0x0204_0001;

/// The same in frame 5 too.
const RESIDENT: u64 = 0x0204_0502;

/// In frame 5, with no page.
const PAGELESS: u64 = 0x0200_0502;

/// The answers to a swapin of two words of a class with two frames, and the code of the reply.
const SWAP_INS: [(&[u64], u8); 3] = [
    (&[0, 5, 5, 0, 6, 6, 0, 9, 0, 0, 0, 0, 0, 6, 5], 0),
    (&[0, 5, 5, 0, 6, 6, STORED, 0, 0, 1, 0, 1, 0, 0, 6, 5], 0),
    (&[0, 5, 5, 0, 6, 6, 0, 9, 9, 6, 5], 22),
];

/// Likewise to a swapout of a class with two pages.
const SWAP_OUTS: [(&[u64], u8); 3] = [
    (&[0, 5, 5, 0, 6, 6, RESIDENT, 1, 0, 1, 0, 0, 0, 6, 5], 0),
    (
        &[0, 5, 5, 0, 6, 6, PAGELESS, 9, 0, 0, 1, 0, 1, 0, 0, 0, 6, 5],
        0,
    ),
    (&[0, 5, 5, 0, 6, 6, PAGELESS, 9, 9, 6, 5], 23),
];

fn swaps_in(rt: &impl Abort, answers: &[u64], code: u8) {
    let mut gate = SwapIn::start(&caller(), Some(&segment(2)), 2);
    assert_eq!(rt; last_told(&mut gate, answers), Some(done(code, 0)));
    assert_eq!(rt; gate.effect(), Some(Reply { code, value: 0 }));
}

fn swaps_out(rt: &impl Abort, answers: &[u64], code: u8) {
    let mut gate = SwapOut::start(&caller(), Some(&segment(2)), 2);
    assert_eq!(rt; last_told(&mut gate, answers), Some(done(code, 0)));
    assert_eq!(rt; gate.effect(), Some(Reply { code, value: 0 }));
}

#[test]
fn swap_ins(rt: HostRuntime) {
    for (answers, code) in SWAP_INS {
        swaps_in(&rt, answers, code);
    }
}

#[test]
fn swap_outs(rt: HostRuntime) {
    for (answers, code) in SWAP_OUTS {
        swaps_out(&rt, answers, code);
    }
}
