//! How many steps the gates of eventcounts, sequencers and console places take, and their reply.

use crate::fixture::{caller, done, last_told, segment};
use evc_gates::{Advance, Await, EvcRead, Out, Ticket};
use policy::Outcome;
use words_layout::Op;

/// Classes 0, 1 and 3.
const BELOW: u16 = 0b1011;

#[test]
fn a_read_sums_the_components(rt: HostRuntime) {
    let mut gate = EvcRead::start(&caller(), Some(&segment(1)), BELOW);
    assert_eq!(rt; last_told(&mut gate, &[5, 7, u64::MAX]), Some(done(0, 11)));
}

#[test]
fn a_read_of_nothing_known_is_refused(rt: HostRuntime) {
    let mut gate = EvcRead::start(&caller(), None, BELOW);
    assert_eq!(rt; gate.next_op(), Op::Nothing);
    assert_eq!(rt; gate.absorb(5), done(1, 0));
}

#[test]
fn an_await_begins_again_below_its_sum(rt: HostRuntime) {
    let mut gate = Await::start(&caller(), Some(&segment(1)), BELOW, 10);
    assert_eq!(rt; last_told(&mut gate, &[3, 3, 3]), Some(Outcome::Poll));
    assert_eq!(rt; last_told(&mut gate, &[3, 3, 4]), Some(done(0, 10)));
}

#[test]
fn one_step_gates(rt: HostRuntime) {
    let (who, known) = (caller(), segment(1));
    assert_eq!(rt; Advance::start(&who, Some(&known)).absorb(6), done(0, 7));
    assert_eq!(rt; Ticket::start(&who, Some(&known)).absorb(6), done(0, 6));
    assert_eq!(rt; Out::start(&who, 7).absorb(6), done(0, 6));
    assert_eq!(rt; Out::start(&who, 6).absorb(6), done(26, 0));
}
