//! How many rounds a run takes: up to the configured number, and none after the first one that leaves no process live.

use crate::configurations::{
    EMPTY, ENDED, NINE_ROUNDS, NOTHING, ONE_ROUND, ONE_STEP, THREE_ROUNDS,
};
use crate::paces::Counts;
use crate::runs::{is_so, run_text};
use command_input::Status;
use std::alloc::{AllocError, Global};
use std::test::Fail;
use std::thread::Threads;

/// Whether a run ends so, and processor 0 has taken so many steps, and processor 3 none.
fn ends<R: Threads + Sync>(
    rt: &R,
    alloc: Global,
    text: &str,
    status: Status,
    report: &str,
    steps: u64,
) -> Result<bool, AllocError> {
    let counts = Counts::new();
    let found = run_text(rt, alloc, text, &counts)?;
    Ok(is_so(&found, status, report) && counts.of(0) == steps && counts.of(3) == 0)
}

#[test]
fn one_round_of_one_step(rt: HostRuntime) -> Result<(), Fail> {
    assert!(rt; ends(&rt, rt.alloc(), ONE_ROUND, Status::Unfinished, ONE_STEP, 1)?);
    Ok(())
}

#[test]
fn three_rounds(rt: HostRuntime) -> Result<(), Fail> {
    assert!(rt; ends(&rt, rt.alloc(), THREE_ROUNDS, Status::Done, ENDED, 3)?);
    Ok(())
}

#[test]
fn no_round_after_the_last_process(rt: HostRuntime) -> Result<(), Fail> {
    assert!(rt; ends(&rt, rt.alloc(), NINE_ROUNDS, Status::Done, ENDED, 3)?);
    Ok(())
}

#[test]
fn no_round_without_a_process(rt: HostRuntime) -> Result<(), Fail> {
    assert!(rt; ends(&rt, rt.alloc(), NOTHING, Status::Done, EMPTY, 0)?);
    Ok(())
}
