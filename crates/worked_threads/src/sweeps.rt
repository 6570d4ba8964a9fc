//! One processor takes the steps that the schedule `sweep` gives it, with as many rounds.

use crate::configurations::SWEPT;
use crate::runs::{Ran, host_of, run_text};
use command_input::Status;
use command_run::sim;
use processors::NoPace;
use std::alloc::{AllocError, Global};
use std::test::Fail;

/// What comes of running the configuration by its schedule.
fn simulated(alloc: Global, text: &str) -> Result<Ran, AllocError> {
    let mut host = host_of(alloc, text)?;
    let status = sim(alloc, &mut host);
    Ok(Ran {
        status,
        report: Vec::from_slice(alloc, host.taken(0))?,
    })
}

#[test]
fn one_processor_sweeps(rt: HostRuntime) -> Result<(), Fail> {
    let found = run_text(&rt, rt.alloc(), SWEPT, &NoPace)?;
    let swept = simulated(rt.alloc(), SWEPT)?;
    assert_eq!(rt; swept.status, Status::Done);
    assert_eq!(rt; found.status, swept.status);
    assert_eq!(rt; found.report.as_slice(), swept.report.as_slice());
    Ok(())
}
