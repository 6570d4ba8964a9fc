//! Each pull and each push of a run with a volume fails, one after the other.

use crate::inputs::{EMPTY_VOLUME, READ_ACROSS, REPORT, VOLUME};
use crate::runs::{Given, Ran, run, with_volume};
use command_input::{PortFault, Status};
use std::alloc::{AllocError, Global};
use std::test::Fail;

/// The pulls of seven bytes until the text, and then the volume, has come to its end.
const TEXT_PULLS: u32 = 88;

const VOLUME_PULLS: u32 = 6;

/// The pushes of at most seven bytes: of the report's lines, and of the volume.
const REPORT_PUSHES: u32 = 56;

const VOLUME_PUSHES: u32 = 8;

/// The run where that pull and that push fail (0: none).
fn run_failing(alloc: Global, pull: u32, push: u32) -> Result<Ran, AllocError> {
    let given = Given {
        pull,
        push,
        ..with_volume(READ_ACROSS.as_bytes(), &EMPTY_VOLUME)
    };
    run(alloc, &given)
}

/// Whether these bytes are the first few of those that are due, and not all.
fn is_cut(taken: &[u8], due: &[u8]) -> bool {
    taken.len() < due.len() && due.starts_with(taken)
}

/// Whether the whole report and the whole volume were pushed.
fn is_whole(ran: &Ran) -> bool {
    ran.status == Status::Done
        && ran.host.taken(0) == REPORT.as_bytes()
        && ran.host.taken(1) == VOLUME.as_slice()
}

/// Whether the pull of that number is answered by a fault of the port that it reads, and nothing is pushed.
fn pull_is_told(alloc: Global, pull: u32) -> Result<bool, AllocError> {
    let port = if pull <= TEXT_PULLS { 0 } else { 1 };
    let ran = run_failing(alloc, pull, 0)?;
    let told = ran.status == Status::HostFault(PortFault::Read { port });
    Ok(told && ran.host.taken(0).is_empty() && ran.host.taken(1).is_empty())
}

/// Whether the push of that number is answered by a fault of the port that it writes, where all before it was pushed.
fn push_is_told(alloc: Global, push: u32) -> Result<bool, AllocError> {
    let ran = run_failing(alloc, 0, push)?;
    if push <= REPORT_PUSHES {
        let told = ran.status == Status::HostFault(PortFault::Write { port: 0 });
        return Ok(
            told && is_cut(ran.host.taken(0), REPORT.as_bytes()) && ran.host.taken(1).is_empty(),
        );
    }
    let told = ran.status == Status::HostFault(PortFault::Write { port: 1 });
    let whole = ran.host.taken(0) == REPORT.as_bytes();
    Ok(told && whole && is_cut(ran.host.taken(1), &VOLUME))
}

/// The first pull that is answered otherwise.
fn first_pull(alloc: Global) -> Result<Option<u32>, AllocError> {
    for pull in 1..=TEXT_PULLS + VOLUME_PULLS {
        if !pull_is_told(alloc, pull)? {
            return Ok(Some(pull));
        }
    }
    Ok(None)
}

/// The first push that is answered otherwise.
fn first_push(alloc: Global) -> Result<Option<u32>, AllocError> {
    for push in 1..=REPORT_PUSHES + VOLUME_PUSHES {
        if !push_is_told(alloc, push)? {
            return Ok(Some(push));
        }
    }
    Ok(None)
}

#[test]
fn each_pull_fails(rt: HostRuntime) -> Result<(), Fail> {
    assert_eq!(rt; first_pull(rt.alloc())?, None);
    Ok(())
}

#[test]
fn each_push_fails(rt: HostRuntime) -> Result<(), Fail> {
    assert_eq!(rt; first_push(rt.alloc())?, None);
    Ok(())
}

#[test]
fn calls_that_never_come(rt: HostRuntime) -> Result<(), Fail> {
    let alloc = rt.alloc();
    assert!(rt; is_whole(&run_failing(alloc, 0, 0)?));
    assert!(rt; is_whole(&run_failing(alloc, TEXT_PULLS + VOLUME_PULLS + 1, 0)?));
    assert!(rt; is_whole(&run_failing(alloc, 0, REPORT_PUSHES + VOLUME_PUSHES + 1)?));
    Ok(())
}
