//! The answers of `sim` with volumes at ports 1 and 3.

use crate::configurations::{EMPTY, WITH_VOLUMES};
use crate::runs::{Given, Ran, run, text_alone};
use command_input::{PortFault, Refusal, Status};
use std::alloc::{AllocError, Global};
use std::test::Fail;

/// A volume of the classes without records, in format 2.
const WHOLE: [u8; 40] = [
    71, 69, 77, 86, 79, 76, 2, 0, 2, 3, 108, 111, 119, 0, 0, 0, 0, 0, 15, 0, 0, 0, 0, 4, 104, 105,
    103, 104, 1, 0, 0, 0, 0, 15, 0, 0, 0, 0, 0, 0,
];

/// How many bytes of a volume are at ports 1 and 3; the room, and the pull and the push that fail; the answer, whether the
/// report is whole, and how many bytes of a volume ports 1 and 3 have taken.
type Case = (usize, usize, usize, u32, u32, Status, bool, usize, usize);

/// What comes of runs with volumes.
fn cases() -> [Case; 17] {
    [
        (40, 40, 1000, 0, 0, Status::Done, true, 40, 40),
        (40, 40, 1000, 0, 5, unwritten(1), true, 0, 0),
        (40, 40, 1000, 0, 6, unwritten(3), true, 40, 0),
        (40, 40, 78, 0, 0, unwritten(1), true, 0, 0),
        (40, 40, 79, 0, 0, unwritten(3), true, 40, 0),
        (40, 40, 38, 0, 0, unwritten(0), false, 0, 0),
        (40, 40, 1000, 0, 1, unwritten(0), false, 0, 0),
        (40, 40, 1000, 0, 4, unwritten(0), false, 0, 0),
        (40, 40, 1000, 1, 0, unread(0), false, 0, 0),
        (40, 40, 1000, 2, 0, unread(0), false, 0, 0),
        (40, 40, 1000, 3, 0, unread(1), false, 0, 0),
        (40, 40, 1000, 4, 0, unread(1), false, 0, 0),
        (40, 40, 1000, 5, 0, unread(3), false, 0, 0),
        (40, 40, 1000, 6, 0, unread(3), false, 0, 0),
        (39, 39, 1000, 0, 0, no_volume(1, 39), false, 0, 0),
        (40, 39, 1000, 0, 0, no_volume(3, 39), false, 0, 0),
        (0, 40, 1000, 0, 0, no_volume(1, 0), false, 0, 0),
    ]
}

fn no_volume(port: u8, offset: u32) -> Status {
    Status::Refused(Refusal::Volume {
        port,
        offset,
        code: 1,
    })
}

fn unread(port: u8) -> Status {
    Status::HostFault(PortFault::Read { port })
}

fn unwritten(port: u8) -> Status {
    Status::HostFault(PortFault::Write { port })
}

/// So many bytes of a volume, or all.
fn part(count: usize) -> &'static [u8] {
    WHOLE.get(..count).unwrap_or(&WHOLE)
}

/// Whether a run with volumes has ended so.
fn is_so(found: &Ran, status: Status, reported: bool, first: &[u8], third: &[u8]) -> bool {
    found.status == status
        && (found.report.as_slice() == EMPTY.as_bytes()) == reported
        && found.first.as_slice() == first
        && found.third.as_slice() == third
}

/// Whether a case comes as it is expected.
fn holds(alloc: Global, case: &Case) -> Result<bool, AllocError> {
    let given = Given {
        first: part(case.0),
        third: part(case.1),
        room: case.2,
        pull: case.3,
        push: case.4,
        ..text_alone(WITH_VOLUMES.as_bytes())
    };
    let found = run(alloc, &["sim"], &given)?;
    Ok(is_so(&found, case.5, case.6, part(case.7), part(case.8)))
}

/// The first case that comes otherwise.
fn first_fault(alloc: Global, cases: &[Case]) -> Result<Option<usize>, AllocError> {
    for (place, case) in cases.iter().enumerate() {
        if !holds(alloc, case)? {
            return Ok(Some(place));
        }
    }
    Ok(None)
}

#[test]
fn each_answer_with_volumes(rt: HostRuntime) -> Result<(), Fail> {
    assert_eq!(rt; first_fault(rt.alloc(), &cases())?, None);
    Ok(())
}

#[test]
fn a_volume_too_long(rt: HostRuntime) -> Result<(), Fail> {
    let long = vec![in rt.alloc(); 0u8; 4_194_305]?;
    let given = Given {
        first: &WHOLE,
        third: long.as_slice(),
        ..text_alone(WITH_VOLUMES.as_bytes())
    };
    let found = run(rt.alloc(), &["sim"], &given)?;
    assert_eq!(rt; found.status, Status::Refused(Refusal::TooLong { port: 3 }));
    assert!(rt; found.report.is_empty());
    Ok(())
}
