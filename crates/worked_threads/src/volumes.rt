//! A run with volumes at ports 1 and 3.

use crate::configurations::{EMPTY, WITH_VOLUMES};
use crate::runs::host_with;
use command_input::Status;
use command_threads::run;
use processors::NoPace;
use std::alloc::{AllocError, Global};
use std::test::Fail;
use std::thread::Threads;

/// A volume of the classes without records, in format 2.
const WHOLE: [u8; 40] = [
    71, 69, 77, 86, 79, 76, 2, 0, 2, 3, 108, 111, 119, 0, 0, 0, 0, 0, 15, 0, 0, 0, 0, 4, 104, 105,
    103, 104, 1, 0, 0, 0, 0, 15, 0, 0, 0, 0, 0, 0,
];

/// Whether a run with this volume at both ports is Done and pushes it to both again, behind the report.
fn goes_through<R: Threads + Sync>(
    rt: &R,
    alloc: Global,
    volume: &[u8],
) -> Result<bool, AllocError> {
    let mut host = host_with(alloc, WITH_VOLUMES, volume)?;
    let status = run(rt, alloc, &mut host, &NoPace);
    Ok(
        status == Status::Done
            && host.taken(0) == EMPTY.as_bytes()
            && host.taken(1) == volume
            && host.taken(2).is_empty()
            && host.taken(3) == volume,
    )
}

#[test]
fn volumes_after_a_run(rt: HostRuntime) -> Result<(), Fail> {
    assert!(rt; goes_through(&rt, rt.alloc(), &WHOLE)?);
    Ok(())
}
