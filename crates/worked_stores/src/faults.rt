//! Each call of the disk and of the host fails in turn, and inputs that are refused.

use crate::runs::{
    Given, HALF_0, disk_of, gives, kept_in, run_restore, run_save, volume_given, zeros,
};
use crate::volumes::{EMPTY, FORMAT_1, FORMAT_2};
use command_input::{PortFault, Refusal, Status};
use safe_save::MemoryDisk;
use std::alloc::Global;
use std::test::Fail;

const NO_DISK: Status = Status::HostFault(PortFault::Disk);

/// Whether a save over the old volume fails where that call of the disk does, and `restore` gives that image then.
fn leaves(alloc: Global, failing: u32, image: &[u8]) -> Result<bool, Fail> {
    let mut disk = disk_of(alloc, kept_in(alloc, 0, HALF_0, 40, &EMPTY)?, failing)?;
    let saved = run_save(alloc, &volume_given(&FORMAT_1), &mut disk)?;
    Ok(saved.status == NO_DISK && gives(alloc, &mut disk, Status::Done, image)?)
}

#[test]
fn the_disk_fails_while_it_is_opened(rt: HostRuntime) -> Result<(), Fail> {
    for failing in 1..=3 {
        assert!(rt; leaves(rt.alloc(), failing, &EMPTY)?, "call {failing}");
    }
    Ok(())
}

#[test]
fn the_disk_fails_while_the_image_is_written(rt: HostRuntime) -> Result<(), Fail> {
    assert!(rt; leaves(rt.alloc(), 4, &EMPTY)?);
    assert!(rt; leaves(rt.alloc(), 5, &EMPTY)?);
    Ok(())
}

#[test]
fn the_disk_fails_while_the_gate_is_written(rt: HostRuntime) -> Result<(), Fail> {
    assert!(rt; leaves(rt.alloc(), 6, &EMPTY)?);
    assert!(rt; leaves(rt.alloc(), 7, &FORMAT_2)?);
    Ok(())
}

#[test]
fn the_first_save_fails(rt: HostRuntime) -> Result<(), Fail> {
    let alloc = rt.alloc();
    let none = Status::Refused(Refusal::Store { length: 0 });
    for failing in 4..=6 {
        let mut disk = disk_of(alloc, zeros(alloc)?, failing)?;
        let saved = run_save(alloc, &volume_given(&FORMAT_1), &mut disk)?;
        assert_eq!(rt; saved.status, NO_DISK, "call {failing}");
        assert!(rt; gives(alloc, &mut disk, none, b"")?, "call {failing}");
    }
    Ok(())
}

#[test]
fn each_call_of_the_disk_fails_in_a_restore(rt: HostRuntime) -> Result<(), Fail> {
    let alloc = rt.alloc();
    for failing in 1..=4 {
        let mut disk = disk_of(alloc, kept_in(alloc, 0, HALF_0, 40, &EMPTY)?, failing)?;
        assert!(rt; gives(alloc, &mut disk, NO_DISK, b"")?, "call {failing}");
        assert!(rt;
            gives(alloc, &mut disk, Status::Done, &EMPTY)?,
            "call {failing}"
        );
    }
    Ok(())
}

/// Whether a save of that is answered so before any call of the disk.
fn saves_nothing(
    alloc: Global,
    given: &Given,
    disk: &mut MemoryDisk,
    status: Status,
) -> Result<bool, Fail> {
    let saved = run_save(alloc, given, disk)?;
    Ok(saved.status == status && disk.calls() == 0 && saved.taken.is_empty())
}

fn unread(port: u8) -> Status {
    Status::HostFault(PortFault::Read { port })
}

#[test]
fn each_pull_fails(rt: HostRuntime) -> Result<(), Fail> {
    let alloc = rt.alloc();
    let mut disk = disk_of(alloc, zeros(alloc)?, 0)?;
    for (pull, port) in [(1, 0), (7, 0), (8, 1), (10, 1)] {
        let failing = Given {
            pull,
            ..volume_given(&FORMAT_1)
        };
        let holds = saves_nothing(alloc, &failing, &mut disk, unread(port))?;
        assert!(rt; holds, "pull {pull}");
    }
    Ok(())
}

#[test]
fn inputs_that_are_refused(rt: HostRuntime) -> Result<(), Fail> {
    let alloc = rt.alloc();
    let no_text = Given {
        text: b"gemkernel 2\n",
        ..volume_given(&FORMAT_1)
    };
    let config = Status::Refused(Refusal::Config { line: 1, code: 2 });
    let mut disk = disk_of(alloc, zeros(alloc)?, 0)?;
    assert!(rt; saves_nothing(alloc, &no_text, &mut disk, config)?);
    let found = run_restore(alloc, &no_text, &mut disk)?;
    assert_eq!(rt; found.status, config);
    assert_eq!(rt; disk.calls(), 0);
    let volume = Status::Refused(Refusal::Volume {
        port: 1,
        offset: 0,
        code: 1,
    });
    assert!(rt; saves_nothing(alloc, &volume_given(b""), &mut disk, volume)?);
    Ok(())
}

/// The push of a restore that fails, the room, and how many bytes port 1 has taken then.
const TORN: [(u32, usize, usize); 3] = [(1, 1000, 0), (2, 1000, 32), (0, 39, 32)];

#[test]
fn the_push_of_a_restore_fails(rt: HostRuntime) -> Result<(), Fail> {
    let alloc = rt.alloc();
    for (push, room, taken) in TORN {
        let torn = Given {
            push,
            room,
            ..volume_given(b"")
        };
        let mut disk = disk_of(alloc, kept_in(alloc, 0, HALF_0, 40, &EMPTY)?, 0)?;
        let found = run_restore(alloc, &torn, &mut disk)?;
        assert_eq!(rt;
            found.status,
            Status::HostFault(PortFault::Write { port: 1 })
        );
        assert_eq!(rt; found.taken.len(), taken);
    }
    Ok(())
}
