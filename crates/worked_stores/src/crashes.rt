//! A crash behind each call of the disk during a save, with each fill of what was written since the last sync.

ghost use Rattle.std.specs.Prelude.{◌≤◌};

use crate::runs::{HALF_0, disk_of, gives_after, kept_in, run_save, volume_given, zeros};
use crate::volumes::{EMPTY, FORMAT_1, FORMAT_2};
use command_input::{Refusal, Status};
use safe_save::{Fill, MemoryDisk};
use std::alloc::Global;
use std::test::Fail;

/// The calls of a save: three open the disk, then the image is written and brought to its end, and then the gate.
const OPENING: [u32; 4] = [0, 1, 2, 3];

const WRITING: [u32; 4] = [4, 5, 6, 7];

const GATE_WRITTEN: u32 = 6;

const ALL: u32 = 7;

/// Whether a crash behind that call leaves the new image: behind the last one it does, and behind the write of the gate where
/// the gate is odd, as 255 is, and what was written.
fn leaves_new(call: u32, fill: Fill) -> bool {
    call == ALL || (call == GATE_WRITTEN && fill != Fill::Zeros)
}

/// Whether a crash behind each of these calls leaves what it should: the new image, or else what stood before.
fn each_leaves_one(
    alloc: Global,
    disk: &MemoryDisk,
    calls: &[u32],
    fill: Fill,
    old: (Status, &[u8]),
) -> Result<bool, Fail> {
    for call in calls {
        if disk.calls() < *call {
            return Ok(false);
        }
        let holds = if leaves_new(*call, fill) {
            gives_after(alloc, disk, *call, fill, Status::Done, &FORMAT_2)?
        } else {
            gives_after(alloc, disk, *call, fill, old.0, old.1)?
        };
        if !holds {
            return Ok(false);
        }
    }
    Ok(true)
}

/// Whether it is so of a save on a disk of zeros.
fn first_save(alloc: Global, calls: &[u32], fill: Fill) -> Result<bool, Fail> {
    let mut disk = disk_of(alloc, zeros(alloc)?, 0)?;
    let saved = run_save(alloc, &volume_given(&FORMAT_1), &mut disk)?;
    let none = Status::Refused(Refusal::Store { length: 0 });
    Ok(saved.status == Status::Done && each_leaves_one(alloc, &disk, calls, fill, (none, b""))?)
}

/// Whether it is so of a save over another volume.
fn next_save(alloc: Global, calls: &[u32], fill: Fill) -> Result<bool, Fail> {
    let mut disk = disk_of(alloc, kept_in(alloc, 0, HALF_0, 40, &EMPTY)?, 0)?;
    let saved = run_save(alloc, &volume_given(&FORMAT_1), &mut disk)?;
    let old = (Status::Done, EMPTY.as_slice());
    Ok(saved.status == Status::Done && each_leaves_one(alloc, &disk, calls, fill, old)?)
}

#[test]
fn while_the_disk_is_opened(rt: HostRuntime) -> Result<(), Fail> {
    assert!(rt; next_save(rt.alloc(), &OPENING, Fill::Ones)?);
    Ok(())
}

#[test]
fn in_the_first_save_zeros(rt: HostRuntime) -> Result<(), Fail> {
    assert!(rt; first_save(rt.alloc(), &WRITING, Fill::Zeros)?);
    Ok(())
}

#[test]
fn in_the_first_save_ones(rt: HostRuntime) -> Result<(), Fail> {
    assert!(rt; first_save(rt.alloc(), &WRITING, Fill::Ones)?);
    Ok(())
}

#[test]
fn in_the_first_save_written(rt: HostRuntime) -> Result<(), Fail> {
    assert!(rt; first_save(rt.alloc(), &WRITING, Fill::Written)?);
    Ok(())
}

#[test]
fn in_the_next_save_zeros(rt: HostRuntime) -> Result<(), Fail> {
    assert!(rt; next_save(rt.alloc(), &WRITING, Fill::Zeros)?);
    Ok(())
}

#[test]
fn in_the_next_save_ones(rt: HostRuntime) -> Result<(), Fail> {
    assert!(rt; next_save(rt.alloc(), &WRITING, Fill::Ones)?);
    Ok(())
}

#[test]
fn in_the_next_save_written(rt: HostRuntime) -> Result<(), Fail> {
    assert!(rt; next_save(rt.alloc(), &WRITING, Fill::Written)?);
    Ok(())
}
