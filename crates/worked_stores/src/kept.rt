//! A volume that is saved, and given back; and disks that keep none.

use crate::runs::{HALF_0, HALF_1, disk_of, gives, kept_in, run_save, volume_given, zeros};
use crate::volumes::{EMPTY, FORMAT_1, FORMAT_2};
use command_input::{Refusal, Status};
use std::test::Fail;

/// The length of the volume's image in format 2, of eight bytes.
const LENGTH: [u8; 8] = [0, 0, 0, 0, 0, 0, 0, 51];

/// Whether these bytes stand at that place.
fn stands_at(bytes: &[u8], at: usize, expected: &[u8]) -> bool {
    match bytes.get(at..) {
        Some(rest) => rest.starts_with(expected),
        None => false,
    }
}

#[test]
fn a_volume_is_saved_and_restored(rt: HostRuntime) -> Result<(), Fail> {
    let alloc = rt.alloc();
    let mut disk = disk_of(alloc, zeros(alloc)?, 0)?;
    let saved = run_save(alloc, &volume_given(&FORMAT_1), &mut disk)?;
    assert_eq!(rt; saved.status, Status::Done);
    assert!(rt; saved.taken.is_empty());
    let bytes = disk.bytes();
    assert!(rt; stands_at(bytes, 0, &[1]));
    assert!(rt; stands_at(bytes, HALF_1, &LENGTH));
    assert!(rt; stands_at(bytes, HALF_1 + 8, &FORMAT_2));
    assert!(rt; gives(alloc, &mut disk, Status::Done, &FORMAT_2)?);
    Ok(())
}

#[test]
fn the_next_volume_goes_into_the_other_half(rt: HostRuntime) -> Result<(), Fail> {
    let alloc = rt.alloc();
    let mut disk = disk_of(alloc, kept_in(alloc, 1, HALF_1, 51, &FORMAT_2)?, 0)?;
    let saved = run_save(alloc, &volume_given(&EMPTY), &mut disk)?;
    assert_eq!(rt; saved.status, Status::Done);
    let bytes = disk.bytes();
    assert!(rt; stands_at(bytes, 0, &[0]));
    assert!(rt; stands_at(bytes, HALF_0 + 8, &EMPTY));
    assert!(rt; gives(alloc, &mut disk, Status::Done, &EMPTY)?);
    Ok(())
}

#[test]
fn an_image_of_format_1_is_restored_in_format_2(rt: HostRuntime) -> Result<(), Fail> {
    let alloc = rt.alloc();
    let mut disk = disk_of(alloc, kept_in(alloc, 0, HALF_0, 42, &FORMAT_1)?, 0)?;
    assert!(rt; gives(alloc, &mut disk, Status::Done, &FORMAT_2)?);
    Ok(())
}

fn no_image(length: u64) -> Status {
    Status::Refused(Refusal::Store { length })
}

#[test]
fn a_disk_without_an_image(rt: HostRuntime) -> Result<(), Fail> {
    let alloc = rt.alloc();
    let mut disk = disk_of(alloc, zeros(alloc)?, 0)?;
    assert!(rt; gives(alloc, &mut disk, no_image(0), b"")?);
    Ok(())
}

#[test]
fn a_length_too_great(rt: HostRuntime) -> Result<(), Fail> {
    let alloc = rt.alloc();
    let mut disk = disk_of(alloc, kept_in(alloc, 1, HALF_1, 4_194_305, b"")?, 0)?;
    assert!(rt; gives(alloc, &mut disk, no_image(4_194_305), b"")?);
    let saved = run_save(alloc, &volume_given(&FORMAT_1), &mut disk)?;
    assert_eq!(rt; saved.status, no_image(4_194_305));
    Ok(())
}

fn no_volume(offset: u32, code: u8) -> Status {
    Status::Refused(Refusal::Volume {
        port: 5,
        offset,
        code,
    })
}

#[test]
fn kept_bytes_that_are_no_volume(rt: HostRuntime) -> Result<(), Fail> {
    let alloc = rt.alloc();
    let mut short = disk_of(alloc, kept_in(alloc, 0, HALF_0, 41, &FORMAT_1)?, 0)?;
    assert!(rt; gives(alloc, &mut short, no_volume(41, 1), b"")?);
    let mut other = disk_of(alloc, kept_in(alloc, 0, HALF_0, 6, b"GEMVOX")?, 0)?;
    assert!(rt; gives(alloc, &mut other, no_volume(0, 2), b"")?);
    Ok(())
}
