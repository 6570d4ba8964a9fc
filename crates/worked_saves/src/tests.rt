//! Images saved on disks in memory, and the disk on a file.

ghost use Rattle.safe_save.specs.Kept.{IsStored};

use crate::disks::{Crash, HALF_0, HALF_1, disk_of, first_wrong, kept, opened, written, zeros};
use safe_save::{Disk, FileDisk, Fill, MemoryDisk, Place, SaveError, open, save};
use std::alloc::Global;
use std::fs;
use std::test::Fail;

/// Images with their lengths.
const OLD: [u8; 11] = [0, 0, 0, 0, 0, 0, 0, 3, b'o', b'l', b'd'];

const NEW: [u8; 13] = [0, 0, 0, 0, 0, 0, 0, 5, b'f', b'r', b'e', b's', b'h'];

const THIRD: [u8; 9] = [0, 0, 0, 0, 0, 0, 0, 1, b'!'];

/// A length one above the greatest.
const TOO_GREAT: [u8; 8] = [0, 0, 0, 0, 0, 0x40, 0, 1];

/// Two images are saved one after the other: calls 1 to 3 open, calls 4 to 7 save the first, calls 8 to 11 the second.
fn save_twice(disk: &mut MemoryDisk) -> Result<(), SaveError> {
    let place = open(disk)?;
    let place = save(disk, &place, &OLD)?;
    save(disk, &place, &NEW)?;
    Ok(())
}

const fn crash(call: u32, fill: Fill, image: &'static [u8]) -> Crash {
    Crash { call, fill, image }
}

#[test]
fn a_crash_in_the_first_save(rt: HostRuntime) -> Result<(), Fail> {
    let alloc = rt.alloc();
    let mut disk = disk_of(alloc, zeros(alloc)?, 0, 100)?;
    assert_eq!(rt; save_twice(&mut disk), Ok(()));
    let crashes = [
        crash(0, Fill::Zeros, b""),
        crash(4, Fill::Ones, b""),
        crash(5, Fill::Written, b""),
        crash(6, Fill::Zeros, b""),
        crash(6, Fill::Ones, b"old"),
        crash(6, Fill::Written, b"old"),
        crash(7, Fill::Zeros, b"old"),
    ];
    assert_eq!(rt; first_wrong(alloc, &disk, &crashes)?, None);
    Ok(())
}

#[test]
fn a_crash_in_the_second_save(rt: HostRuntime) -> Result<(), Fail> {
    let alloc = rt.alloc();
    let mut disk = disk_of(alloc, zeros(alloc)?, 0, 100)?;
    assert_eq!(rt; save_twice(&mut disk), Ok(()));
    assert_eq!(rt; disk.calls(), 11);
    let crashes = [
        crash(8, Fill::Ones, b"old"),
        crash(9, Fill::Zeros, b"old"),
        crash(10, Fill::Zeros, b"fresh"),
        crash(10, Fill::Ones, b"old"),
        crash(10, Fill::Written, b"fresh"),
        crash(11, Fill::Ones, b"fresh"),
    ];
    assert_eq!(rt; first_wrong(alloc, &disk, &crashes)?, None);
    Ok(())
}

/// Opens the disk and saves an image on it.
fn save_over(disk: &mut MemoryDisk, bytes: &[u8]) -> Result<(), SaveError>
    requires { IsStored bytes.now }
{
    let place = open(disk)?;
    save(disk, &place, bytes)?;
    Ok(())
}

/// A disk that keeps the old image in half 0, and whose call of that number fails.
fn old_disk(alloc: Global, failing: u32, room: usize) -> Result<MemoryDisk, Fail> {
    let image = written(alloc, 0, HALF_0, &OLD)?;
    Ok(disk_of(alloc, image, failing, room)?)
}

/// What comes of a save whose call of that number fails, and what is found on the disk then, and after one save more.
fn after_fault(alloc: Global, failing: u32, found: &[u8]) -> Result<bool, Fail> {
    let mut disk = old_disk(alloc, failing, 100)?;
    if save_over(&mut disk, &NEW) != Err(SaveError::Disk) {
        return Ok(false);
    }
    let image = kept(alloc, &mut disk)?;
    if image.as_slice() != found {
        return Ok(false);
    }
    save_over(&mut disk, &THIRD)?;
    let third = kept(alloc, &mut disk)?;
    Ok(third.as_slice() == b"!".as_slice())
}

#[test]
fn a_failed_open_changes_nothing(rt: HostRuntime) -> Result<(), Fail> {
    for failing in 1..=3 {
        assert!(rt; after_fault(rt.alloc(), failing, b"old")?, "call {failing}");
    }
    Ok(())
}

#[test]
fn a_failed_save_leaves_one_of_two_images(rt: HostRuntime) -> Result<(), Fail> {
    for failing in 4..=6 {
        assert!(rt; after_fault(rt.alloc(), failing, b"old")?, "call {failing}");
    }
    assert!(rt; after_fault(rt.alloc(), 7, b"fresh")?);
    Ok(())
}

#[test]
fn a_write_without_room_fails(rt: HostRuntime) -> Result<(), Fail> {
    let alloc = rt.alloc();
    let mut disk = old_disk(alloc, 0, 12)?;
    assert_eq!(rt; save_over(&mut disk, &NEW), Err(SaveError::Disk));
    assert_eq!(rt; disk.calls(), 4);
    let found = kept(alloc, &mut disk)?;
    assert_eq!(rt; found.as_slice(), b"old".as_slice());
    Ok(())
}

#[test]
fn opens_the_half_in_use(rt: HostRuntime) -> Result<(), Fail> {
    let alloc = rt.alloc();
    let empty = opened(alloc, zeros(alloc)?)?;
    assert_eq!(rt; empty, Ok(Place { half: 0, length: 0 }));
    let odd = opened(alloc, written(alloc, 255, HALF_1, &OLD)?)?;
    assert_eq!(rt; odd, Ok(Place { half: 1, length: 3 }));
    let even = opened(alloc, written(alloc, 254, HALF_0, &OLD)?)?;
    assert_eq!(rt; even, Ok(Place { half: 0, length: 3 }));
    let long = opened(alloc, written(alloc, 0, HALF_0, &TOO_GREAT)?)?;
    assert_eq!(rt; long, Err(SaveError::Length { length: 4_194_305 }));
    Ok(())
}

#[test]
fn a_file_is_a_disk(rt: HostRuntime) -> Result<(), Fail> {
    fs::write(&rt, "volume.store", "x")?;
    let mut disk = FileDisk::new(&rt);
    let mut byte = [7];
    assert_eq!(rt; disk.read(8_388_639, &mut byte), Ok(()));
    assert_eq!(rt; byte, [0]);
    assert_eq!(rt; disk.write(8_388_637, b"end"), Ok(()));
    assert_eq!(rt; disk.sync(), Ok(()));
    let mut again = FileDisk::new(&rt);
    let mut end = [0; 3];
    assert_eq!(rt; again.read(8_388_637, &mut end), Ok(()));
    assert_eq!(rt; &end, b"end");
    assert_eq!(rt; again.read(0, &mut byte), Ok(()));
    assert_eq!(rt; &byte, b"x");
    fs::remove_file(&rt, "volume.store")?;
    Ok(())
}
