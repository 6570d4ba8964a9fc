//! Disks in memory, and what is kept on them.

ghost use Rattle.std.specs.Prelude.{◌≡◌, ◌≤◌, ◌+◌, IfOk, vec_len, length};

use safe_save::{Fill, MemoryDisk, Place, SaveError, load, open};
use std::alloc::{AllocError, Global};
use std::test::Fail;

/// The bytes of a disk.
pub const DISK_SIZE: usize = 8_388_640;

/// Where half 0 and half 1 begin.
pub const HALF_0: usize = 16;

pub const HALF_1: usize = 4_194_328;

/// A disk of zeros.
pub fn zeros(alloc: Global) -> Result<Vec<u8>, AllocError>
    ensures { IfOk result (λ v. vec_len v ≡ 8388640) }
{
    let mut bytes = Vec::new(alloc);
    bytes.resize(DISK_SIZE, 0)?;
    Ok(bytes)
}

/// A disk of zeros, but for the gate and what stands from that place on.
pub fn written(alloc: Global, gate: u8, at: usize, bytes: &[u8]) -> Result<Vec<u8>, AllocError>
    requires { at + length bytes.now ≤ 8388640 }
    ensures { IfOk result (λ v. vec_len v ≡ 8388640) }
{
    let mut image = zeros(alloc)?;
    image[0] = gate;
    image[at..at + bytes.len()].copy_from_slice(bytes);
    Ok(image)
}

/// A disk in memory with those bytes, whose call of that number fails, with room for 40 calls.
pub fn disk_of(
    alloc: Global,
    bytes: Vec<u8>,
    failing: u32,
    room: usize,
) -> Result<MemoryDisk, AllocError>
    requires { vec_len bytes ≡ 8388640 }
{
    let calls = vec![in alloc; failing]?;
    MemoryDisk::new(alloc, bytes, calls, 40, room)
}

/// What `open` answers of a disk with those bytes.
pub fn opened(alloc: Global, bytes: Vec<u8>) -> Result<Result<Place, SaveError>, AllocError>
    requires { vec_len bytes ≡ 8388640 }
{
    let mut disk = disk_of(alloc, bytes, 0, 0)?;
    Ok(open(&mut disk))
}

/// The image that is kept on the disk, which is opened for it.
pub fn kept(alloc: Global, disk: &mut MemoryDisk) -> Result<Vec<u8>, Fail> {
    let place = open(disk)?;
    let mut image = Vec::new(alloc);
    image.resize(place.length as usize, 0)?;
    load(disk, &place, &mut image)?;
    Ok(image)
}

/// The image that is kept on what a crash after that call may leave, filled so.
pub fn kept_after(alloc: Global, disk: &MemoryDisk, call: u32, fill: Fill) -> Result<Vec<u8>, Fail>
    requires { call ≤ disk.now.calls }
{
    let mut image = zeros(alloc)?;
    disk.image_after(call, fill, &mut image);
    let mut after = disk_of(alloc, image, 0, 0)?;
    kept(alloc, &mut after)
}

/// What is kept after a crash right behind a call, where the ranges since the last sync are filled so.
#[derive(Clone, Copy, Drop)]
pub struct Crash {
    pub call: u32,
    pub fill: Fill,
    pub image: &'static [u8],
}

/// The first of the calls behind which a crash leaves something else, or that wasn't made.
pub fn first_wrong(
    alloc: Global,
    disk: &MemoryDisk,
    crashes: &[Crash],
) -> Result<Option<u32>, Fail> {
    for crash in crashes {
        if crash.call > disk.calls() {
            return Ok(Some(crash.call));
        }
        let found = kept_after(alloc, disk, crash.call, crash.fill)?;
        if found.as_slice() != crash.image {
            return Ok(Some(crash.call));
        }
    }
    Ok(None)
}
