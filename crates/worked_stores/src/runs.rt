//! Runs of `save` and `restore` over a host and a disk in memory.

ghost use Rattle.std.specs.Prelude.{◌≡◌, ◌≤◌, ◌+◌, IfOk, vec_len, length};

use crate::volumes::CONFIGURATION;
use command_input::Status;
use command_save::{restore, save};
use host_ports::MemoryHost;
use safe_save::{Fill, MemoryDisk};
use std::alloc::{AllocError, Global};
use std::test::Fail;

/// The bytes of a disk.
pub const DISK_SIZE: usize = 8_388_640;

/// Where half 0 and half 1 begin.
pub const HALF_0: usize = 16;

pub const HALF_1: usize = 4_194_328;

/// The bytes that one call of the host moves at most.
const CHUNK: usize = 32;

/// What is at ports 0 and 1, the bytes that all ports together take, and the pull and the push that fail, counted from 1 (0:
/// none).
#[derive(Clone, Copy)]
pub struct Given<'a> {
    pub text: &'a [u8],
    pub volume: &'a [u8],
    pub room: usize,
    pub pull: u32,
    pub push: u32,
}

/// The configuration, with that at port 1, where no call fails.
pub fn volume_given(volume: &[u8]) -> Given {
    Given {
        text: CONFIGURATION.as_bytes(),
        volume,
        room: 1000,
        pull: 0,
        push: 0,
    }
}

fn host_of(alloc: Global, given: &Given) -> Result<MemoryHost, AllocError> {
    let mut inputs = Vec::new(alloc);
    inputs.push(Vec::from_slice(alloc, given.text)?)?;
    inputs.push(Vec::from_slice(alloc, given.volume)?)?;
    inputs.push(Vec::new(alloc))?;
    inputs.push(Vec::new(alloc))?;
    inputs.push(Vec::new(alloc))?;
    MemoryHost::new(
        alloc,
        inputs,
        CHUNK,
        given.room,
        Vec::from_slice(alloc, &[given.pull])?,
        Vec::from_slice(alloc, &[given.push])?,
    )
}

/// What a command answers, and what port 1 has taken.
#[derive(Drop)]
pub struct Ran {
    pub status: Status,
    pub taken: Vec<u8>,
}

/// What `save` does on that disk.
pub fn run_save(alloc: Global, given: &Given, disk: &mut MemoryDisk) -> Result<Ran, AllocError> {
    let mut host = host_of(alloc, given)?;
    let status = save(alloc, &mut host, disk);
    Ok(Ran {
        status,
        taken: Vec::from_slice(alloc, host.taken(1))?,
    })
}

/// What `restore` does on that disk.
pub fn run_restore(alloc: Global, given: &Given, disk: &mut MemoryDisk) -> Result<Ran, AllocError> {
    let mut host = host_of(alloc, given)?;
    let status = restore(alloc, &mut host, disk);
    Ok(Ran {
        status,
        taken: Vec::from_slice(alloc, host.taken(1))?,
    })
}

/// A disk of zeros.
pub fn zeros(alloc: Global) -> Result<Vec<u8>, AllocError>
    ensures { IfOk result (λ v. vec_len v ≡ 8388640) }
{
    let mut bytes = Vec::new(alloc);
    bytes.resize(DISK_SIZE, 0)?;
    Ok(bytes)
}

/// A disk of zeros, but for a half that begins with that length and those bytes, and is in use.
pub fn kept_in(
    alloc: Global,
    half: u8,
    start: usize,
    size: u64,
    bytes: &[u8],
) -> Result<Vec<u8>, AllocError>
    requires { start + 8 + length bytes.now ≤ 8388640 }
    ensures { IfOk result (λ v. vec_len v ≡ 8388640) }
{
    let mut image = zeros(alloc)?;
    image[0] = half;
    image[start..start + 8].copy_from_slice(&size.to_be_bytes());
    image[start + 8..start + 8 + bytes.len()].copy_from_slice(bytes);
    Ok(image)
}

/// A disk in memory with those bytes, whose call of that number fails, with room for twenty calls.
pub fn disk_of(alloc: Global, bytes: Vec<u8>, failing: u32) -> Result<MemoryDisk, AllocError>
    requires { vec_len bytes ≡ 8388640 }
{
    let calls = vec![in alloc; failing]?;
    MemoryDisk::new(alloc, bytes, calls, 20, 1000)
}

/// What `restore` gives where it is run on that disk: its answer, and what it pushes.
pub fn gives(
    alloc: Global,
    disk: &mut MemoryDisk,
    status: Status,
    image: &[u8],
) -> Result<bool, Fail> {
    let found = run_restore(alloc, &volume_given(&[]), disk)?;
    Ok(found.status == status && found.taken.as_slice() == image)
}

/// Whether `restore` gives that where it is run on what a crash after that call may leave, filled so.
pub fn gives_after(
    alloc: Global,
    disk: &MemoryDisk,
    call: u32,
    fill: Fill,
    status: Status,
    image: &[u8],
) -> Result<bool, Fail>
    requires { call ≤ disk.now.calls }
{
    let mut bytes = zeros(alloc)?;
    disk.image_after(call, fill, &mut bytes);
    let mut after = disk_of(alloc, bytes, 0)?;
    gives(alloc, &mut after, status, image)
}
