//! A run of `sim` over a host in memory.

use command_input::Status;
use host_ports::MemoryHost;
use kernel_top::sim_main;
use std::alloc::{AllocError, Global};

/// The bytes that one call of the host moves at most.
const CHUNK: usize = 7;

/// More bytes than all ports take.
const ROOM: usize = 4096;

/// What is at port 0 and at the ports of the volumes, and the pull and the push that fail, counted from 1 (0: none).
#[derive(Clone, Copy)]
pub struct Given<'a> {
    pub text: &'a [u8],
    pub volumes: [&'a [u8]; 4],
    pub pull: u32,
    pub push: u32,
}

/// What the top call answers, and the host behind it.
#[derive(Drop)]
pub struct Ran {
    pub status: Status,
    pub host: MemoryHost,
}

fn host_of(alloc: Global, given: &Given) -> Result<MemoryHost, AllocError> {
    let mut inputs = Vec::new(alloc);
    inputs.push(Vec::from_slice(alloc, given.text)?)?;
    let [first, second, third, fourth] = given.volumes;
    inputs.push(Vec::from_slice(alloc, first)?)?;
    inputs.push(Vec::from_slice(alloc, second)?)?;
    inputs.push(Vec::from_slice(alloc, third)?)?;
    inputs.push(Vec::from_slice(alloc, fourth)?)?;
    MemoryHost::new(
        alloc,
        inputs,
        CHUNK,
        ROOM,
        Vec::from_slice(alloc, &[given.pull])?,
        Vec::from_slice(alloc, &[given.push])?,
    )
}

/// A run of `sim`.
pub fn run(alloc: Global, given: &Given) -> Result<Ran, AllocError> {
    let mut host = host_of(alloc, given)?;
    let status = sim_main(alloc, &["sim"], &mut host);
    Ok(Ran { status, host })
}

/// A text at port 0 alone, where no call fails.
pub fn text_alone(text: &[u8]) -> Given {
    with_volume(text, b"")
}

/// A text at port 0 and a volume at port 1, where no call fails.
pub fn with_volume<'a>(text: &'a [u8], volume: &'a [u8]) -> Given<'a> {
    Given {
        text,
        volumes: [volume, b"", b"", b""],
        pull: 0,
        push: 0,
    }
}
