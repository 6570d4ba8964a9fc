//! A run of the top call over a host in memory.

use command_input::Status;
use host_ports::MemoryHost;
use kernel_top::sim_main;
use std::alloc::{AllocError, Global};

/// What is at ports 0, 1 and 3, the bytes that all ports together take, and the pull and the push that fail, counted from 1 (0:
/// none).
#[derive(Clone, Copy)]
pub struct Given<'a> {
    pub text: &'a [u8],
    pub first: &'a [u8],
    pub third: &'a [u8],
    pub room: usize,
    pub pull: u32,
    pub push: u32,
}

/// What the top call answers, and what ports 0, 1 and 3 have taken.
#[derive(Drop)]
pub struct Ran {
    pub status: Status,
    pub report: Vec<u8>,
    pub first: Vec<u8>,
    pub third: Vec<u8>,
}

fn host_of(alloc: Global, given: &Given) -> Result<MemoryHost, AllocError> {
    let mut inputs = Vec::new(alloc);
    inputs.push(Vec::from_slice(alloc, given.text)?)?;
    inputs.push(Vec::from_slice(alloc, given.first)?)?;
    inputs.push(Vec::new(alloc))?;
    inputs.push(Vec::from_slice(alloc, given.third)?)?;
    inputs.push(Vec::new(alloc))?;
    MemoryHost::new(
        alloc,
        inputs,
        4096,
        given.room,
        Vec::from_slice(alloc, &[given.pull])?,
        Vec::from_slice(alloc, &[given.push])?,
    )
}

/// The top call on those words.
pub fn run(alloc: Global, words: &[&str], given: &Given) -> Result<Ran, AllocError> {
    let mut host = host_of(alloc, given)?;
    let status = sim_main(alloc, words, &mut host);
    Ok(Ran {
        status,
        report: Vec::from_slice(alloc, host.taken(0))?,
        first: Vec::from_slice(alloc, host.taken(1))?,
        third: Vec::from_slice(alloc, host.taken(3))?,
    })
}

/// A text at port 0 alone, with room for a report, where no call fails.
pub fn text_alone(text: &[u8]) -> Given {
    Given {
        text,
        first: &[],
        third: &[],
        room: 1000,
        pull: 0,
        push: 0,
    }
}
