//! A run over a host in memory.

use command_input::Status;
use command_threads::run;
use host_ports::MemoryHost;
use processors::Pace;
use std::alloc::{AllocError, Global};
use std::thread::Threads;

/// The bytes that all ports together take.
const ROOM: usize = 10_000;

/// What is answered, and what port 0 has taken.
#[derive(Drop)]
pub struct Ran {
    pub status: Status,
    pub report: Vec<u8>,
}

/// A host with this text at port 0 and this volume at ports 1 and 3, of which no call fails.
pub fn host_with(alloc: Global, text: &str, volume: &[u8]) -> Result<MemoryHost, AllocError> {
    let mut inputs = Vec::new(alloc);
    inputs.push(Vec::from_slice(alloc, text.as_bytes())?)?;
    inputs.push(Vec::from_slice(alloc, volume)?)?;
    inputs.push(Vec::new(alloc))?;
    inputs.push(Vec::from_slice(alloc, volume)?)?;
    inputs.push(Vec::new(alloc))?;
    MemoryHost::new(alloc, inputs, 4096, ROOM, Vec::new(alloc), Vec::new(alloc))
}

/// Likewise with nothing at the other ports.
pub fn host_of(alloc: Global, text: &str) -> Result<MemoryHost, AllocError> {
    host_with(alloc, text, &[])
}

/// What comes of running the configuration by threads at this pace.
pub fn run_text<R: Threads + Sync, P: Pace + Sync>(
    rt: &R,
    alloc: Global,
    text: &str,
    pace: &P,
) -> Result<Ran, AllocError> {
    let mut host = host_of(alloc, text)?;
    let status = run(rt, alloc, &mut host, pace);
    Ok(Ran {
        status,
        report: Vec::from_slice(alloc, host.taken(0))?,
    })
}

/// Whether a run has ended so.
pub fn is_so(found: &Ran, status: Status, report: &str) -> bool {
    found.status == status && found.report.as_slice() == report.as_bytes()
}
