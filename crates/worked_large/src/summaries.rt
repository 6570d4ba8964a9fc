//! What the command `large` pushes, and what it answers.

use command_input::{PortFault, Status};
use command_large::large;
use host_ports::MemoryHost;
use std::alloc::{AllocError, Global};
use std::test::Fail;

/// The summary of 7.
const SUMMARY: &str =
    "large 7 classes 8 processors 4 processes 128 events 4000000\nclass 0 lines 15 ended 16 live 0 tickets 300\nclass 1 lines 16 ended 16 live 0 tickets 320\nclass 2 lines 16 ended 16 live 0 tickets 320\nclass 3 lines 16 ended 16 live 0 tickets 320\nclass 4 lines 16 ended 16 live 0 tickets 320\nclass 5 lines 16 ended 16 live 0 tickets 320\nclass 6 lines 16 ended 16 live 0 tickets 320\nclass 7 lines 16 ended 16 live 0 tickets 320\n";

/// Its first two lines.
const TWO_LINES: &str =
    "large 7 classes 8 processors 4 processes 128 events 4000000\nclass 0 lines 15 ended 16 live 0 tickets 300\n";

/// What the command answers, and what port 0 has taken.
#[derive(Drop)]
struct Ran {
    status: Status,
    text: Vec<u8>,
}

/// A host with a configuration at port 0, whose push of this number fails, counted from 1 (0: none).
fn host_of(alloc: Global, push: u32) -> Result<MemoryHost, AllocError> {
    let mut inputs = Vec::new(alloc);
    inputs.push(Vec::from_slice(alloc, b"gemkernel 1\n")?)?;
    inputs.push(Vec::new(alloc))?;
    inputs.push(Vec::new(alloc))?;
    inputs.push(Vec::new(alloc))?;
    inputs.push(Vec::new(alloc))?;
    MemoryHost::new(
        alloc,
        inputs,
        4096,
        4096,
        Vec::from_slice(alloc, &[1])?,
        Vec::from_slice(alloc, &[push])?,
    )
}

fn run(alloc: Global, number: u64, push: u32) -> Result<Ran, AllocError> {
    let mut host = host_of(alloc, push)?;
    let status = large(alloc, &mut host, number);
    Ok(Ran {
        status,
        text: Vec::from_slice(alloc, host.taken(0))?,
    })
}

fn is_seven(alloc: Global) -> Result<bool, AllocError> {
    let ran = run(alloc, 7, 0)?;
    Ok(ran.status == Status::Done && ran.text.as_slice() == SUMMARY.as_bytes())
}

/// The same text twice. Nothing is pulled, though the first pull would fail.
#[test]
fn summary_of_seven(rt: HostRuntime) -> Result<(), Fail> {
    assert!(rt; is_seven(rt.alloc())?);
    assert!(rt; is_seven(rt.alloc())?);
    Ok(())
}

#[test]
fn third_push_fails(rt: HostRuntime) -> Result<(), Fail> {
    let ran = run(rt.alloc(), 7, 3)?;
    assert_eq!(rt; ran.status, Status::HostFault(PortFault::Write { port: 0 }));
    assert_eq!(rt; ran.text.as_slice(), TWO_LINES.as_bytes());
    Ok(())
}

#[test]
fn greatest_number(rt: HostRuntime) -> Result<(), Fail> {
    let ran = run(rt.alloc(), u64::MAX, 0)?;
    assert_eq!(rt; ran.status, Status::Done);
    assert!(rt;
        ran.text
            .as_slice()
            .starts_with(b"large 18446744073709551615 classes 8 ")
    );
    Ok(())
}
