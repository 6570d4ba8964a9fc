//! What `guard` answers, and the volume that it makes.

use command_guard::guard;
use command_input::{PortFault, Refusal, Status};
use host_ports::MemoryHost;
use std::alloc::{AllocError, Global};
use std::test::Fail;

/// The table of the orders: a low class and a high one.
const FRONT: &str = "gemrelease 1\nclasses 2\nclass low 0{}/15{}\nclass high 1{}/15{}\n";

/// The bytes of a volume of the table, up to its number of records.
const HEAD: [u8; 39] = [
    71, 69, 77, 86, 79, 76, 2, 0, 2, 3, 108, 111, 119, 0, 0, 0, 0, 0, 15, 0, 0, 0, 0, 4, 104, 105,
    103, 104, 1, 0, 0, 0, 0, 15, 0, 0, 0, 0, 0,
];

/// A record of the root's, by serial, class and size, in entry `serial - 1`. Its words are this one, so often, or none.
type Kept = (u8, u8, u8, Option<u8>);

/// A high report of one word, and a low segment.
const REPORT: [Kept; 2] = [(1, 1, 1, Some(5)), (2, 0, 1, None)];

/// The records, in their order.
fn image(alloc: Global, records: &[Kept]) -> Result<Vec<u8>, AllocError> {
    let mut bytes = Vec::new(alloc);
    bytes.extend_from_slice(&HEAD)?;
    bytes.push(records.len().min(255) as u8)?;
    for (serial, class, size, word) in records {
        bytes.extend_from_slice(&[0, *serial, *class, 7, 7, 7, *size, 0, 0])?;
        bytes.push(serial.saturating_sub(1))?;
        bytes.push(u8::from(word.is_some()))?;
        if let Some(word) = word {
            for _ in 0..*size {
                bytes.extend_from_slice(&[0, 0, 0, 0, 0, 0, 0, *word])?;
            }
        }
    }
    Ok(bytes)
}

/// What is at ports 0 and 1, the bytes that are taken, and the pull and the push that fail, counted from 1 (0: none).
#[derive(Clone, Copy)]
struct Given<'a> {
    lines: &'a str,
    records: &'a [Kept],
    room: usize,
    pull: u32,
    push: u32,
}

/// What `guard` answers, and what ports 0 and 1 have taken.
#[derive(Drop)]
struct Ran {
    status: Status,
    first: Vec<u8>,
    second: Vec<u8>,
}

fn run(alloc: Global, given: &Given) -> Result<Ran, AllocError> {
    let mut text = Vec::new(alloc);
    if !given.lines.is_empty() {
        text.extend_from_slice(FRONT.as_bytes())?;
        text.extend_from_slice(given.lines.as_bytes())?;
    }
    let mut inputs = Vec::new(alloc);
    inputs.push(text)?;
    inputs.push(image(alloc, given.records)?)?;
    inputs.push(Vec::new(alloc))?;
    inputs.push(Vec::new(alloc))?;
    inputs.push(Vec::new(alloc))?;
    let pulls = Vec::from_slice(alloc, &[given.pull])?;
    let pushes = Vec::from_slice(alloc, &[given.push])?;
    let mut host = MemoryHost::new(alloc, inputs, 4096, given.room, pulls, pushes)?;
    let status = guard(alloc, &mut host);
    Ok(Ran {
        status,
        first: Vec::from_slice(alloc, host.taken(0))?,
        second: Vec::from_slice(alloc, host.taken(1))?,
    })
}

/// The answer where no call of the host fails.
fn answer(alloc: Global, lines: &str, records: &[Kept]) -> Result<Status, AllocError> {
    let given = Given {
        lines,
        records,
        room: 1000,
        pull: 0,
        push: 0,
    };
    let ran = run(alloc, &given)?;
    Ok(ran.status)
}

/// Whether the order makes these records of those, and nothing is pushed to port 0.
fn makes(alloc: Global, lines: &str, records: &[Kept], wanted: &[Kept]) -> Result<bool, Fail> {
    let given = Given {
        lines,
        records,
        room: 1000,
        pull: 0,
        push: 0,
    };
    let ran = run(alloc, &given)?;
    let image = image(alloc, wanted)?;
    Ok(
        ran.status == Status::Done
            && ran.first.is_empty()
            && ran.second.as_slice() == image.as_slice(),
    )
}

fn release(line: u32, code: u8) -> Status {
    Status::Refused(Refusal::Release { line, code })
}

#[test]
fn a_word_is_released(rt: HostRuntime) -> Result<(), Fail> {
    let lines = "release 0 1 to 0 2\nexport 0\nend\n";
    let low = [(1, 1, 1, None), (2, 0, 1, Some(5))];
    assert!(rt; makes(rt.alloc(), lines, &REPORT, &low)?);
    let other = [(1, 1, 1, Some(6)), (2, 0, 1, None)];
    let low = [(1, 1, 1, None), (2, 0, 1, Some(6))];
    assert!(rt; makes(rt.alloc(), lines, &other, &low)?);
    Ok(())
}

#[test]
fn without_a_release_no_high_word_shows(rt: HostRuntime) -> Result<(), Fail> {
    let low = [(1, 1, 1, None), (2, 0, 1, None)];
    let other = [(1, 1, 1, Some(6)), (2, 0, 1, None)];
    assert!(rt; makes(rt.alloc(), "export 0\nend\n", &REPORT, &low)?);
    assert!(rt; makes(rt.alloc(), "export 0\nend\n", &other, &low)?);
    assert!(rt; makes(rt.alloc(), "export 1\nend\n", &REPORT, &REPORT)?);
    Ok(())
}

#[test]
fn sources_are_read_as_they_were(rt: HostRuntime) -> Result<(), Fail> {
    let chain = [(1, 0, 2, Some(5)), (2, 0, 2, Some(6)), (3, 0, 2, None)];
    let lines = "release 0 1 to 0 2\nrelease 0 2 to 0 3\nrelease 0 3 to 0 1\nexport 0\nend\n";
    assert_eq!(rt; answer(rt.alloc(), lines, &chain)?, release(7, 14));
    let lines = "release 0 1 to 0 2\nrelease 0 2 to 0 3\nexport 0\nend\n";
    let moved = [(1, 0, 2, Some(5)), (2, 0, 2, Some(5)), (3, 0, 2, Some(6))];
    assert!(rt; makes(rt.alloc(), lines, &chain, &moved)?);
    let lines = "release 0 1 to 0 3\nrelease 0 2 to 0 3\nexport 0\nend\n";
    let last = [(1, 0, 2, Some(5)), (2, 0, 2, Some(6)), (3, 0, 2, Some(6))];
    assert!(rt; makes(rt.alloc(), lines, &chain, &last)?);
    Ok(())
}

/// Lines of an order for the report, and the answer.
const REFUSED: [(&str, u32, u8); 5] = [
    ("release 0 3 to 0 1\nexport 0\nend\n", 5, 13),
    ("release 0 2 to 0 1\nexport 0\nend\n", 5, 14),
    ("release 0 1 to 0 3\nexport 0\nend\n", 5, 15),
    ("", 1, 12),
    ("export 0\nend\nend\n", 7, 2),
];

#[test]
fn refusals(rt: HostRuntime) -> Result<(), Fail> {
    for (lines, line, code) in REFUSED {
        assert_eq!(rt;
            answer(rt.alloc(), lines, &REPORT)?,
            release(line, code),
            "{lines}"
        );
    }
    let larger = [(1, 1, 1, Some(5)), (2, 0, 2, None)];
    let lines = "release 0 1 to 0 2\nexport 0\nend\n";
    assert_eq!(rt; answer(rt.alloc(), lines, &larger)?, release(5, 16));
    let disordered = [(2, 0, 1, None), (1, 1, 1, Some(5))];
    let found = answer(rt.alloc(), lines, &disordered)?;
    assert_eq!(rt;
        found,
        Status::Refused(Refusal::Volume {
            port: 1,
            offset: 51,
            code: 8
        })
    );
    Ok(())
}

#[test]
fn faults_of_the_host(rt: HostRuntime) -> Result<(), Fail> {
    let mut given = Given {
        lines: "release 0 1 to 0 2\nexport 0\nend\n",
        records: &REPORT,
        room: 69,
        pull: 0,
        push: 0,
    };
    let short = run(rt.alloc(), &given)?;
    assert_eq!(rt;
        short.status,
        Status::HostFault(PortFault::Write { port: 1 })
    );
    assert!(rt; short.second.is_empty());
    given.pull = 1;
    let first = run(rt.alloc(), &given)?;
    assert_eq!(rt;
        first.status,
        Status::HostFault(PortFault::Read { port: 0 })
    );
    given.pull = 3;
    let second = run(rt.alloc(), &given)?;
    assert_eq!(rt;
        second.status,
        Status::HostFault(PortFault::Read { port: 1 })
    );
    assert!(rt; second.first.is_empty() && second.second.is_empty());
    Ok(())
}
