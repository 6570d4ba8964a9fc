//! The texts of the answers.

use command_input::{PortFault, Refusal, Status};
use std::alloc::Global;
use std::test::Fail;

const REFUSALS: [(Refusal, &str); 7] = [
    (
        Refusal::Config { line: 17, code: 12 },
        "refused config line 17 code 12",
    ),
    (
        Refusal::Class {
            given: 5,
            classes: 2,
        },
        "refused class 5 of 2",
    ),
    (
        Refusal::Volume {
            port: 1,
            offset: 42,
            code: 8,
        },
        "refused volume 1 offset 42 code 8",
    ),
    (
        Refusal::Load {
            volume: 1,
            item: 3,
            code: 5,
        },
        "refused load 1 item 3 code 5",
    ),
    (Refusal::TooLong { port: 1 }, "refused long port 1"),
    (
        Refusal::Release { line: 4, code: 13 },
        "refused release line 4 code 13",
    ),
    (Refusal::Store { length: 0 }, "refused store length 0"),
];

const OTHERS: [(Status, &str); 7] = [
    (Status::Done, "done"),
    (Status::Usage { kind: 6 }, "usage kind 6"),
    (
        Status::HostFault(PortFault::Read { port: 0 }),
        "fault read port 0",
    ),
    (
        Status::HostFault(PortFault::Write { port: 4 }),
        "fault write port 4",
    ),
    (Status::HostFault(PortFault::Disk), "fault disk"),
    (Status::Unfinished, "unfinished"),
    (Status::NoMemory, "no memory"),
];

/// Whether the line of an answer is this text.
fn says(alloc: Global, status: Status, text: &str) -> Result<bool, Fail> {
    Ok(status.to_string(alloc)?.as_str() == text)
}

#[test]
fn each_refusal_has_its_text(rt: HostRuntime) -> Result<(), Fail> {
    for (why, text) in REFUSALS {
        assert!(rt; says(rt.alloc(), Status::Refused(why), text)?, "{text}");
    }
    Ok(())
}

#[test]
fn each_answer_has_its_text(rt: HostRuntime) -> Result<(), Fail> {
    for (status, text) in OTHERS {
        assert!(rt; says(rt.alloc(), status, text)?, "{text}");
    }
    Ok(())
}
