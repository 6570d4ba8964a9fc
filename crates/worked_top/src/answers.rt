//! The answers of `sim` and `show` without volumes, and those to other words.

use crate::configurations::{
    EMPTY, ENDED, LIVE, NOTHING, THREE_STEPS, TWO_EVENTS, WITH_COMMENTS, WITH_VOLUMES,
};
use crate::runs::{Given, run, text_alone};
use command_input::{PortFault, Refusal, Status};
use std::alloc::{AllocError, Global};
use std::test::Fail;

const READ_FAULT: Status = Status::HostFault(PortFault::Read { port: 0 });

const WRITE_FAULT: Status = Status::HostFault(PortFault::Write { port: 0 });

/// Lists of words with their kinds of usage: first those that aren't accepted, then those of commands that aren't carried out.
const OTHER_WORDS: [(&[&str], u8); 14] = [
    (&["--help"], 1),
    (&["view", "-1"], 1),
    (&[], 2),
    (&["Sim"], 3),
    (&["", "sim"], 3),
    (&["view"], 4),
    (&["view", "01"], 5),
    (&["view", "16"], 5),
    (&["large", "x", "1"], 5),
    (&["sim", "x"], 6),
    (&["run", "x"], 6),
    (&["run"], 3),
    (&["save"], 3),
    (&["restore"], 3),
];

/// A text at port 0, the room, the pull and the push that fail, the answer, and what port 0 has taken.
type Case = (&'static str, usize, u32, u32, Status, &'static str);

/// What comes of running texts.
fn run_cases() -> [Case; 11] {
    [
        (THREE_STEPS, 1000, 0, 0, Status::Done, ENDED),
        (TWO_EVENTS, 1000, 0, 0, Status::Unfinished, LIVE),
        (NOTHING, 1000, 0, 0, Status::Done, EMPTY),
        (
            THREE_STEPS,
            1000,
            0,
            3,
            WRITE_FAULT,
            "class 0 low\nline 5\n",
        ),
        (THREE_STEPS, 1000, 1, 0, READ_FAULT, ""),
        (THREE_STEPS, 0, 0, 0, WRITE_FAULT, ""),
        (THREE_STEPS, 1, 0, 0, WRITE_FAULT, ""),
        (
            THREE_STEPS,
            100,
            0,
            0,
            WRITE_FAULT,
            "class 0 low\nline 5\nprocess 0 0 ended script 0 place 2 ring 4\nregs 0 0 5 0 0 0 0 0 0 0 0 0 0 0 0 0\n",
        ),
        ("", 1000, 0, 0, refused(1, 12), ""),
        ("gemkernel 1\nclasses 0\n", 1000, 0, 0, refused(2, 4), ""),
        (WITH_COMMENTS, 1000, 0, 0, Status::Done, ENDED),
    ]
}

/// What comes of showing texts.
fn shown_cases() -> [Case; 6] {
    [
        (THREE_STEPS, 1000, 0, 0, Status::Done, THREE_STEPS),
        (WITH_COMMENTS, 1000, 0, 0, Status::Done, THREE_STEPS),
        (WITH_VOLUMES, 1000, 0, 0, Status::Done, WITH_VOLUMES),
        (THREE_STEPS, 0, 0, 0, WRITE_FAULT, ""),
        (THREE_STEPS, 1000, 0, 1, WRITE_FAULT, ""),
        ("gemkernel 1\n", 1000, 0, 0, refused(2, 12), ""),
    ]
}

fn refused(line: u32, code: u8) -> Status {
    Status::Refused(Refusal::Config { line, code })
}

/// Whether a case comes as it is expected.
fn holds(alloc: Global, word: &str, case: &Case) -> Result<bool, AllocError> {
    let given = Given {
        room: case.1,
        pull: case.2,
        push: case.3,
        ..text_alone(case.0.as_bytes())
    };
    let found = run(alloc, &[word], &given)?;
    Ok(found.status == case.4 && found.report.as_slice() == case.5.as_bytes())
}

/// The first case that comes otherwise.
fn first_fault(alloc: Global, word: &str, cases: &[Case]) -> Result<Option<usize>, AllocError> {
    for (place, case) in cases.iter().enumerate() {
        if !holds(alloc, word, case)? {
            return Ok(Some(place));
        }
    }
    Ok(None)
}

/// The answer to the words, where nothing is pushed.
fn silent_answer(alloc: Global, words: &[&str], text: &[u8]) -> Result<Option<Status>, AllocError> {
    let found = run(alloc, words, &text_alone(text))?;
    Ok(found.report.is_empty().then_some(found.status))
}

#[test]
fn runs(rt: HostRuntime) -> Result<(), Fail> {
    assert_eq!(rt; first_fault(rt.alloc(), "sim", &run_cases())?, None);
    Ok(())
}

#[test]
fn shows(rt: HostRuntime) -> Result<(), Fail> {
    assert_eq!(rt; first_fault(rt.alloc(), "show", &shown_cases())?, None);
    Ok(())
}

/// The first list of words that is answered otherwise than by Usage of its kind, or where something is pushed.
fn first_wrong_kind(alloc: Global, rows: &[(&[&str], u8)]) -> Result<Option<usize>, AllocError> {
    for (place, row) in rows.iter().enumerate() {
        let found = silent_answer(alloc, row.0, THREE_STEPS.as_bytes())?;
        if found != Some(Status::Usage { kind: row.1 }) {
            return Ok(Some(place));
        }
    }
    Ok(None)
}

#[test]
fn other_words(rt: HostRuntime) -> Result<(), Fail> {
    assert_eq!(rt; first_wrong_kind(rt.alloc(), &OTHER_WORDS)?, None);
    Ok(())
}

/// The answer of `sim` to so many blanks.
fn blanks(alloc: Global, count: usize) -> Result<Option<Status>, AllocError> {
    let text = vec![in alloc; b' '; count]?;
    silent_answer(alloc, &["sim"], text.as_slice())
}

#[test]
fn too_long(rt: HostRuntime) -> Result<(), Fail> {
    let long = Status::Refused(Refusal::TooLong { port: 0 });
    assert_eq!(rt; blanks(rt.alloc(), 1_048_577)?, Some(long));
    assert_eq!(rt; blanks(rt.alloc(), 1_048_576)?, Some(refused(2, 12)));
    Ok(())
}
