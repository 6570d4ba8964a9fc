//! Three processors whose processes signal to each other, as they come and with two of them held up until both run.

use crate::configurations::PING_PONG;
use crate::paces::{Counts, Meeting};
use crate::runs::{Ran, run_text};
use command_input::Status;
use processors::NoPace;
use std::alloc::{AllocError, Global};
use std::fmt::Write;
use std::str;
use std::test::Fail;

/// What stands before the console of class 0, and behind it.
const FIRST_CLASS: (&str, &str) = ("class 0 low\n", "process 0 0 ended script 0");

/// What the higher classes show: the last number that each reader counted.
const HIGHER_CLASSES: [&str; 3] = [
    "class 1 mid\nline 20\nprocess 0 0 ended script 3 ",
    "class 2 side\nline 20\nprocess 1 0 ended script 3 ",
    "class 3 top\nclosed\n",
];

/// What class 0 shows first: 1 to 50 in order, and that its process has ended.
fn first_lines(alloc: Global) -> Result<String, AllocError> {
    let mut text = String::from_str(alloc, FIRST_CLASS.0)?;
    for number in 1..51 {
        let line = format!(in alloc; "line {number}\n")?;
        text.push_str(line.as_str())?;
    }
    text.push_str(FIRST_CLASS.1)?;
    Ok(text)
}

/// Whether the report shows the consoles that every order of steps gives.
fn has_consoles(alloc: Global, found: &Ran) -> Result<bool, AllocError> {
    let first = first_lines(alloc)?;
    let Ok(report) = str::from_utf8(found.report.as_slice()) else {
        return Ok(false);
    };
    Ok(
        found.status == Status::Done
            && report.starts_with(first.as_str())
            && report.contains(HIGHER_CLASSES[0])
            && report.contains(HIGHER_CLASSES[1])
            && report.ends_with(HIGHER_CLASSES[2]),
    )
}

/// Whether three processors took as many whole quanta of 64 steps each, and at least one.
fn are_whole_quanta(counts: &Counts) -> bool {
    let steps = counts.of(0);
    steps > 0 && steps % 64 == 0 && counts.of(1) == steps && counts.of(2) == steps
}

#[test]
fn as_they_come(rt: HostRuntime) -> Result<(), Fail> {
    let found = run_text(&rt, rt.alloc(), PING_PONG, &NoPace)?;
    assert!(rt; has_consoles(rt.alloc(), &found)?);
    Ok(())
}

#[test]
fn both_run_at_once(rt: HostRuntime) -> Result<(), Fail> {
    let pace = Meeting::new();
    let found = run_text(&rt, rt.alloc(), PING_PONG, &pace)?;
    assert!(rt; has_consoles(rt.alloc(), &found)?);
    assert!(rt; pace.first.was_seen() && pace.second.was_seen());
    assert!(rt; are_whole_quanta(&pace.counts));
    Ok(())
}
