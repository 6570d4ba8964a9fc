//! A configuration that is cut behind each of its bytes, and one in which each byte is zero in turn.

use crate::inputs::{ENDED, THREE_STEPS};
use crate::runs::{run, text_alone};
use command_input::{Refusal, Status};
use std::alloc::{AllocError, Global};
use std::test::Fail;

/// Where a text of at most so many bytes is cut: its line and code. A cut in a line leaves it without a word (2, 22), a keyword (21),
/// a register (24) or a number (3), and one behind a line leaves out the next one (12).
const CUTS: [(usize, u32, u8); 38] = [
    (0, 1, 12),
    (10, 1, 2),
    (12, 2, 12),
    (20, 2, 2),
    (22, 3, 12),
    (65, 3, 2),
    (67, 4, 12),
    (111, 4, 2),
    (113, 5, 12),
    (124, 5, 2),
    (126, 6, 12),
    (132, 6, 2),
    (134, 7, 12),
    (141, 7, 2),
    (143, 8, 12),
    (151, 8, 2),
    (153, 9, 12),
    (161, 9, 2),
    (165, 10, 12),
    (172, 10, 2),
    (174, 11, 12),
    (176, 11, 21),
    (181, 11, 22),
    (183, 12, 12),
    (185, 12, 21),
    (187, 12, 22),
    (188, 12, 24),
    (190, 13, 12),
    (193, 13, 21),
    (195, 14, 12),
    (197, 14, 21),
    (199, 15, 12),
    (213, 15, 2),
    (215, 16, 12),
    (225, 16, 2),
    (226, 16, 3),
    (228, 17, 12),
    (230, 17, 2),
];

fn refused(line: u32, code: u8) -> Status {
    Status::Refused(Refusal::Config { line, code })
}

/// Whether the text is answered so, and nothing is pushed.
fn is_refused(alloc: Global, text: &[u8], status: Status) -> Result<bool, AllocError> {
    let ran = run(alloc, &text_alone(text))?;
    Ok(ran.status == status && ran.host.taken(0).is_empty())
}

/// The answer to the first so many bytes of the text, but for the whole text without its last line feed.
fn cut_answer(count: usize) -> Option<Status> {
    let cut = CUTS.iter().find(|cut| count <= cut.0)?;
    Some(refused(cut.1, cut.2))
}

/// Whether the first so many bytes are refused as they must be.
fn cut_is_refused(alloc: Global, count: usize) -> Result<bool, AllocError> {
    match (THREE_STEPS.as_bytes().get(..count), cut_answer(count)) {
        (Some(text), Some(status)) => is_refused(alloc, text, status),
        _ => Ok(false),
    }
}

/// The first number of bytes that is answered otherwise.
fn first_cut(alloc: Global, last: usize) -> Result<Option<usize>, AllocError> {
    for count in 0..last {
        if !cut_is_refused(alloc, count)? {
            return Ok(Some(count));
        }
    }
    Ok(None)
}

#[test]
fn cut_behind_each_byte(rt: HostRuntime) -> Result<(), Fail> {
    let last = THREE_STEPS.len() - 1;
    assert_eq!(rt; first_cut(rt.alloc(), last)?, None);
    Ok(())
}

#[test]
fn without_the_last_line_feed(rt: HostRuntime) -> Result<(), Fail> {
    let text = THREE_STEPS.trim_end();
    let ran = run(rt.alloc(), &text_alone(text.as_bytes()))?;
    assert_eq!(rt; ran.status, Status::Done);
    assert!(rt; ran.host.taken(0) == ENDED.as_bytes());
    Ok(())
}

/// The first byte that, where it is zero, is answered otherwise than by code 1 of its line. A line feed counts for the line that it
/// ended.
fn first_zero(alloc: Global) -> Result<Option<usize>, AllocError> {
    let mut text = Vec::from_slice(alloc, THREE_STEPS.as_bytes())?;
    let mut line = 1u32;
    for place in 0..text.len() {
        let byte = text[place];
        text[place] = 0;
        if !is_refused(alloc, text.as_slice(), refused(line, 1))? {
            return Ok(Some(place));
        }
        text[place] = byte;
        if byte == b'\n' {
            line = line.saturating_add(1);
        }
    }
    Ok(None)
}

#[test]
fn each_byte_is_zero(rt: HostRuntime) -> Result<(), Fail> {
    assert_eq!(rt; first_zero(rt.alloc())?, None);
    Ok(())
}
