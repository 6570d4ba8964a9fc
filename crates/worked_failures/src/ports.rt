//! What ports have left behind a run, a volume that says it has the most records, and four volumes.

ghost use Rattle.std.specs.Prelude.{◌<◌};

use crate::inputs::{EMPTY_VOLUME, READ_ACROSS};
use crate::runs::{Given, Ran, run, text_alone, with_volume};
use command_input::{Refusal, Status};
use host_ports::{Failed, pull_whole};
use std::alloc::{AllocError, Global};
use std::test::Fail;

/// The most bytes of a configuration.
const TEXT_LIMIT: usize = 1_048_576;

/// A volume of the two classes in format 2 that ends behind its number of records, 65,535.
const MOST_RECORDS: [u8; 40] = [
    71, 69, 77, 86, 79, 76, 2, 0, 2, 3, 108, 111, 119, 0, 0, 0, 0, 0, 15, 0, 0, 0, 0, 4, 104, 105,
    103, 104, 1, 0, 0, 0, 0, 15, 0, 0, 0, 0, 255, 255,
];

/// Four classes, each with a volume of its own.
const FOUR_CLASSES: &str =
    "gemkernel 1\nclasses 4\nclass a 0{}/15{} frames 0 pages 0 volume 1\nclass b 1{}/15{} frames 0 pages 0 volume 2\nclass c 2{}/15{} frames 0 pages 0 volume 3\nclass d 3{}/15{} frames 0 pages 0 volume 4\nprocessors 1\ncycle 0\nrounds 1\nquantum 1\nconsole 0\nend\n";

/// Their report.
const FOUR_SECTIONS: &str =
    "class 0 a\nclosed\nclass 1 b\nclosed\nclass 2 c\nclosed\nclass 3 d\nclosed\n";

/// A volume of the four classes without records, in format 2.
const OF_FOUR: [u8; 59] = [
    71, 69, 77, 86, 79, 76, 2, 0, 4, 1, 97, 0, 0, 0, 0, 0, 15, 0, 0, 0, 0, 1, 98, 1, 0, 0, 0, 0,
    15, 0, 0, 0, 0, 1, 99, 2, 0, 0, 0, 0, 15, 0, 0, 0, 0, 1, 100, 3, 0, 0, 0, 0, 15, 0, 0, 0, 0, 0,
    0,
];

/// How many of at most 64 bytes a port still gives.
fn left_at(ran: &mut Ran, port: u8) -> Result<usize, Failed>
    requires { port < 5 }
{
    let mut buf = [0u8; 64];
    pull_whole(&mut ran.host, port, &mut buf)
}

/// The run of so many blanks.
fn blanks(alloc: Global, count: usize) -> Result<Ran, AllocError> {
    let text = vec![in alloc; b' '; count]?;
    run(alloc, &text_alone(text.as_slice()))
}

#[test]
fn a_text_too_long_has_the_rest_left(rt: HostRuntime) -> Result<(), Fail> {
    let mut ran = blanks(rt.alloc(), TEXT_LIMIT + 6)?;
    assert_eq!(rt; ran.status, Status::Refused(Refusal::TooLong { port: 0 }));
    assert_eq!(rt; left_at(&mut ran, 0), Ok(5));
    Ok(())
}

#[test]
fn a_refused_text_leaves_the_volume_unread(rt: HostRuntime) -> Result<(), Fail> {
    let text = READ_ACROSS.trim_start_matches("gemkernel");
    let mut ran = run(rt.alloc(), &with_volume(text.as_bytes(), &EMPTY_VOLUME))?;
    assert_eq!(rt;
        ran.status,
        Status::Refused(Refusal::Config { line: 1, code: 2 })
    );
    assert_eq!(rt; left_at(&mut ran, 0), Ok(0));
    assert_eq!(rt; left_at(&mut ran, 1), Ok(EMPTY_VOLUME.len()));
    Ok(())
}

#[test]
fn the_most_records(rt: HostRuntime) -> Result<(), Fail> {
    let mut ran = run(
        rt.alloc(),
        &with_volume(READ_ACROSS.as_bytes(), &MOST_RECORDS),
    )?;
    let refusal = Refusal::Volume {
        port: 1,
        offset: 40,
        code: 1,
    };
    assert_eq!(rt; ran.status, Status::Refused(refusal));
    assert_eq!(rt; left_at(&mut ran, 1), Ok(0));
    Ok(())
}

#[test]
fn four_volumes(rt: HostRuntime) -> Result<(), Fail> {
    let given = Given {
        volumes: [&OF_FOUR, &OF_FOUR, &OF_FOUR, &OF_FOUR],
        ..text_alone(FOUR_CLASSES.as_bytes())
    };
    let ran = run(rt.alloc(), &given)?;
    assert_eq!(rt; ran.status, Status::Done);
    assert!(rt; ran.host.taken(0) == FOUR_SECTIONS.as_bytes());
    for port in 1..=4u8 {
        assert!(rt; ran.host.taken(port) == OF_FOUR.as_slice(), "port {port}");
    }
    Ok(())
}
