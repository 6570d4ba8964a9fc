//! Texts, and the fault of each.

use config_text::{Config, ConfigError, Item, Pool, ProcessLine, read_config};
use rings::Ring;
use std::alloc::Global;
use std::test::Fail;

/// The lines before the scripts: nine of them.
const FRONT: &str =
    "gemkernel 1\nclasses 2\nclass low 0{}/15{} frames 16 pages 32 volume 4\nclass high 1{}/15{} frames 0 pages 0 volume 0\nprocessors 2\ncycle 0 1 1\nrounds 4096\nquantum 256\nconsole 4096\n";

/// Two lines, and the front of a class.
const CLASS: &str = "gemkernel 1\nclasses 2\nclass low 0{}/15{} frames 1 pages 1 volume 0\n";

/// A front, a part that is repeated so often, the rest, and the fault's line and code. Zeros: it is read.
type Case = (&'static str, &'static str, usize, &'static str, u32, u8);

const HEADER: [Case; 30] = [
    ("", "", 0, "", 1, 12),
    ("", "", 0, "\n", 2, 12),
    ("", "", 0, "gemkernel 01\n", 1, 2),
    ("", "", 0, "gemkernel 2\n", 1, 2),
    ("", "", 0, "gemkernel 1\r\n", 1, 1),
    (
        "",
        "",
        0,
        "# none\n\tgemkernel\t1 # tabs\nclasses 02\n",
        3,
        3,
    ),
    ("", "", 0, "gemkernel 1\nclasses 0\n", 2, 4),
    ("", "", 0, "gemkernel 1\nclasses 17\n", 2, 4),
    ("", "", 0, "gemkernel 1\nclasses 16\n", 3, 12),
    (
        "",
        "",
        0,
        "gemkernel 1\nclasses 18446744073709551616\n",
        2,
        3,
    ),
    (
        "",
        "",
        0,
        "gemkernel 1\nclasses 18446744073709551615\n",
        2,
        4,
    ),
    ("", "", 0, "gemkernel 1\nclasses 1 1\n", 2, 2),
    (
        CLASS,
        "",
        0,
        "class a 1{}/15{} frames 17 pages 1 volume 0\n",
        4,
        4,
    ),
    (
        CLASS,
        "",
        0,
        "class a 1{}/15{} frames x pages 33 volume 0\n",
        4,
        3,
    ),
    (
        CLASS,
        "",
        0,
        "class a 00{}/15{} frames 1 pages 1 volume 0\n",
        4,
        5,
    ),
    (
        CLASS,
        "",
        0,
        "class a 16{}/15{} frames 1 pages 1 volume 0\n",
        4,
        5,
    ),
    (
        CLASS,
        "",
        0,
        "class A 0{32}/15{} frames 1 pages 1 volume 0\n",
        4,
        5,
    ),
    (
        CLASS,
        "",
        0,
        "class A 1{}/15{} frames 1 pages 1 volume 0\n",
        4,
        6,
    ),
    (
        CLASS,
        "",
        0,
        "class low 1{}/15{} frames 1 pages 1 volume 0\n",
        4,
        7,
    ),
    (
        CLASS,
        "",
        0,
        "class a 0{}/15{} frames 1 pages 1 volume 0\n",
        4,
        7,
    ),
    (
        CLASS,
        "",
        0,
        "class a 0{}/15{1} frames 1 pages 1 volume 5\n",
        4,
        4,
    ),
    (
        CLASS,
        "",
        0,
        "class a 0{}/15{1} frames 1 pages 1 volume 0\n",
        4,
        8,
    ),
    (
        CLASS,
        "class a 1{}/15{} frames 1 pages 1 volume 0\n",
        1,
        "processors 5\n",
        5,
        4,
    ),
    (
        CLASS,
        "class a 1{}/15{} frames 1 pages 1 volume 0\n",
        1,
        "processors 4\ncycle\n",
        6,
        2,
    ),
    (
        CLASS,
        "class a 1{}/15{} frames 1 pages 1 volume 0\n",
        1,
        "processors 4\ncycle 0 2\n",
        6,
        4,
    ),
    (
        CLASS,
        "class a 1{}/15{} frames 1 pages 1 volume 0\n",
        1,
        "processors 4\ncycle 0 2 x\n",
        6,
        3,
    ),
    (
        CLASS,
        "class a 1{}/15{} frames 1 pages 1 volume 0\n",
        1,
        "processors 4\ncycle 0 0 0 0 0 0 0 0 0 0 0 0 0 0 0 0 0\n",
        6,
        2,
    ),
    (
        CLASS,
        "class a 1{}/15{} frames 1 pages 1 volume 0\n",
        1,
        "processors 4\ncycle 0\nrounds 4097\n",
        7,
        4,
    ),
    (
        CLASS,
        "class a 1{}/15{} frames 1 pages 1 volume 0\n",
        1,
        "processors 4\ncycle 0\nrounds 1\nquantum 257\n",
        8,
        4,
    ),
    (
        CLASS,
        "class a 1{}/15{} frames 1 pages 1 volume 0\n",
        1,
        "processors 4\ncycle 0\nrounds 1\nquantum 1\nconsole 4097\n",
        9,
        4,
    ),
];

const BODY: [Case; 38] = [
    (FRONT, "", 0, "", 10, 12),
    (FRONT, "", 0, "end", 0, 0),
    (FRONT, "", 0, "\nend # so\n\n", 0, 0),
    (FRONT, "", 0, "end\nend\n", 11, 2),
    (FRONT, "", 0, "rounds 1\n", 10, 2),
    (FRONT, "script 0\nhalt\nend\n", 32, "end\n", 0, 0),
    (FRONT, "script 0\nhalt\nend\n", 32, "script 0\n", 106, 11),
    (FRONT, "script 0\nhalt\nend\n", 32, "script 2\n", 106, 4),
    (FRONT, "script 0\nhalt\nend\n", 32, "script 02\n", 106, 3),
    (FRONT, "script 0\nhalt\nend\n", 1, "gate 0 1 0 0 0\n", 13, 4),
    (FRONT, "script 0\nhalt\nend\n", 1, "gate 0 0 3 2 7\n", 13, 4),
    (FRONT, "script 0\nhalt\nend\n", 1, "gate 0 0 0 0 8\n", 13, 4),
    (FRONT, "script 1\nhalt\nend\n", 1, "gate 0 0 0 0 7\n", 13, 9),
    (
        FRONT,
        "script 1\nhalt\nend\n",
        1,
        "gate 1 0 0 0 7\nend\n",
        0,
        0,
    ),
    (
        FRONT,
        "script 1\nhalt\nend\n",
        1,
        "process 0 0 0 4\n",
        13,
        9,
    ),
    (
        FRONT,
        "script 0\nhalt\nend\n",
        1,
        "process 0 0 0 8\n",
        13,
        4,
    ),
    (
        FRONT,
        "script 0\nhalt\nend\n",
        1,
        "process 2 0 0 7\n",
        13,
        4,
    ),
    (
        FRONT,
        "script 0\nhalt\nend\n",
        1,
        "process 0 0 0 4\ngate 0 0 0 0 0\n",
        14,
        2,
    ),
    (FRONT, "", 0, "mix 18446744073709551616 1\n", 10, 3),
    (
        FRONT,
        "",
        0,
        "mix 18446744073709551615 4194304\nend\n",
        0,
        0,
    ),
    (FRONT, "", 0, "mix 0 4194304\nmix 0 1\n", 11, 11),
    (FRONT, "", 0, "mix 0 4194305\n", 10, 4),
    (FRONT, "", 0, "sweep 8192\nend\n", 0, 0),
    (FRONT, "", 0, "sweep 8193\n", 10, 11),
    (FRONT, "", 0, "sweep 4194305\n", 10, 4),
    (FRONT, "", 0, "events\n", 10, 2),
    (FRONT, "", 0, "events 0.0*3 1.1*4194301\nend\n", 0, 0),
    (FRONT, "", 0, "events 0.0*3 1.1*4194302\n", 10, 11),
    (FRONT, "", 0, "events 0.0*0\n", 10, 4),
    (FRONT, "", 0, "events 2.0*1\n", 10, 4),
    (FRONT, "", 0, "events 0.2*1\n", 10, 4),
    (FRONT, "", 0, "events 0.0*1 0.0.0*3\n", 10, 2),
    (FRONT, "", 0, "events 0.0*3*3\n", 10, 2),
    (FRONT, "", 0, "events 0*1.0*3\n", 10, 3),
    (FRONT, "", 0, "events .0*3\n", 10, 3),
    (FRONT, "", 0, "events 0.0*\n", 10, 3),
    (FRONT, "", 0, "sweep 1\nprocess 0 0 0 4\n", 11, 2),
    (FRONT, "", 0, "sweep 1 \u{7f}\n", 10, 1),
];

const SCRIPTS: [Case; 21] = [
    (FRONT, "", 0, "script 0\n", 11, 12),
    (FRONT, "", 0, "script 0\nhalt\n", 12, 12),
    (FRONT, "", 0, "script 0\nend\n", 11, 28),
    (FRONT, "", 0, "script 0\nret\nend\n", 12, 28),
    (FRONT, "", 0, "script 0\nhalt\nend # \u{1}\n", 12, 1),
    (FRONT, "", 0, "script 0\nhalt # \u{1}\nend\n", 11, 1),
    (FRONT, "", 0, "script 0\nhalt\nend\r\n", 12, 1),
    (FRONT, "", 0, "script 0\ngate 0 0 0 0 0\n", 11, 21),
    (FRONT, "", 0, "script 0\nhalt 1\n", 11, 22),
    (
        FRONT,
        "",
        0,
        "script 0\nset r1 18446744073709551616\n",
        11,
        23,
    ),
    (
        FRONT,
        "",
        0,
        "script 0\nset r1 0xFFFFFFFFFFFFFFFF\nhalt\nend\nend\n",
        0,
        0,
    ),
    (FRONT, "", 0, "script 0\ncopy r1 r16\n", 11, 24),
    (FRONT, "", 0, "script 0\n@a\n@a\nhalt\nend\n", 12, 25),
    (FRONT, "", 0, "script 0\njump @b\nend\n", 11, 26),
    (FRONT, "", 0, "script 0\njump 1\nhalt\nend\nend\n", 0, 0),
    (FRONT, "", 0, "script 0\njump 1\nend\n", 11, 29),
    (FRONT, "", 0, "script 0\njump @a\nfoo\n@a\nend\n", 11, 29),
    (FRONT, "", 0, "script 0\njump @a\nend\n@a\n", 11, 26),
    (
        FRONT,
        "",
        0,
        "script 0\n@a\nhalt\nend\nscript 1\n@a\njump @a\nend\nend\n",
        0,
        0,
    ),
    (
        "gemkernel 1\nclasses 1\nclass a 0{}/15{} frames 1 pages 1 volume 0\nprocessors 1\ncycle 0\nrounds 1\nquantum 1\nconsole 0\nscript 0\n",
        "ret\n",
        255,
        "halt\nend\nend\n",
        0,
        0,
    ),
    (
        "gemkernel 1\nclasses 1\nclass a 0{}/15{} frames 1 pages 1 volume 0\nprocessors 1\ncycle 0\nrounds 1\nquantum 1\nconsole 0\nscript 0\n",
        "ret\n",
        256,
        "halt\nend\nend\n",
        266,
        27,
    ),
];

/// The line and the code of the fault. Zeros where the text is read.
fn fault_of(alloc: Global, case: Case) -> Result<(u32, u8), Fail> {
    let (front, unit, count, back, _, _) = case;
    let mut text = Vec::new(alloc);
    text.extend_from_slice(front.as_bytes())?;
    for _ in 0..count {
        text.extend_from_slice(unit.as_bytes())?;
    }
    text.extend_from_slice(back.as_bytes())?;
    if text.len() > 1_048_576 {
        return Err("long")?;
    }
    match read_config(alloc, text.as_slice()) {
        Ok(_) => Ok((0, 0)),
        Err(ConfigError::Fault { line, code }) => Ok((line, code)),
        Err(ConfigError::NoMemory) => Err("memory")?,
    }
}

#[test]
fn faults_of_the_header(rt: HostRuntime) -> Result<(), Fail> {
    for case in HEADER {
        assert_eq!(rt; fault_of(rt.alloc(), case)?, (case.4, case.5), "{}", case.3);
    }
    Ok(())
}

#[test]
fn faults_behind_it(rt: HostRuntime) -> Result<(), Fail> {
    for case in BODY {
        assert_eq!(rt; fault_of(rt.alloc(), case)?, (case.4, case.5), "{}", case.3);
    }
    Ok(())
}

#[test]
fn faults_of_scripts(rt: HostRuntime) -> Result<(), Fail> {
    for case in SCRIPTS {
        assert_eq!(rt; fault_of(rt.alloc(), case)?, (case.4, case.5), "{}", case.3);
    }
    Ok(())
}

/// The lines of a configuration up to its schedule; a call, so that the proof of `read` needs none of them.
fn up_to_the_schedule() -> &'static str {
    "gemkernel 1\nclasses 2\nclass low 0{}/15{} frames 2 pages 3 volume 0\nclass high 1{2}/15{} frames 2 pages 2 volume 0\nprocessors 1\ncycle 1 0\nrounds 7\nquantum 9\nconsole 100\nscript 0 # one\nset r2 0x5\n@end\nhalt\nend\nprocess 0 1 0 4\n"
}

/// The configuration of both parts.
fn read(alloc: Global, back: &str) -> Result<Config, Fail> {
    let mut text = Vec::new(alloc);
    text.extend_from_slice(up_to_the_schedule().as_bytes())?;
    text.extend_from_slice(back.as_bytes())?;
    if text.len() > 1_048_576 {
        return Err("long")?;
    }
    match read_config(alloc, text.as_slice()) {
        Ok(config) => Ok(config),
        Err(_) => Err("refused")?,
    }
}

#[test]
fn a_configuration(rt: HostRuntime) -> Result<(), Fail> {
    let config = read(rt.alloc(), "events 0.1*3 0.0*4\nmix 5 6\nsweep 2\nend")?;
    assert_eq!(rt; config.table.count(), 2);
    assert_eq!(rt; config.processors, 1);
    assert_eq!(rt; config.cycle.as_slice(), [1, 0].as_slice());
    assert_eq!(rt;
        (config.rounds, config.quantum, config.console),
        (7, 9, 100)
    );
    let pools = [(2, 3), (2, 2)].map(|(frames, pages)| Pool {
        frames,
        pages,
        volume: 0,
    });
    assert_eq!(rt; config.pools.as_slice(), pools.as_slice());
    let process = ProcessLine {
        processor: 0,
        class: 1,
        script: 0,
        ring: Ring(4),
    };
    assert_eq!(rt; config.processes.as_slice(), [process].as_slice());
    let events = |class, count| Item::Events {
        processor: 0,
        class,
        count,
    };
    let items = [
        events(1, 3),
        events(0, 4),
        Item::Mix { start: 5, count: 6 },
        Item::Sweep { rounds: 2 },
    ];
    assert_eq!(rt; config.schedule.as_slice(), items.as_slice());
    assert_eq!(rt; config.scripts.len(), 1);
    Ok(())
}
