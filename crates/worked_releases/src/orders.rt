//! Texts of release orders, and the fault of each.

use release_guard::{Order, OrderError, Release, read_order};
use std::alloc::Global;
use std::test::Fail;
use words_layout::SegId;

/// The four lines before the releases.
const FRONT: &str = "gemrelease 1\nclasses 2\nclass low 0{}/15{}\nclass high 1{}/15{}\n";

/// A front, a part that is repeated so often, the rest, and the fault's line and code. Zeros: it is read.
type Case = (&'static str, &'static str, usize, &'static str, u32, u8);

const HEADER: [Case; 15] = [
    ("", "", 0, "", 1, 12),
    ("", "", 0, "\n", 2, 12),
    ("", "", 0, "gemrelease 01\n", 1, 2),
    ("", "", 0, "gemkernel 1\n", 1, 2),
    ("", "", 0, "gemrelease 1\r\n", 1, 1),
    (
        "",
        "",
        0,
        "# none\n\tgemrelease\t1 # tabs\nclasses 02\n",
        3,
        3,
    ),
    ("", "", 0, "gemrelease 1\nclasses 0\n", 2, 4),
    ("", "", 0, "gemrelease 1\nclasses 17\n", 2, 4),
    (
        "",
        "",
        0,
        "gemrelease 1\nclasses 1\nclass low 16{}/15{}\n",
        3,
        5,
    ),
    (
        "",
        "",
        0,
        "gemrelease 1\nclasses 1\nclass Low 0{}/15{}\n",
        3,
        6,
    ),
    (
        "",
        "",
        0,
        "gemrelease 1\nclasses 2\nclass low 0{}/15{}\nclass low 1{}/15{}\n",
        4,
        7,
    ),
    (
        "",
        "",
        0,
        "gemrelease 1\nclasses 2\nclass low 1{}/15{}\nclass high 0{}/15{}\n",
        4,
        8,
    ),
    (
        "",
        "",
        0,
        "gemrelease 1\nclasses 2\nclass low 0{}/15{}\nexport 0\n",
        4,
        2,
    ),
    (FRONT, "", 0, "", 5, 12),
    (FRONT, "", 0, "end\n", 5, 2),
];

const BODY: [Case; 15] = [
    (FRONT, "", 0, "release 0 1 to 0 2\nexport 0\nend\n", 0, 0),
    (
        FRONT,
        "",
        0,
        "\n# none\nexport 1 # high\n\nend # last\n\n",
        0,
        0,
    ),
    (FRONT, "", 0, "release 0 1 at 0 2\n", 5, 2),
    (FRONT, "", 0, "release 0 1 to 0\n", 5, 2),
    (FRONT, "", 0, "release 2 1 to 0 02\n", 5, 3),
    (FRONT, "", 0, "release 2 1 to 0 2\n", 5, 4),
    (FRONT, "", 0, "release 1 63 to 0 64\n", 5, 4),
    (FRONT, "release 0 1 to 0 2\n", 64, "export 0\nend\n", 0, 0),
    (FRONT, "release 0 1 to 0 2\n", 65, "export 0\nend\n", 69, 11),
    (
        FRONT,
        "release 0 1 to 0 2\n",
        64,
        "release 0 1 to 2 2\n",
        69,
        4,
    ),
    (FRONT, "", 0, "export 2\n", 5, 4),
    (FRONT, "", 0, "export x\n", 5, 3),
    (FRONT, "", 0, "export 0\nrelease 0 1 to 0 2\n", 6, 2),
    (FRONT, "", 0, "export 0\n", 6, 12),
    (FRONT, "", 0, "export 0\nend\nend\n", 7, 2),
];

/// The line and the code of the fault. Zeros where the text is read.
fn fault_of(alloc: Global, case: Case) -> Result<(u32, u8), Fail> {
    let (front, unit, count, back, _, _) = case;
    let mut text = Vec::new(alloc);
    text.extend_from_slice(front.as_bytes())?;
    for _ in 0..count {
        text.extend_from_slice(unit.as_bytes())?;
    }
    text.extend_from_slice(back.as_bytes())?;
    if text.len() > 1_048_576 {
        return Err("long")?;
    }
    match read_order(alloc, text.as_slice()) {
        Ok(_) => Ok((0, 0)),
        Err(OrderError::Fault { line, code }) => Ok((line, code)),
        Err(OrderError::NoMemory) => Err("memory")?,
    }
}

#[test]
fn faults_of_the_header(rt: HostRuntime) -> Result<(), Fail> {
    for case in HEADER {
        assert_eq!(rt; fault_of(rt.alloc(), case)?, (case.4, case.5), "{}", case.3);
    }
    Ok(())
}

#[test]
fn faults_behind_it(rt: HostRuntime) -> Result<(), Fail> {
    for case in BODY {
        assert_eq!(rt; fault_of(rt.alloc(), case)?, (case.4, case.5), "{}", case.3);
    }
    Ok(())
}

/// A release behind a blank line and a comment, at line 3 of them.
fn sparse() -> &'static [u8] {
    b"gemrelease 1\nclasses 1\nclass low 0{}/15{}\n\n# words of one\nrelease 0 7 to 0 63\nexport 0\nend\n"
}

fn read(alloc: Global, text: &[u8]) -> Result<Order, Fail> {
    if text.len() > 1_048_576 {
        return Err("long")?;
    }
    match read_order(alloc, text) {
        Ok(order) => Ok(order),
        Err(OrderError::Fault { line: _, code: _ }) => Err("fault")?,
        Err(OrderError::NoMemory) => Err("memory")?,
    }
}

#[test]
fn an_order(rt: HostRuntime) -> Result<(), Fail> {
    let order = read(rt.alloc(), sparse())?;
    let wanted = Release {
        line: 6,
        from: SegId {
            mentor: 0,
            serial: 7,
        },
        to: SegId {
            mentor: 0,
            serial: 63,
        },
    };
    assert_eq!(rt; order.releases.as_slice(), [wanted].as_slice());
    assert_eq!(rt; order.export, 0);
    assert_eq!(rt; order.table.count(), 1);
    Ok(())
}
