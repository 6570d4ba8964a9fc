//! Brackets 2 4 6 against every kind of ring.

use rings::{Brackets, Ring};
use std::process::Abort;
use std::test::Fail;

/// A ring, whether it may read and write, and the ring in which a call goes on.
const ROWS: [(u8, bool, bool, Option<u8>); 7] = [
    (0, true, true, None),
    (2, true, true, Some(2)),
    (3, true, false, Some(3)),
    (4, true, false, Some(4)),
    (5, false, false, Some(4)),
    (6, false, false, Some(4)),
    (7, false, false, None),
];

fn permits(
    rt: &impl Abort,
    brackets: &Brackets,
    ring: Ring,
    reads: bool,
    writes: bool,
    goes_on: Option<u8>,
) {
    assert_eq!(rt; brackets.may_read(ring), reads);
    assert_eq!(rt; brackets.may_write(ring), writes);
    assert_eq!(rt; brackets.call_ring(ring).map(|ring| ring.number()), goes_on);
}

#[test]
fn brackets_2_4_6(rt: HostRuntime) -> Result<(), Fail> {
    let brackets = Brackets::new(2, 4, 6).ok_or("in order")?;
    for (number, reads, writes, goes_on) in ROWS {
        let ring = Ring::new(number).ok_or("a ring")?;
        permits(&rt, &brackets, ring, reads, writes, goes_on);
    }
    Ok(())
}

#[test]
fn what_is_none(rt: HostRuntime) {
    assert_eq!(rt; Ring::new(8), None);
    assert_eq!(rt; Brackets::new(2, 1, 6), None);
    assert_eq!(rt; Brackets::new(2, 4, 8), None);
}
