//! The first events of a draw and of two sweeps, worked out by hand.

use crate::drawing::mix;
use crate::sweeping::sweep;
use std::test::Fail;

/// Three processors and five classes, drawn behind 7; then two processors, a cycle of three and a quantum of 2: two rounds,
/// and one more where these ended.
const EVENTS: [(u8, u8); 16] = [
    (2, 3),
    (2, 0),
    (0, 3),
    (2, 4),
    (0, 0),
    (0, 1),
    (1, 0),
    (1, 1),
    (0, 0),
    (0, 0),
    (1, 0),
    (1, 0),
    (0, 1),
    (0, 0),
    (1, 1),
    (1, 0),
];

#[test]
fn worked_events(rt: HostRuntime) -> Result<(), Fail> {
    let mut events = Vec::new(rt.alloc());
    mix(&mut events, 3, 5, 7, 4)?;
    sweep(&mut events, 2, 2, &[0, 1, 0], 0, 2)?;
    sweep(&mut events, 2, 2, &[0, 1, 0], 4, 1)?;
    assert_eq!(rt; events.len(), EVENTS.len());
    for (event, (processor, class)) in events.iter().zip(EVENTS) {
        assert_eq!(rt; event.processor, processor);
        assert_eq!(rt; event.class, class);
    }
    Ok(())
}
