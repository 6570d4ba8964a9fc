//! Addresses and spellings of the layout, and a run of operations.

use std::process::Abort;
use std::test::Fail;
use words_layout::{
    Home, Op, PlainWords, RecordingWords, SegId, WordPort, component_addr, console_addr,
    entry_addr, finished_addr, frame_word_addr, home_addr, pack_home, page_tenant_addr,
    page_word_addr, seg_ticket_addr, serial_addr, unpack_home,
};

/// Words, with the home that each spells.
const HOMES: [(u64, Option<Home>); 7] = [
    (0, Some(Home::Never)),
    (0x0406_0001, Some(Home::Stored { page: 5, size: 4 })),
    (
        0x4020_0502,
        Some(Home::Resident {
            frame: 5,
            page: Some(31),
            size: 64,
        }),
    ),
    (3, Some(Home::Deleted)),
    (4, None),
    (0x0400_0001, None),
    (0x4121_0502, None),
];

fn spells(rt: &impl Abort, word: u64, home: Option<Home>) {
    assert_eq!(rt; unpack_home(word), home);
}

#[test]
fn addresses(rt: HostRuntime) {
    let seg = SegId {
        mentor: 2,
        serial: 3,
    };
    assert_eq!(rt; finished_addr(1).0, 34_871);
    assert_eq!(rt; serial_addr(15).0, 523_039);
    assert_eq!(rt; home_addr(0, seg).0, 1_970);
    assert_eq!(rt; seg_ticket_addr(0, seg).0, 1_975);
    assert_eq!(rt; entry_addr(0, seg, 7).0, 1_984);
    assert_eq!(rt; component_addr(3, 15, seg).0, 138_583);
}

#[test]
fn pool_addresses(rt: HostRuntime) {
    assert_eq!(rt; frame_word_addr(1, 15, 63).0, 51_273);
    assert_eq!(rt; page_tenant_addr(0, 31).0, 18_420);
    assert_eq!(rt; page_word_addr(0, 31, 63).0, 18_484);
}

#[test]
fn homes(rt: HostRuntime) {
    for (word, home) in HOMES {
        spells(&rt, word, home);
    }
}

#[test]
fn a_home_is_packed(rt: HostRuntime) {
    assert_eq!(rt; pack_home(&Home::Never), 0);
    assert_eq!(rt; pack_home(&Home::Stored { page: 5, size: 4 }), 0x0406_0001);
    assert_eq!(rt;
        pack_home(&Home::Resident {
            frame: 5,
            page: Some(31),
            size: 64,
        }),
        0x4020_0502
    );
    assert_eq!(rt; pack_home(&Home::Deleted), 3);
}

#[test]
fn operations_answer_and_are_recorded(rt: HostRuntime) -> Result<(), Fail> {
    let words = PlainWords::new(rt.alloc(), 1)?;
    let mut port = RecordingWords::new(words, Vec::with_capacity(rt.alloc(), 8)?);
    let place = console_addr(0);
    assert_eq!(rt; port.perform(Op::Add(place, u64::MAX)), 0);
    assert_eq!(rt; port.perform(Op::Add(place, 3)), u64::MAX);
    assert_eq!(rt; port.perform(Op::Load(place)), 2);
    assert_eq!(rt; port.perform(Op::Store(place, 9)), 0);
    assert_eq!(rt; port.entries().len(), 4);
    assert_eq!(rt; port.entries()[1], (Op::Add(place, 3), u64::MAX));
    Ok(())
}
