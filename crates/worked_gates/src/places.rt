//! A run over the sixteen places of a known table.

use known_segs::KnownTable;
use policy::{Known, Rights, Rule};
use rings::Brackets;
use std::test::Fail;
use words_layout::SegId;

fn segment(serial: u8) -> Option<Known> {
    Some(Known {
        seg: SegId { mentor: 0, serial },
        class: 0,
        brackets: Brackets::new(4, 4, 4)?,
        size: 1,
        rights: Rights::SIGNAL,
    })
}

#[test]
fn the_least_empty_place_is_filled(rt: HostRuntime) -> Result<(), Fail> {
    let mut table = KnownTable::new(segment(0).ok_or("known")?);
    for serial in 1..16 {
        assert!(rt; !table.is_full());
        assert_eq!(rt; table.put(segment(serial).ok_or("known")?), Ok(serial));
    }
    assert!(rt; table.is_full());
    let more = segment(16).ok_or("known")?;
    assert_eq!(rt; table.put(more), Err(Rule::KstFull));
    assert_eq!(rt; table.get(15).copied(), segment(15));
    assert!(rt; table.get(16).is_none());
    assert_eq!(rt; table.take_out(0), segment(0));
    assert_eq!(rt; table.take_out(7), segment(7));
    assert!(rt; table.take_out(7).is_none());
    assert!(rt; table.take_out(16).is_none());
    assert_eq!(rt; table.put(more), Ok(0));
    assert_eq!(rt; table.put(more), Ok(7));
    assert_eq!(rt; table.get(0).copied(), Some(more));
    Ok(())
}
