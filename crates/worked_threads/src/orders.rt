//! Two processors, of which a pace lets one go first: the report shows that order.

use crate::configurations::TWO_TICKETS;
use crate::paces::Behind;
use crate::runs::{is_so, run_text};
use command_input::Status;
use std::test::Fail;

/// Processor 0 drew the first ticket.
const FIRST_AHEAD: &str =
    "class 0 low\nline 0\nline 1\nprocess 0 0 ended script 0 place 2 ring 4\nregs 0 0 0 0 0 0 0 0 0 0 0 0 0 0 0 0\nprocess 1 0 ended script 0 place 2 ring 4\nregs 0 1 0 0 0 0 0 0 0 0 0 0 0 0 0 0\nclosed\nsegment 0 0 never writes 0 count 0 tickets 2\nclass 1 high\nclosed\n";

/// Processor 1 did.
const SECOND_AHEAD: &str =
    "class 0 low\nline 0\nline 1\nprocess 0 0 ended script 0 place 2 ring 4\nregs 0 1 0 0 0 0 0 0 0 0 0 0 0 0 0 0\nprocess 1 0 ended script 0 place 2 ring 4\nregs 0 0 0 0 0 0 0 0 0 0 0 0 0 0 0 0\nclosed\nsegment 0 0 never writes 0 count 0 tickets 2\nclass 1 high\nclosed\n";

#[test]
fn the_first_one_ahead(rt: HostRuntime) -> Result<(), Fail> {
    let pace = Behind::new(1);
    let found = run_text(&rt, rt.alloc(), TWO_TICKETS, &pace)?;
    assert!(rt; is_so(&found, Status::Done, FIRST_AHEAD));
    assert!(rt; pace.ahead.was_seen());
    Ok(())
}

#[test]
fn the_second_one_ahead(rt: HostRuntime) -> Result<(), Fail> {
    let pace = Behind::new(0);
    let found = run_text(&rt, rt.alloc(), TWO_TICKETS, &pace)?;
    assert!(rt; is_so(&found, Status::Done, SECOND_AHEAD));
    assert!(rt; pace.ahead.was_seen());
    Ok(())
}
