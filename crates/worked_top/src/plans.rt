//! The plans of the words, and each kind of fault with another behind it that is tried later.

use command_words::{Plan, PlanError, plan};
use std::test::Fail;

const PLANS: [(&[&str], Plan); 14] = [
    (&["sim"], Plan::Sim),
    (&["run"], Plan::Run),
    (&["show"], Plan::Show),
    (&["view", "0"], Plan::View { class: 0 }),
    (&["view", "15"], Plan::View { class: 15 }),
    (&["large", "0"], Plan::Large { number: 0 }),
    (&["large", "7"], Plan::Large { number: 7 }),
    (
        &["large", "18446744073709551615"],
        Plan::Large {
            number: 18_446_744_073_709_551_615,
        },
    ),
    (&["audit", "1"], Plan::Audit { class: 1 }),
    (&["audit", "15"], Plan::Audit { class: 15 }),
    (&["guard"], Plan::Guard),
    (&["save"], Plan::Save),
    (&["restore"], Plan::Restore),
    (&["view", "5"], Plan::View { class: 5 }),
];

const FAULTS: [(&[&str], u8); 24] = [
    (&["--sim"], 1),
    (&["--help"], 1),
    (&["--version"], 1),
    (&["go", "-"], 1),
    (&["view", "-1"], 1),
    (&["sim", "x", "-v"], 1),
    (&[], 2),
    (&["go"], 3),
    (&["Sim"], 3),
    (&["", "sim"], 3),
    (&["views", "1", "2"], 3),
    (&["view"], 4),
    (&["large"], 4),
    (&["audit"], 4),
    (&["view", "01"], 5),
    (&["view", "16"], 5),
    (&["view", ""], 5),
    (&["view", "01", "x"], 5),
    (&["audit", "+1"], 5),
    (&["large", "18446744073709551616"], 5),
    (&["large", "0x7", "1"], 5),
    (&["sim", "x"], 6),
    (&["run", "x"], 6),
    (&["view", "1", "2"], 6),
];

/// The first row of the plans that comes otherwise.
fn first_wrong_plan(rows: &[(&[&str], Plan)]) -> Option<usize> {
    rows.iter().position(|row| plan(row.0) != Ok(row.1))
}

/// The first row of the faults that comes otherwise.
fn first_wrong_fault(rows: &[(&[&str], u8)]) -> Option<usize> {
    rows.iter()
        .position(|row| plan(row.0) != Err(PlanError::Fault { kind: row.1 }))
}

#[test]
fn accepted_words_have_their_plan(rt: HostRuntime) -> Result<(), Fail> {
    assert_eq!(rt; first_wrong_plan(&PLANS), None);
    Ok(())
}

#[test]
fn other_words_have_their_kind(rt: HostRuntime) -> Result<(), Fail> {
    assert_eq!(rt; first_wrong_fault(&FAULTS), None);
    Ok(())
}
