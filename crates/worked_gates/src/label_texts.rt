//! Labels by their text and their bytes, and their bounds.

use labels::{Label, LabelFault};
use std::process::Abort;
use std::test::Fail;

/// Texts that spell a label, with its bytes.
const LABELS: [(&str, [u8; 10]); 3] = [
    ("3{0,5}/15{}", [3, 0, 0, 0, 0x21, 15, 0, 0, 0, 0]),
    ("0{}/0{}", [0, 0, 0, 0, 0, 0, 0, 0, 0, 0]),
    ("15{31}/15{0,1,2}", [15, 0x80, 0, 0, 0, 15, 0, 0, 0, 7]),
];

/// Texts that spell none, with their fault.
const FAULTS: [(&str, LabelFault); 12] = [
    ("16{}/0{}", LabelFault::Level),
    ("0{32}/0{}", LabelFault::Category),
    ("00{}/0{}", LabelFault::Spelling),
    ("", LabelFault::Spelling),
    ("0{}/0{", LabelFault::Spelling),
    ("0{}/0{}/", LabelFault::Spelling),
    ("0{1,}/0{}", LabelFault::Spelling),
    ("0{3,1}/15{}", LabelFault::Category),
    ("0{1,1}/15{}", LabelFault::Category),
    ("99999999999999999999{}/0{99}", LabelFault::Level),
    ("16{01}/0{}", LabelFault::Spelling),
    ("0{18446744073709551616}/0{}", LabelFault::Category),
];

/// Two labels, and the least one that dominates both and the greatest one that both dominate.
const BOUNDS: [(&str, &str, &str, &str); 3] = [
    (
        "3{0,5}/9{1,2}",
        "1{0,7}/12{2,4}",
        "3{0,5,7}/9{2}",
        "1{0}/12{1,2,4}",
    ),
    ("0{}/15{}", "2{1}/4{3}", "2{1}/4{}", "0{}/15{3}"),
    ("7{6}/7{6}", "7{6}/7{6}", "7{6}/7{6}", "7{6}/7{6}"),
];

fn label_of(text: &str) -> Result<Label, Fail> {
    Ok(Label::parse(text).ok().ok_or("a label")?)
}

fn goes_both_ways(rt: &impl Abort, text: &str, bytes: [u8; 10]) -> Result<(), Fail> {
    let label = label_of(text)?;
    assert_eq!(rt; label.to_bytes(), bytes);
    assert_eq!(rt; label.text().as_str(), text);
    assert_eq!(rt; Label::from_bytes(&bytes), Some(label));
    Ok(())
}

fn has_fault(rt: &impl Abort, text: &str, fault: LabelFault) {
    assert_eq!(rt; Label::parse(text), Err(fault), "{text}");
}

fn has_bounds(rt: &impl Abort, one: &Label, other: &Label, join: &Label, meet: &Label) {
    assert_eq!(rt; one.join(other), *join);
    assert_eq!(rt; other.join(one), *join);
    assert_eq!(rt; one.meet(other), *meet);
    assert_eq!(rt; other.meet(one), *meet);
}

#[test]
fn labels_both_ways(rt: HostRuntime) -> Result<(), Fail> {
    for (text, bytes) in LABELS {
        goes_both_ways(&rt, text, bytes)?;
    }
    Ok(())
}

#[test]
fn faults(rt: HostRuntime) {
    for (text, fault) in FAULTS {
        has_fault(&rt, text, fault);
    }
    assert_eq!(rt; Label::from_bytes(&[0, 0, 0, 0, 0, 16, 0, 0, 0, 0]), None);
}

#[test]
fn bounds(rt: HostRuntime) -> Result<(), Fail> {
    for (one, other, join, meet) in BOUNDS {
        has_bounds(
            &rt,
            &label_of(one)?,
            &label_of(other)?,
            &label_of(join)?,
            &label_of(meet)?,
        );
    }
    Ok(())
}
