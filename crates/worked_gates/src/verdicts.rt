//! Verdicts by the rules' words, and a few refusals.

use labels::Label;
use policy::{
    Known, Reply, Rights, Rule, advance_refusal, fetch_refusal, update_refusal, usable, verdict,
};
use rings::{Brackets, Ring};
use std::process::Abort;
use std::test::Fail;
use words_layout::SegId;

fn low() -> Result<Label, Fail> {
    Ok(Label::new(1, 0, 5, 0).ok_or("low")?)
}

fn high() -> Result<Label, Fail> {
    Ok(Label::new(2, 1, 5, 0).ok_or("high")?)
}

fn trusted() -> Result<Label, Fail> {
    Ok(Label::new(1, 0, 9, 0).ok_or("trusted")?)
}

/// Brackets 3 4 4: rings to 3 may write, and to 4 read.
fn brackets() -> Result<Brackets, Fail> {
    Ok(Brackets::new(3, 4, 4).ok_or("in order")?)
}

fn judged(
    rt: &impl Abort,
    subject: &Label,
    ring: u8,
    object: &Label,
    want: Rights,
    answer: Result<(), Rule>,
) -> Result<(), Fail> {
    let ring = Ring::new(ring).ok_or("a ring")?;
    assert_eq!(rt; verdict(subject, ring, object, &brackets()?, want), answer);
    Ok(())
}

#[test]
fn observing(rt: HostRuntime) -> Result<(), Fail> {
    let observe = Rights::wanted(1);
    judged(&rt, &low()?, 3, &high()?, observe, Err(Rule::SecrecyRead))?;
    judged(&rt, &high()?, 3, &low()?, observe, Ok(()))?;
    judged(
        &rt,
        &trusted()?,
        3,
        &low()?,
        observe,
        Err(Rule::IntegrityRead),
    )?;
    Ok(())
}

#[test]
fn modifying(rt: HostRuntime) -> Result<(), Fail> {
    let modify = Rights::wanted(2);
    judged(&rt, &high()?, 3, &low()?, modify, Err(Rule::SecrecyWrite))?;
    judged(&rt, &low()?, 3, &high()?, modify, Ok(()))?;
    judged(
        &rt,
        &low()?,
        3,
        &trusted()?,
        modify,
        Err(Rule::IntegrityWrite),
    )?;
    Ok(())
}

#[test]
fn both_by_ring(rt: HostRuntime) -> Result<(), Fail> {
    let both = Rights::wanted(3);
    judged(&rt, &low()?, 3, &low()?, both, Ok(()))?;
    judged(&rt, &low()?, 4, &low()?, both, Err(Rule::RingWrite))?;
    judged(&rt, &low()?, 5, &low()?, both, Err(Rule::RingRead))?;
    Ok(())
}

#[test]
fn refusals(rt: HostRuntime) -> Result<(), Fail> {
    let known = Known {
        seg: SegId {
            mentor: 0,
            serial: 1,
        },
        class: 0,
        brackets: brackets()?,
        size: 8,
        rights: Rights::given(2),
    };
    let ring = Ring::new(4).ok_or("a ring")?;
    assert!(rt; usable(Some(&known)).is_none());
    assert_eq!(rt; fetch_refusal(ring, &known, 4, 4, 60), None);
    assert_eq!(rt;
        fetch_refusal(ring, &known, u64::MAX, 1, 0),
        Some(Rule::Bounds)
    );
    assert_eq!(rt;
        update_refusal(ring, &known, 0, 0, 0),
        Some(Rule::NotModify)
    );
    assert_eq!(rt; advance_refusal(ring, &known), Some(Rule::RingWrite));
    assert_eq!(rt; Reply::refused(Rule::BadMode), Reply { code: 31, value: 0 });
    Ok(())
}
