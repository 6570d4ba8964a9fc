//! The verdict on an access.

ghost use Rattle.std.specs.Prelude.{◌≡◌, ◌↔◌, [], Some, None, IsOk, MatchResult, if◌then◌else◌};
ghost use Rattle.policy.specs.Known.{observes, modifies};
ghost use Rattle.policy.specs.Verdict.{first_broken, observe_tests, modify_tests, verdict};
ghost use Rattle.policy.specs.Permitted.{IsPermitted};

use crate::rights::Rights;
use crate::rule::Rule;
use labels::Label;
use rings::{Brackets, Ring};

/// The first rule that observing breaks, where observing is wanted: no read up in secrecy, no read down in
/// integrity, and a ring that may read.
fn observing_rule(
    subject: &Label,
    ring: Ring,
    object: &Label,
    brackets: &Brackets,
    want: Rights,
) -> Option<Rule>
    ensures { result ≡ first_broken (if observes want.0 then observe_tests subject.now ring object.now brackets.now else []) }
{
    if !want.observes() {
        return None;
    }
    if !subject.secrecy_dominates(object) {
        return Some(Rule::SecrecyRead);
    }
    if !object.integrity_dominates(subject) {
        return Some(Rule::IntegrityRead);
    }
    if !brackets.may_read(ring) {
        return Some(Rule::RingRead);
    }
    None
}

/// The first rule that modifying breaks, where modifying is wanted: no write down in secrecy, no write up in
/// integrity, and a ring that may write.
fn modifying_rule(
    subject: &Label,
    ring: Ring,
    object: &Label,
    brackets: &Brackets,
    want: Rights,
) -> Option<Rule>
    ensures { result ≡ first_broken (if modifies want.0 then modify_tests subject.now ring object.now brackets.now else []) }
{
    if !want.modifies() {
        return None;
    }
    if !object.secrecy_dominates(subject) {
        return Some(Rule::SecrecyWrite);
    }
    if !subject.integrity_dominates(object) {
        return Some(Rule::IntegrityWrite);
    }
    if !brackets.may_write(ring) {
        return Some(Rule::RingWrite);
    }
    None
}

/// The first rule that what is wanted breaks.
fn judge(
    subject: &Label,
    ring: Ring,
    object: &Label,
    brackets: &Brackets,
    want: Rights,
) -> Result<(), Rule>
    ensures { MatchResult result
        (λ _. verdict subject.now ring object.now brackets.now want.0 ≡ None)
        (λ rule. verdict subject.now ring object.now brackets.now want.0 ≡ Some rule) }
{
    if let Some(rule) = observing_rule(subject, ring, object, brackets, want) {
        return Err(rule);
    }
    match modifying_rule(subject, ring, object, brackets, want) {
        Some(rule) => Err(rule),
        None => Ok(()),
    }
}

/// Whether a subject in a ring may do with an object what is wanted of it: to observe, to modify, or both. The
/// answer is the first broken rule, those of observing before those of modifying, and Ok exactly where the
/// policy permits it.
pub fn verdict(
    subject: &Label,
    ring: Ring,
    object: &Label,
    brackets: &Brackets,
    want: Rights,
) -> Result<(), Rule>
    ensures first { MatchResult result
        (λ _. verdict subject.now ring object.now brackets.now want.0 ≡ None)
        (λ rule. verdict subject.now ring object.now brackets.now want.0 ≡ Some rule) }
    ensures permitted { IsOk result ↔ IsPermitted subject.now ring object.now brackets.now want.0 }
{
    judge(subject, ring, object, brackets, want)
}
