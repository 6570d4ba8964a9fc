//! The private tests of the gates, one call for each gate: the first rule that the caller's ring, the known
//! segment, the operands and the class table break, in the order of the instruction's refusals, or None.

ghost use Rattle.std.specs.Prelude.{◌≡◌, ◌+◌, ◌<◌, ◌≤◌, ◌↔◌, ◌==◌, ◌||◌, [], ◌∷◌, true, not, nat_lt, length, IsSome, IfSome};
ghost use Rattle.rings.specs.Brackets.{in_order};
ghost use Rattle.policy.specs.Verdict.{◌⇒◌, first_broken};
ghost use Rattle.policy.specs.Private.{entry_test, bounds_test, brackets_of, read_tests, change_tests, make_known_tests, create_tests, delete_tests, swap_in_tests, swap_out_tests, fetch_tests, update_tests, advance_tests, ticket_tests};

use crate::known::Known;
use crate::rule::Rule;
use labels::ClassTable;
use rings::{Brackets, Ring};
use words_layout::{ENTRY_COUNT, SIZE_LIMIT};

/// Whether `count` more from `start` on go past the end; the sum isn't wrapped.
fn goes_past(start: u64, count: u64, end: u64) -> bool
    ensures { result ≡ nat_lt end (start + count) }
{
    match start.checked_add(count) {
        None => true,
        Some(last) => end < last,
    }
}

/// Whether the words aren't within the segment and the pad: none or more than 64 of them, or some past an end.
fn out_of_bounds(known: &Known, offset: u64, count: u64, pad: u64) -> bool
    ensures { result ≡ (count == 0 || nat_lt 64 count || nat_lt known.now.size (offset + count) || nat_lt 64 (pad + count)) }
{
    count == 0
        || count > SIZE_LIMIT as u64
        || goes_past(offset, count, known.size as u64)
        || goes_past(pad, count, SIZE_LIMIT as u64)
}

/// The brackets of a number, `64 r1 + 8 r2 + r3`. None exactly where it is above 511 or they aren't in order.
pub fn brackets_from(number: u64) -> Option<Brackets>
    ensures some { IsSome result ↔ ((number ≤ 511) × (in_order (brackets_of number) ≡ true)) }
    ensures value { IfSome result (λ b. b ≡ brackets_of number) }
{
    if number > 511 {
        return None;
    }
    Brackets::new(
        (number / 64) as u8,
        (number / 8 % 8) as u8,
        (number % 8) as u8,
    )
}

/// The brackets of a number that is at most 511 and has them in order.
pub fn brackets_of(number: u64) -> Brackets
    requires limit { number ≤ 511 }
    requires ordered { in_order (brackets_of number) ≡ true }
    ensures { result ≡ brackets_of number }
{
    Brackets {
        r1: (number / 64) as u8,
        r2: (number / 8 % 8) as u8,
        r3: (number % 8) as u8,
    }
}

/// Before reading, as `read` and `await` do.
pub fn read_refusal(ring: Ring, known: &Known) -> Option<Rule>
    ensures { result ≡ first_broken (read_tests ring known.now) }
{
    if !known.brackets.may_read(ring) {
        return Some(Rule::RingRead);
    }
    None
}

/// Before changing: the right to modify, and a ring that may write.
fn change_refusal(ring: Ring, known: &Known) -> Option<Rule>
    ensures { result ≡ first_broken (change_tests ring known.now []) }
{
    if !known.rights.modifies() {
        return Some(Rule::NotModify);
    }
    if !known.brackets.may_write(ring) {
        return Some(Rule::RingWrite);
    }
    None
}

/// Of `makeknown`. `full` says that the known table has no empty place.
pub fn make_known_refusal(
    ring: Ring,
    known: &Known,
    entry: u64,
    mode: u64,
    full: bool,
) -> Option<Rule>
    ensures { result ≡ first_broken (make_known_tests ring entry mode full known.now) }
{
    if !known.brackets.may_read(ring) {
        return Some(Rule::RingRead);
    }
    if entry >= ENTRY_COUNT as u64 {
        return Some(Rule::BadEntry);
    }
    if !(mode == 1 || mode == 2 || mode == 3) {
        return Some(Rule::BadMode);
    }
    if full {
        return Some(Rule::KstFull);
    }
    None
}

/// Of `create`: in entry `entry` a segment of class `class`, with brackets and size by their numbers.
pub fn create_refusal(
    table: &ClassTable,
    ring: Ring,
    known: &Known,
    entry: u64,
    class: u64,
    brackets: u64,
    size: u64,
) -> Option<Rule>
    requires { known.now.class < length table.now }
    ensures { result ≡ first_broken (create_tests table.now ring entry class brackets size known.now) }
{
    if let Some(rule) = change_refusal(ring, known) {
        return Some(rule);
    }
    if entry >= ENTRY_COUNT as u64 {
        return Some(Rule::BadEntry);
    }
    if class >= table.count() as u64 {
        return Some(Rule::BadClass);
    }
    if !table.below(known.class, class as u8) {
        return Some(Rule::Compat);
    }
    if brackets_from(brackets).is_none() {
        return Some(Rule::BadBrackets);
    }
    if size == 0 || size > SIZE_LIMIT as u64 {
        return Some(Rule::BadSize);
    }
    None
}

/// Of `delete`.
pub fn delete_refusal(ring: Ring, known: &Known, entry: u64) -> Option<Rule>
    ensures { result ≡ first_broken (delete_tests ring entry known.now) }
{
    if let Some(rule) = change_refusal(ring, known) {
        return Some(rule);
    }
    if entry >= ENTRY_COUNT as u64 {
        return Some(Rule::BadEntry);
    }
    None
}

/// Of `swapin`.
pub fn swap_in_refusal(ring: Ring, known: &Known) -> Option<Rule>
    ensures { result ≡ first_broken (swap_in_tests ring known.now) }
{
    if let Some(rule) = change_refusal(ring, known) {
        return Some(rule);
    }
    if known.size == 0 {
        return Some(Rule::BadSize);
    }
    None
}

/// Of `swapout`.
pub fn swap_out_refusal(ring: Ring, known: &Known) -> Option<Rule>
    ensures { result ≡ first_broken (swap_out_tests ring known.now) }
{
    change_refusal(ring, known)
}

/// Of `fetch`: `count` words from `offset` on into the pad from `pad` on.
pub fn fetch_refusal(ring: Ring, known: &Known, offset: u64, count: u64, pad: u64) -> Option<Rule>
    ensures { result ≡ first_broken (fetch_tests ring offset count pad known.now) }
{
    if !known.brackets.may_read(ring) {
        return Some(Rule::RingRead);
    }
    if out_of_bounds(known, offset, count, pad) {
        return Some(Rule::Bounds);
    }
    None
}

/// Of `update`: `count` words of the pad from `pad` on into the words from `offset` on.
pub fn update_refusal(ring: Ring, known: &Known, offset: u64, count: u64, pad: u64) -> Option<Rule>
    ensures { result ≡ first_broken (update_tests ring offset count pad known.now) }
{
    if let Some(rule) = change_refusal(ring, known) {
        return Some(rule);
    }
    if out_of_bounds(known, offset, count, pad) {
        return Some(Rule::Bounds);
    }
    None
}

/// Of `advance`: to signal is enough.
pub fn advance_refusal(ring: Ring, known: &Known) -> Option<Rule>
    ensures { result ≡ first_broken (advance_tests ring known.now) }
{
    if !(known.rights.modifies() || known.rights.signals()) {
        return Some(Rule::NotModify);
    }
    if !known.brackets.may_write(ring) {
        return Some(Rule::RingWrite);
    }
    None
}

/// Of `ticket`.
pub fn ticket_refusal(ring: Ring, known: &Known) -> Option<Rule>
    ensures { result ≡ first_broken (ticket_tests ring known.now) }
{
    change_refusal(ring, known)
}
