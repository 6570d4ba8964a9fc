//! What a request looks at in the part of a class.

ghost use Rattle.std.specs.Prelude.{◌≡◌, ◌<◌, ◌⊎◌, ℕ, IfOk, Some, length, slice_index, slice_index_or};
ghost use Rattle.lists.specs.Lists.{part_of};
ghost use Rattle.words_layout.specs.declared.coding.Alias.{Alias as AliasValue};
ghost use Rattle.policy.specs.Outcome.{shown, tallied, components};
ghost use Rattle.class_model.specs.Config.{classes};
ghost use Rattle.class_model.specs.Next.{outcome_of};
ghost use Rattle.class_model.specs.State.{component_at, entry_at, live_words};
ghost use Rattle.whole_machine.specs.Parts.{cell_in, count_in, no_part};
ghost use Rattle.whole_machine.specs.Fits.{IsEntry, PartsFit};
ghost use Rattle.whole_machine.specs.Steps.{standing};

use crate::cell::CellState;
use crate::part::PartState;
use arrayvec::ArrayVec;
use class_model::{Shared, Shown, Tally};
use labels::ClassTable;
use policy::{Known, Rights, Rule, brackets_in, known_by, verdict};
use rings::Ring;
use std::alloc::{AllocError, Global};
use words_layout::{Alias, SegId};

/// The part of a class.
pub(crate) fn part_at(parts: &[PartState], class: u8) -> &PartState
    requires { class < length parts.now }
    ensures { result.now ≡ slice_index_or parts.now class no_part }
{
    &parts[class as usize]
}

/// What an entry that isn't empty shows to a process of a class in a ring, by the mode.
fn entry_judged(
    shared: &Shared,
    class: u8,
    ring: Ring,
    mentor: u8,
    mode: u64,
    alias: &Alias,
) -> Shown<'static>
    requires class { class < classes shared.now }
    requires mode { (mode ≡ 1) ⊎ (mode ≡ 2) ⊎ (mode ≡ 3) }
    requires entry { IsEntry (classes shared.now) alias.now }
    ensures { outcome_of result ≡ shown shared.now.table class ring mentor mode (Some alias.now) }
{
    let table = shared.table();
    let Some(brackets) = brackets_in(alias) else {
        return Shown::Refused(Rule::NoEntry);
    };
    let subject = table.label(class);
    let object = table.label(alias.class);
    match verdict(subject, ring, object, &brackets, Rights::wanted(mode)) {
        Ok(()) => Shown::Learns(known_by(mentor, alias, Rights::given(mode))),
        Err(rule) => Shown::Refused(rule),
    }
}

/// What an entry shows to a process of a class in a ring, by the mode.
fn entry_shown(
    shared: &Shared,
    class: u8,
    ring: Ring,
    mentor: u8,
    mode: u64,
    entry: Option<Alias>,
) -> Shown<'static>
    requires class { class < classes shared.now }
    requires mode { (mode ≡ 1) ⊎ (mode ≡ 2) ⊎ (mode ≡ 3) }
    requires entry { (a : AliasValue) → entry ≡ Some a → IsEntry (classes shared.now) a }
    ensures { outcome_of result ≡ shown shared.now.table class ring mentor mode entry }
{
    match entry {
        None => Shown::Refused(Rule::NoEntry),
        Some(alias) => entry_judged(shared, class, ring, mentor, mode, &alias),
    }
}

/// Make known: what the entry of the known segment shows.
pub(crate) fn make_known(
    shared: &Shared,
    parts: &[PartState],
    class: u8,
    ring: Ring,
    known: &Known,
    entry: u64,
    mode: u64,
) -> Shown<'static>
    requires fits { PartsFit shared.now parts.now }
    requires class { class < classes shared.now }
    requires known { known.now.class < classes shared.now }
    requires mode { (mode ≡ 1) ⊎ (mode ≡ 2) ⊎ (mode ≡ 3) }
    ensures { outcome_of result ≡ shown shared.now.table class ring known.now.class mode
        (entry_at (cell_in (slice_index_or parts.now known.now.class no_part).cells known.now.seg) entry) }
{
    let part = part_at(parts, known.class);
    let found = part.cell(known.seg).entry(entry);
    entry_shown(shared, class, ring, known.class, mode, found)
}

/// The classes whose components make up the eventcount of a segment of a class, in class order.
pub(crate) fn components(table: &ClassTable, class: u8) -> ArrayVec<u8, 16>
    requires { class < length table.now }
    ensures { result.items ≡ components table.now class }
{
    table.table_law();
    let mut classes = ArrayVec::new();
    for low in 0..table.count() {
        if table.below(low, class) {
            classes.push(low);
        }
    }
    classes
}

/// The class at a place of the list; 0 past its end.
fn class_at(classes: &[u8], place: u8) -> u8
    ensures { result ≡ slice_index classes.now place }
{
    if (place as usize) < classes.len() {
        classes[place as usize]
    } else {
        0
    }
}

/// The component of a class of the eventcount of the cell of class `of`.
pub(crate) fn component(parts: &[PartState], class: u8, of: u8, seg: SegId) -> u64
    ensures { result ≡ count_in (slice_index_or parts.now class no_part).counts of seg }
{
    if class as usize >= parts.len() {
        return 0;
    }
    part_at(parts, class).count(of, seg)
}

/// What the look at the next of so many components shows: the sum at the last one, unless more is wanted.
fn tallied(count: u8, wanted: u64, tally: Tally, value: u64) -> Shown<'static>
    ensures { outcome_of result ≡ tallied count wanted tally value }
{
    let sum = tally.sum.wrapping_add(value);
    if (tally.seen as u16) + 1 < count as u16 {
        let seen = tally.seen + 1;
        return Shown::Looked(Some(Tally { seen, sum }));
    }
    if sum < wanted {
        Shown::Looked(None)
    } else {
        Shown::Counted(sum)
    }
}

/// One look of a `read` or `await`: the next component of the eventcount of the known segment.
pub(crate) fn look(
    shared: &Shared,
    parts: &[PartState],
    known: &Known,
    wanted: u64,
    tally: Tally,
) -> Shown<'static>
    requires { known.now.class < classes shared.now }
    ensures { outcome_of result ≡ tallied (length (components shared.now.table known.now.class)) wanted tally
        (component_at (standing shared.now parts.now) (slice_index (components shared.now.table known.now.class) tally.seen) known.now.class known.now.seg) }
{
    let classes = components(shared.table(), known.class);
    let next = class_at(classes.as_slice(), tally.seen);
    let value = component(parts, next, known.class, known.seg);
    tallied(classes.len() as u8, wanted, tally, value)
}

/// So many of the live words of a cell from a place on, as far as it has them.
pub(crate) fn words_of(
    alloc: Global,
    cell: &CellState,
    offset: u64,
    count: u64,
) -> Result<Vec<u64>, AllocError>
    ensures { IfOk result (λ v. v.items ≡ part_of (live_words cell.now) offset count) }
{
    let live = cell.live_words();
    let start = (offset as usize).min(live.len());
    let rest = &live[start..];
    let end = (count as usize).min(rest.len());
    Vec::from_slice(alloc, &rest[..end])
}
