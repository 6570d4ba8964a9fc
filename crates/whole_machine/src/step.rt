//! One step.

ghost use Rattle.std.specs.Prelude.{◌≡◌, ◌<◌, true, false, ℕ, IfOk, IfSome, OnErr, Some, None, length, is_none, position, slice_index_or};
ghost use Rattle.class_model.specs.Config.{classes};
ghost use Rattle.class_model.specs.Next.{CanStep, outcome_of, is_own};
ghost use Rattle.class_model.specs.Process.{Process, settled};
ghost use Rattle.class_model.specs.Plan.{plan};
ghost use Rattle.class_model.specs.State.{with_process};
ghost use Rattle.class_model.specs.Step.{deed};
ghost use Rattle.class_model.specs.declared.request.Next.TheVariants as N;
ghost use Rattle.class_model.specs.declared.request.Request.TheVariants as A;
ghost use Rattle.whole_machine.specs.Fits.{PartsFit, part_of_class};
ghost use Rattle.whole_machine.specs.Steps.{standing, slot_in, ChangesPart, SameParts, StandsAt, IsDue, IsSomeDue, IsNextOf, IsSettled, StepsTo, is_change, asks_memory, next_takes, step_takes};

use crate::looks::{look, make_known, part_at, words_of};
use crate::name::ProcName;
use crate::part::PartState;
use class_model::{Next, ProcessState, Request, Shared, Shown, Tally};
use policy::Known;
use std::alloc::{AllocError, Global};

/// What is next for the named process. None where it is absent or ended.
pub(crate) fn due(shared: &Shared, parts: &[PartState], name: &ProcName) -> Option<Next>
    requires { PartsFit shared.now parts.now }
    ensures due { IfSome result (λ next. IsSomeDue shared.now parts.now name.now next) }
    ensures none { result ≡ None → deed (standing shared.now parts.now) name.now ≡ None }
    ensures takes { IfSome result (λ next. step_takes (deed (standing shared.now parts.now) name.now) ≡ next_takes next) }
{
    shared.shared_law();
    if name.class as usize >= parts.len() {
        return None;
    }
    match part_at(parts, name.class).process(name.processor, name.slot) {
        None => None,
        Some(process) => next_of(shared, name.class, process),
    }
}

/// What is next for a process of a class, if it is live.
fn next_of(shared: &Shared, class: u8, process: &ProcessState) -> Option<Next>
    requires { CanStep shared.now class process.now }
    ensures next { IfSome result (IsNextOf shared.now class process.now) }
    ensures none { result ≡ None → process.now.live ≡ false }
{
    if !process.is_live() {
        return None;
    }
    shared.instr_at(process.script(), process.place());
    Some(process.next(shared, class))
}

/// The named process takes the effect of its request.
fn settle(parts: &mut Vec<PartState>, name: &ProcName, shown: &Shown)
    requires stands { IsSettled parts.old.items name.now }
    ensures { (p : Process) → StandsAt parts.old.items name.now p → ChangesPart parts.old.items parts.new.items name.now.class
        (with_process (part_of_class parts.old.items name.now.class) name.now.processor name.now.slot (settled p (outcome_of shown.now))) }
{
    let part = &mut parts[name.class as usize];
    part.settle(name.processor, name.slot, shown);
}

/// The named process carries out its next instruction, which takes effect on itself alone.
fn perform_own(shared: &Shared, parts: &mut Vec<PartState>, name: &ProcName)
    requires fits { PartsFit shared.now parts.old.items }
    requires due { IsSomeDue shared.now parts.old.items name.now N.Own }
    ensures { StepsTo shared.now parts.old.items parts.new.items name.now }
{
    let part = &mut parts[name.class as usize];
    part.perform_own(shared, name.class, name.processor, name.slot);
}

/// The named process begins a process.
fn begin(shared: &Shared, parts: &mut Vec<PartState>, name: &ProcName, script: u8, start: u64)
    requires fits { PartsFit shared.now parts.old.items }
    requires due { IsSomeDue shared.now parts.old.items name.now (N.Begin script start) }
    ensures { StepsTo shared.now parts.old.items parts.new.items name.now }
{
    let part = &mut parts[name.class as usize];
    let ring = part.ring(name.processor, name.slot);
    let child = ProcessState::new(name.class, script, ring, start);
    part.begin(name.processor, name.slot, child);
}

/// Carries out a request of the named process that looks at the part of its class alone. NoMemory changes nothing.
fn change(
    alloc: Global,
    shared: &Shared,
    parts: &mut Vec<PartState>,
    name: &ProcName,
    request: &Request,
) -> Result<(), AllocError>
    requires fits { PartsFit shared.now parts.old.items }
    requires due { IsSomeDue shared.now parts.old.items name.now (N.Ask request.now) }
    requires change { is_change request.now ≡ true }
    ensures ok { IfOk result (λ _. StepsTo shared.now parts.old.items parts.new.items name.now) }
    ensures err { OnErr result (SameParts parts.old.items parts.new.items) }
{
    let part = &mut parts[name.class as usize];
    part.ask(
        alloc,
        shared,
        name.class,
        name.processor,
        name.slot,
        request,
    )?;
    Ok(())
}

/// Make known.
fn learn(
    shared: &Shared,
    parts: &mut Vec<PartState>,
    name: &ProcName,
    known: &Known,
    entry: u64,
    mode: u64,
)
    requires fits { PartsFit shared.now parts.old.items }
    requires due { IsSomeDue shared.now parts.old.items name.now (N.Ask (A.MakeKnown known.now entry mode)) }
    ensures { StepsTo shared.now parts.old.items parts.new.items name.now }
{
    let ring = part_at(parts.as_slice(), name.class).ring(name.processor, name.slot);
    let shown = make_known(
        shared,
        parts.as_slice(),
        name.class,
        ring,
        known,
        entry,
        mode,
    );
    settle(parts, name, &shown);
}

/// One look of a `read` or `await`.
fn count(
    shared: &Shared,
    parts: &mut Vec<PartState>,
    name: &ProcName,
    known: &Known,
    wanted: u64,
    tally: Tally,
)
    requires fits { PartsFit shared.now parts.old.items }
    requires due { IsSomeDue shared.now parts.old.items name.now (N.Ask (A.Read known.now wanted tally)) }
    ensures { StepsTo shared.now parts.old.items parts.new.items name.now }
{
    let shown = look(shared, parts.as_slice(), known, wanted, tally);
    settle(parts, name, &shown);
}

/// Fetch. NoMemory changes nothing.
fn fetch(
    alloc: Global,
    shared: &Shared,
    parts: &mut Vec<PartState>,
    name: &ProcName,
    known: &Known,
    offset: u64,
    count: u64,
    pad: u64,
) -> Result<(), AllocError>
    requires fits { PartsFit shared.now parts.old.items }
    requires due { IsSomeDue shared.now parts.old.items name.now (N.Ask (A.Fetch known.now offset count pad)) }
    ensures ok { IfOk result (λ _. StepsTo shared.now parts.old.items parts.new.items name.now) }
    ensures err { OnErr result (SameParts parts.old.items parts.new.items) }
{
    let part = part_at(parts.as_slice(), known.class);
    if let Some(rule) = part.words_refusal(known.seg) {
        settle(parts, name, &Shown::Refused(rule));
        return Ok(());
    }
    let copy = words_of(alloc, part.cell(known.seg), offset, count)?;
    let words = copy.as_slice();
    let at = pad as u8;
    settle(parts, name, &Shown::Words { at, words });
    Ok(())
}

/// Carries out a request of the named process. NoMemory changes nothing.
fn ask(
    alloc: Global,
    shared: &Shared,
    parts: &mut Vec<PartState>,
    name: &ProcName,
    request: &Request,
) -> Result<(), AllocError>
    requires fits { PartsFit shared.now parts.old.items }
    requires due { IsSomeDue shared.now parts.old.items name.now (N.Ask request.now) }
    ensures ok { IfOk result (λ _. StepsTo shared.now parts.old.items parts.new.items name.now) }
    ensures err { OnErr result (SameParts parts.old.items parts.new.items) }
    ensures takes { OnErr result (asks_memory request.now ≡ true) }
{
    match *request {
        Request::MakeKnown { known, entry, mode } => {
            learn(shared, parts, name, &known, entry, mode);
            Ok(())
        }
        Request::Read {
            known,
            wanted,
            tally,
        } => {
            count(shared, parts, name, &known, wanted, tally);
            Ok(())
        }
        Request::Fetch {
            known,
            offset,
            count,
            pad,
        } => fetch(alloc, shared, parts, name, &known, offset, count, pad),
        _ => change(alloc, shared, parts, name, request),
    }
}

/// Carries out what is next for the named process. NoMemory changes nothing.
pub(crate) fn perform(
    alloc: Global,
    shared: &Shared,
    parts: &mut Vec<PartState>,
    name: &ProcName,
    next: &Next,
) -> Result<(), AllocError>
    requires fits { PartsFit shared.now parts.old.items }
    requires due { IsSomeDue shared.now parts.old.items name.now next.now }
    ensures ok { IfOk result (λ _. StepsTo shared.now parts.old.items parts.new.items name.now) }
    ensures err { OnErr result (SameParts parts.old.items parts.new.items) }
    ensures takes { OnErr result (next_takes next.now ≡ true) }
{
    match *next {
        Next::Own => {
            perform_own(shared, parts, name);
            Ok(())
        }
        Next::Begin { script, start } => {
            begin(shared, parts, name, script, start);
            Ok(())
        }
        Next::Ask(request) => ask(alloc, shared, parts, name, &request),
    }
}
