//! What is known of a step before it is made, and its entries after it.

ghost use Rattle.std.specs.Prelude.{◌≡◌, ◌<◌, ◌++◌, ◌∷◌, [], OnOk};
ghost use Rattle.class_model.specs.Config.{classes};
ghost use Rattle.whole_machine.specs.Parts.{state_of};
ghost use Rattle.audit_trail.specs.Dues as spec;
ghost use Rattle.audit_trail.specs.Dues.{child_in, entries_after, accesses_after, code_after, has_replied, deleted_child, option_entries};

use crate::entry::Entry;
use crate::instructions::{goes_back, operand_of, reply_number};
use policy::{Known, Rights};
use script_lang::{Instr, Reg};
use std::alloc::AllocError;
use whole_machine::{ModelState, ProcName};
use words_layout::SegId;

/// How many entries a segment has.
const ENTRIES: u64 = 8;

/// A child that a delete modifies where it is Ok: where it stands, and the access.
#[derive(Clone, Copy)]
pub(crate) struct Child {
    pub(crate) mentor: SegId,
    pub(crate) entry: u8,
    pub(crate) access: Entry,
}

/// What is known of a step before it is made, where its instruction gives a reply.
#[derive(Clone, Copy)]
pub(crate) struct Due {
    /// The number of its instruction.
    pub(crate) number: u8,
    /// Where the process is.
    pub(crate) place: u16,
    /// It goes back from a call, and leaves r0 as it is.
    pub(crate) goes_back: bool,
    /// The access of the known segment.
    pub(crate) access: Option<Entry>,
    pub(crate) child: Option<Child>,
}

/// What the process knows under the number in a register.
fn segment_of(state: &ModelState, name: &ProcName, register: Reg) -> Option<Known>
    ensures { result ≡ spec.segment_of (state_of state.now) name.now register }
{
    let segno = state.register(name, register)?;
    state.known(name, segno)
}

/// The access of the known segment.
fn access_of(state: &ModelState, name: &ProcName, instr: &Instr, number: u8) -> Option<Entry>
    ensures { result ≡ spec.access_of (state_of state.now) name.now instr.now number }
{
    let operand = operand_of(instr)?;
    let known = segment_of(state, name, operand.register)?;
    Some(Entry::Access {
        name: *name,
        instr: number,
        kind: operand.kind,
        seg: known.seg,
        class: known.class,
    })
}

/// The child that an entry of a known segment names, where it is of the process's own class.
fn child_in(
    state: &ModelState,
    name: &ProcName,
    number: u8,
    known: &Known,
    entry: u64,
) -> Option<Child>
    requires { name.now.class < classes state.now.shared }
    ensures { result ≡ child_in (state_of state.now) name.now number known.now entry }
{
    if entry >= ENTRIES {
        return None;
    }
    let alias = state.entry(name.class, known.seg, entry as u8)?;
    if alias.class != name.class {
        return None;
    }
    let seg = SegId {
        mentor: name.class,
        serial: alias.serial,
    };
    let access = Entry::Access {
        name: *name,
        instr: number,
        kind: Rights::MODIFY,
        seg,
        class: name.class,
    };
    Some(Child {
        mentor: known.seg,
        entry: entry as u8,
        access,
    })
}

/// The child that a delete of an entry may modify.
fn child_of(
    state: &ModelState,
    name: &ProcName,
    number: u8,
    mentor: Reg,
    entry: Reg,
) -> Option<Child>
    requires { name.now.class < classes state.now.shared }
    ensures { result ≡ spec.child_of (state_of state.now) name.now number mentor entry }
{
    let known = segment_of(state, name, mentor)?;
    let entry = state.register(name, entry)?;
    child_in(state, name, number, &known, entry)
}

/// The child that an instruction may modify.
fn child_by(state: &ModelState, name: &ProcName, instr: &Instr, number: u8) -> Option<Child>
    requires { name.now.class < classes state.now.shared }
    ensures { result ≡ spec.child_by (state_of state.now) name.now instr.now number }
{
    match *instr {
        Instr::Delete(mentor, entry) => child_of(state, name, number, mentor, entry),
        _ => None,
    }
}

/// What is known of the step of an instruction of that number.
fn due_by(state: &ModelState, name: &ProcName, instr: &Instr, number: u8) -> Due
    requires { name.now.class < classes state.now.shared }
    ensures { spec.due_by (state_of state.now) name.now instr.now (Some number) ≡ Some result }
{
    let passes = state.passes(name);
    let access = if passes {
        access_of(state, name, instr, number)
    } else {
        None
    };
    let child = if passes {
        child_by(state, name, instr, number)
    } else {
        None
    };
    Due {
        number,
        place: state.place(name).unwrap_or(0),
        goes_back: passes && goes_back(instr),
        access,
        child,
    }
}

/// What is known of the next step of a process. None where it makes none, or its instruction gives no reply.
pub(crate) fn due_of(state: &ModelState, name: &ProcName) -> Option<Due>
    requires { name.now.class < classes state.now.shared }
    ensures { result ≡ spec.due_of (state_of state.now) name.now }
{
    let instr = state.next_instr(name)?;
    let number = reply_number(&instr)?;
    Some(due_by(state, name, &instr, number))
}

/// What r0 holds.
fn held(state: &ModelState, name: &ProcName) -> u64
    ensures { result ≡ spec.held (state_of state.now) name.now }
{
    match Reg::new(0) {
        Some(register) => state.register(name, register).unwrap_or(0),
        None => 0,
    }
}

/// Whether the step that was due gave a reply. A mere look accesses a segment and leaves the process at its place.
fn has_replied(state: &ModelState, name: &ProcName, due: &Due) -> bool
    ensures { result ≡ has_replied (state_of state.now) name.now due.now }
{
    !(due.access.is_some() && state.place(name).unwrap_or(0) == due.place)
}

/// The code of its reply.
fn code_after(state: &ModelState, name: &ProcName, due: &Due) -> u8
    ensures { result ≡ code_after (state_of state.now) name.now due.now }
{
    if due.goes_back {
        return 0;
    }
    (held(state, name) % 256) as u8
}

/// Appends the access of a child that was deleted.
fn push_child(
    entries: &mut Vec<Entry>,
    state: &ModelState,
    name: &ProcName,
    child: &Child,
) -> Result<(), AllocError>
    requires { name.now.class < classes state.now.shared }
    ensures { OnOk result (entries.new.items ≡ entries.old.items ++ deleted_child (state_of state.now) name.now child.now) }
{
    if state.entry(name.class, child.mentor, child.entry).is_none() {
        entries.push(child.access)?;
    }
    Ok(())
}

/// Appends the accesses of the step that was due.
fn push_accesses(
    entries: &mut Vec<Entry>,
    state: &ModelState,
    name: &ProcName,
    due: &Due,
) -> Result<(), AllocError>
    requires { name.now.class < classes state.now.shared }
    ensures { OnOk result (entries.new.items ≡ entries.old.items ++ accesses_after (state_of state.now) name.now due.now) }
{
    if let Some(access) = due.access {
        entries.push(access)?;
    }
    if let Some(child) = due.child {
        push_child(entries, state, name, &child)?;
    }
    Ok(())
}

/// Appends the entries of the step that was due, which was made.
pub(crate) fn push_entries(
    entries: &mut Vec<Entry>,
    state: &ModelState,
    name: &ProcName,
    due: &Due,
) -> Result<(), AllocError>
    requires { name.now.class < classes state.now.shared }
    ensures { OnOk result (entries.new.items ≡ entries.old.items ++ entries_after (state_of state.now) name.now due.now) }
{
    if !has_replied(state, name, due) {
        return Ok(());
    }
    push_accesses(entries, state, name, due)?;
    entries.push(Entry::Reply {
        name: *name,
        instr: due.number,
        code: code_after(state, name, due),
    })?;
    Ok(())
}
