//! What is read of a state. These calls take no memory.

ghost use Rattle.std.specs.Prelude.{◌≡◌, ◌<◌};
ghost use Rattle.std.specs.Option.{option_map};
ghost use Rattle.class_model.specs.Config.{Shared as SharedValue, classes};
ghost use Rattle.class_model.specs.Passing.{passes};
ghost use Rattle.class_model.specs.State.{process_at, cell_at, entry_at};
ghost use Rattle.whole_machine.specs.Fits.{PartsFit};
ghost use Rattle.whole_machine.specs.Parts.{state_of};
ghost use Rattle.whole_machine.specs.Steps.{standing};
ghost use Rattle.whole_machine.specs.Readers.{next_instr, place_of, register_of, known_of};

use crate::looks::part_at;
use crate::name::ProcName;
use crate::part::PartState;
use crate::state::ModelState;
use class_model::{ProcessState, Shared};
use policy::Known;
use script_lang::{Instr, Reg};
use words_layout::{Alias, SegId};

/// The named process.
fn process_in<'a>(parts: &'a [PartState], name: &ProcName) -> Option<&'a ProcessState>
    ensures { (s : SharedValue) → option_map (λ p. p.now) result ≡ process_at (standing s parts.now) name.now }
{
    if name.class as usize >= parts.len() {
        return None;
    }
    part_at(parts, name.class).process(name.processor, name.slot)
}

/// Whether the named process is live and its next instruction passes its private tests.
fn passes_in(shared: &Shared, parts: &[PartState], name: &ProcName) -> bool
    requires { PartsFit shared.now parts.now }
    ensures { result ≡ passes (standing shared.now parts.now) name.now }
{
    if name.class as usize >= parts.len() {
        return false;
    }
    let part = part_at(parts, name.class);
    match part.process(name.processor, name.slot) {
        None => false,
        Some(process) => {
            let free = part.free_slot(name.processor).is_some();
            process.passes(shared, name.class, free)
        }
    }
}

impl ModelState {
    /// The named process.
    fn process(&self, name: &ProcName) -> Option<&ProcessState>
        ensures { option_map (λ p. p.now) result ≡ process_at (state_of self.now) name.now }
    {
        process_in(self.parts.as_slice(), name)
    }

    /// The next instruction of the named process. None exactly where it is absent or ended.
    pub fn next_instr(&self, name: &ProcName) -> Option<Instr>
        ensures { result ≡ next_instr (state_of self.now) name.now }
    {
        match self.process(name) {
            None => None,
            Some(process) => {
                if !process.is_live() {
                    return None;
                }
                Some(self.shared.instr_at(process.script(), process.place()))
            }
        }
    }

    /// Whether it is live and its next instruction passes its private tests. Finding a slot is one of those of a `spawn`,
    /// and room on the console none of those of an `out`.
    pub fn passes(&self, name: &ProcName) -> bool
        ensures { result ≡ passes (state_of self.now) name.now }
    {
        passes_in(&self.shared, self.parts.as_slice(), name)
    }

    /// The place of its next instruction. None exactly where it is absent.
    pub fn place(&self, name: &ProcName) -> Option<u16>
        ensures { result ≡ place_of (state_of self.now) name.now }
    {
        match self.process(name) {
            None => None,
            Some(process) => Some(process.place()),
        }
    }

    /// What its register holds. None exactly where it is absent.
    pub fn register(&self, name: &ProcName, reg: Reg) -> Option<u64>
        ensures { result ≡ register_of (state_of self.now) name.now reg }
    {
        match self.process(name) {
            None => None,
            Some(process) => Some(process.register(reg)),
        }
    }

    /// What it knows under a number. None exactly where it is absent, the number is above 15 or the place is empty.
    pub fn known(&self, name: &ProcName, segno: u64) -> Option<Known>
        ensures { result ≡ known_of (state_of self.now) name.now segno }
    {
        match self.process(name) {
            None => None,
            Some(process) => process.known(segno).copied(),
        }
    }

    /// An entry of the cell of a class and an identity. None exactly where it is empty, or there is none of that number.
    pub fn entry(&self, class: u8, seg: SegId, entry: u8) -> Option<Alias>
        requires { class < classes self.now.shared }
        ensures { result ≡ entry_at (cell_at (state_of self.now) class seg) entry }
    {
        part_at(self.parts.as_slice(), class)
            .cell(seg)
            .entry(u64::from(entry))
    }
}
