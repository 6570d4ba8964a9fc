//! What a process does next: its plan, by its private state alone.

ghost use Rattle.std.specs.Prelude.{◌≡◌, ◌<◌, true, length, IfOk, IfSome, MatchResult, Some, None};
ghost use Rattle.policy.specs.declared.rule.Rule.{Rule};
ghost use Rattle.policy.specs.Private.{read_tests, make_known_tests, create_tests, delete_tests, swap_in_tests, swap_out_tests, fetch_tests, update_tests, advance_tests, ticket_tests, brackets_of};
ghost use Rattle.lists.specs.Lists.{part_of};
ghost use Rattle.class_model.specs.Config.{classes};
ghost use Rattle.class_model.specs.Process.{Process, reg, with_reg, known_at, usable_at, tally_of, free_known, refused};
ghost use Rattle.class_model.specs.Plan.{MakeKnown, Create, Delete, SwapIn, SwapOut, Fetch, Update, Read, Advance, Ticket, Own, of_known, plan, plan_of, jumped, call, called, returned, spawned, forgotten};
ghost use Rattle.class_model.specs.Shared.{gate_at};
ghost use Rattle.class_model.specs.Next.{IsUsable, AskPassed, NextPassed, IsNext, NextInRange, CanStep, KnowsClasses, EndsOrInside, InRange, AsksOf, asks, plan_by, is_own};
ghost use Rattle.labels.specs.Label.{ClassEntry};
ghost use Rattle.std.specs.Prelude.{ℕ, List, ◌+◌, ◌%◌, is_some, is_none, false, slice_index, slice_set};

use crate::config::{Gate, Shared};
use crate::process::{ProcessState, Return};
use crate::request::{Next, Request};
use labels::ClassTable;
use policy::{
    Known, Rule, advance_refusal, create_refusal, delete_refusal, fetch_refusal,
    make_known_refusal, read_refusal, swap_in_refusal, swap_out_refusal, ticket_refusal,
    update_refusal, usable,
};
use rings::Ring;
use script_lang::{Index, Instr, Reg};

/// Err with the rule, where there is one.
fn unless(refusal: Option<Rule>) -> Result<(), Rule>
    ensures { MatchResult result (λ _. refusal ≡ None) (λ rule. refusal ≡ Some rule) }
{
    match refusal {
        Some(rule) => Err(rule),
        None => Ok(()),
    }
}

/// What is next where an instruction asks this of the state, or is refused.
fn next_by(asked: Result<Request, Rule>) -> Next
    ensures next { (d : ℕ) (p : Process) → IsNext d p (plan_by p asked) result }
    ensures range { (n : ℕ) → IfOk asked (λ r. InRange n r × AsksOf n r) → NextInRange n result }
    ensures passed { (table : List ClassEntry) (p : Process) → AskPassed table p asked → NextPassed table p result }
{
    match asked {
        Ok(request) => Next::Ask(request),
        Err(_) => Next::Own,
    }
}

impl ProcessState {
    /// What it knows under the number in a register, where it may do more with it than signal; else UnknownSegno.
    #[tactic(auto, using(crate::proofs::Passed::usable_class))]
    fn usable(&self, number: Reg) -> Result<Known, Rule>
        ensures usable { MatchResult result
            (λ k. (usable_at self.now (reg self.now number) ≡ Some k) × IsUsable k)
            (λ rule. (usable_at self.now (reg self.now number) ≡ None) × (rule ≡ Rule.UnknownSegno)) }
        ensures class { (n : ℕ) → KnowsClasses n self.now → IfOk result (λ k. k.class < n) }
    {
        match usable(self.known(self.register(number))) {
            Some(known) => Ok(*known),
            None => Err(Rule::UnknownSegno),
        }
    }

    /// The request of `makeknown`, or the first refusal.
    #[tactic(auto, using(crate::proofs::Passed::make_known_entry, crate::proofs::Passed::make_known_mode))]
    fn ask_make_known(&self, mentor: Reg, entry: Reg, mode: Reg) -> Result<Request, Rule>
        ensures plan { plan_by self.now result ≡ of_known self.now (usable_at self.now (reg self.now mentor))
            (make_known_tests self.now.ring (reg self.now entry) (reg self.now mode) (is_none (free_known self.now)))
            (λ k. MakeKnown k (reg self.now entry) (reg self.now mode)) }
        ensures range { (n : ℕ) → KnowsClasses n self.now → IfOk result (λ r. InRange n r × AsksOf n r) }
        ensures passed { (table : List ClassEntry) → AskPassed table self.now result }
    {
        let known = self.usable(mentor)?;
        let entry = self.register(entry);
        let mode = self.register(mode);
        let full = self.known.is_full();
        unless(make_known_refusal(self.ring, &known, entry, mode, full))?;
        Ok(Request::MakeKnown { known, entry, mode })
    }

    /// The request of `read` (`wanted` is then 0) or `await`, or the first refusal.
    fn ask_read(&self, segment: Reg, wanted: u64) -> Result<Request, Rule>
        ensures plan { plan_by self.now result ≡ of_known self.now (usable_at self.now (reg self.now segment))
            (read_tests self.now.ring) (λ k. Read k wanted (tally_of self.now)) }
        ensures range { (n : ℕ) → KnowsClasses n self.now → IfOk result (λ r. InRange n r × AsksOf n r) }
        ensures passed { (table : List ClassEntry) → AskPassed table self.now result }
    {
        let known = self.usable(segment)?;
        unless(read_refusal(self.ring, &known))?;
        let tally = self.tally();
        Ok(Request::Read {
            known,
            wanted,
            tally,
        })
    }

    /// The request of `create`, or the first refusal.
    #[tactic(auto, using(crate::proofs::Passed::create_child))]
    fn ask_create(
        &self,
        table: &ClassTable,
        mentor: Reg,
        entry: Reg,
        class: Reg,
        brackets: Reg,
        size: Reg,
    ) -> Result<Request, Rule>
        requires { KnowsClasses (length table.now) self.now }
        ensures plan { plan_by self.now result ≡ of_known self.now (usable_at self.now (reg self.now mentor))
            (create_tests table.now self.now.ring (reg self.now entry) (reg self.now class) (reg self.now brackets) (reg self.now size))
            (λ k. Create k (reg self.now entry) (reg self.now class) (brackets_of (reg self.now brackets)) (reg self.now size)) }
        ensures range { IfOk result (λ r. InRange (length table.now) r × AsksOf (length table.now) r) }
        ensures passed { AskPassed table.now self.now result }
    {
        let known = self.usable(mentor)?;
        let entry = self.register(entry);
        let class = self.register(class);
        let brackets = self.register(brackets);
        let size = self.register(size);
        let refusal = create_refusal(table, self.ring, &known, entry, class, brackets, size);
        unless(refusal)?;
        Ok(Request::Create {
            known,
            entry,
            class,
            brackets,
            size,
        })
    }

    /// The request of `delete`, or the first refusal.
    #[tactic(auto, using(crate::proofs::Passed::delete_entry))]
    fn ask_delete(&self, mentor: Reg, entry: Reg) -> Result<Request, Rule>
        ensures plan { plan_by self.now result ≡ of_known self.now (usable_at self.now (reg self.now mentor))
            (delete_tests self.now.ring (reg self.now entry)) (λ k. Delete k (reg self.now entry)) }
        ensures range { (n : ℕ) → KnowsClasses n self.now → IfOk result (λ r. InRange n r × AsksOf n r) }
        ensures passed { (table : List ClassEntry) → AskPassed table self.now result }
    {
        let known = self.usable(mentor)?;
        let entry = self.register(entry);
        unless(delete_refusal(self.ring, &known, entry))?;
        Ok(Request::Delete { known, entry })
    }

    /// The request of `swapin`, or the first refusal.
    fn ask_swap_in(&self, segment: Reg) -> Result<Request, Rule>
        ensures plan { plan_by self.now result ≡ of_known self.now (usable_at self.now (reg self.now segment))
            (swap_in_tests self.now.ring) (λ k. SwapIn k) }
        ensures range { (n : ℕ) → KnowsClasses n self.now → IfOk result (λ r. InRange n r × AsksOf n r) }
        ensures passed { (table : List ClassEntry) → AskPassed table self.now result }
    {
        let known = self.usable(segment)?;
        unless(swap_in_refusal(self.ring, &known))?;
        Ok(Request::SwapIn(known))
    }

    /// The request of `swapout`, or the first refusal.
    fn ask_swap_out(&self, segment: Reg) -> Result<Request, Rule>
        ensures plan { plan_by self.now result ≡ of_known self.now (usable_at self.now (reg self.now segment))
            (swap_out_tests self.now.ring) (λ k. SwapOut k) }
        ensures range { (n : ℕ) → KnowsClasses n self.now → IfOk result (λ r. InRange n r × AsksOf n r) }
        ensures passed { (table : List ClassEntry) → AskPassed table self.now result }
    {
        let known = self.usable(segment)?;
        unless(swap_out_refusal(self.ring, &known))?;
        Ok(Request::SwapOut(known))
    }

    /// The request of `fetch`, or the first refusal.
    #[tactic(auto, using(crate::proofs::Passed::fetch_bounds))]
    fn ask_fetch(&self, segment: Reg, offset: Reg, count: Reg, pad: Reg) -> Result<Request, Rule>
        ensures plan { plan_by self.now result ≡ of_known self.now (usable_at self.now (reg self.now segment))
            (fetch_tests self.now.ring (reg self.now offset) (reg self.now count) (reg self.now pad))
            (λ k. Fetch k (reg self.now offset) (reg self.now count) (reg self.now pad)) }
        ensures range { (n : ℕ) → KnowsClasses n self.now → IfOk result (λ r. InRange n r × AsksOf n r) }
        ensures passed { (table : List ClassEntry) → AskPassed table self.now result }
    {
        let known = self.usable(segment)?;
        let offset = self.register(offset);
        let count = self.register(count);
        let pad = self.register(pad);
        unless(fetch_refusal(self.ring, &known, offset, count, pad))?;
        Ok(Request::Fetch {
            known,
            offset,
            count,
            pad,
        })
    }

    /// The request of `update`, or the first refusal.
    #[tactic(auto, using(crate::proofs::Passed::update_bounds))]
    fn ask_update(&self, segment: Reg, offset: Reg, count: Reg, pad: Reg) -> Result<Request, Rule>
        ensures plan { plan_by self.now result ≡ of_known self.now (usable_at self.now (reg self.now segment))
            (update_tests self.now.ring (reg self.now offset) (reg self.now count) (reg self.now pad))
            (λ k. Update k (reg self.now offset) (part_of self.now.pad (reg self.now pad) (reg self.now count))) }
        ensures range { (n : ℕ) → KnowsClasses n self.now → IfOk result (λ r. InRange n r × AsksOf n r) }
        ensures passed { (table : List ClassEntry) → AskPassed table self.now result }
    {
        let known = self.usable(segment)?;
        let offset = self.register(offset);
        let count = self.register(count);
        let pad = self.register(pad);
        unless(update_refusal(self.ring, &known, offset, count, pad))?;
        Ok(Request::Update {
            known,
            offset,
            count,
            pad,
        })
    }

    /// The request of `advance`, or the first refusal. A segment that may be signalled alone is enough.
    fn ask_advance(&self, segment: Reg) -> Result<Request, Rule>
        ensures plan { plan_by self.now result ≡ of_known self.now (known_at self.now (reg self.now segment))
            (advance_tests self.now.ring) (λ k. Advance k) }
        ensures range { (n : ℕ) → KnowsClasses n self.now → IfOk result (λ r. InRange n r × AsksOf n r) }
        ensures passed { (table : List ClassEntry) → AskPassed table self.now result }
    {
        let Some(known) = self.known(self.register(segment)) else {
            return Err(Rule::UnknownSegno);
        };
        unless(advance_refusal(self.ring, known))?;
        Ok(Request::Advance(*known))
    }

    /// The request of `ticket`, or the first refusal.
    fn ask_ticket(&self, segment: Reg) -> Result<Request, Rule>
        ensures plan { plan_by self.now result ≡ of_known self.now (usable_at self.now (reg self.now segment))
            (ticket_tests self.now.ring) (λ k. Ticket k) }
        ensures range { (n : ℕ) → KnowsClasses n self.now → IfOk result (λ r. InRange n r × AsksOf n r) }
        ensures passed { (table : List ClassEntry) → AskPassed table self.now result }
    {
        let known = self.usable(segment)?;
        unless(ticket_refusal(self.ring, &known))?;
        Ok(Request::Ticket(known))
    }

    /// The request of an instruction that asks the state, or the first refusal. None exactly for any other one.
    #[inline(always)]
    pub(crate) fn ask(&self, shared: &Shared, instr: &Instr) -> Option<Result<Request, Rule>>
        requires { KnowsClasses (classes shared.now) self.now }
        ensures plan { (d : ℕ) → IfSome result (λ r. plan_of shared.now d self.now instr.now ≡ plan_by self.now r) }
        ensures some { asks instr.now ≡ is_some result }
        ensures range { IfSome result (λ asked. IfOk asked (λ r. InRange (classes shared.now) r × AsksOf (classes shared.now) r)) }
        ensures passed { IfSome result (AskPassed shared.now.table self.now) }
    {
        match *instr {
            Instr::MakeKnown(mentor, entry, mode) => {
                Some(self.ask_make_known(mentor, entry, mode))
            }
            Instr::Create(mentor, entry, class, brackets, size) => {
                let table = shared.table();
                Some(self.ask_create(table, mentor, entry, class, brackets, size))
            }
            Instr::Delete(mentor, entry) => Some(self.ask_delete(mentor, entry)),
            Instr::SwapIn(segment) => Some(self.ask_swap_in(segment)),
            Instr::SwapOut(segment) => Some(self.ask_swap_out(segment)),
            Instr::Fetch(segment, offset, count, pad) => {
                Some(self.ask_fetch(segment, offset, count, pad))
            }
            Instr::Update(segment, offset, count, pad) => {
                Some(self.ask_update(segment, offset, count, pad))
            }
            Instr::Read(segment) => Some(self.ask_read(segment, 0)),
            Instr::Await(segment, wanted) => Some(self.ask_read(segment, self.register(wanted))),
            Instr::Advance(segment) => Some(self.ask_advance(segment)),
            Instr::Ticket(segment) => Some(self.ask_ticket(segment)),
            Instr::Out(value) => Some(Ok(Request::Out(self.register(value)))),
            _ => None,
        }
    }

    /// What is next at an instruction that doesn't ask the state.
    fn next_alone(&self, shared: &Shared, class: u8, instr: &Instr) -> Next
        requires class { class < classes shared.now }
        requires alone { asks instr.now ≡ false }
        ensures next { IsNext class self.now (plan_of shared.now class self.now instr.now) result }
        ensures range { NextInRange (classes shared.now) result }
        ensures passed { NextPassed shared.now.table self.now result }
    {
        let Instr::Spawn(place, start) = *instr else {
            return Next::Own;
        };
        let script = place.number();
        if !shared.has_script(script, class) {
            return Next::Own;
        }
        Next::Begin {
            script,
            start: self.register(start),
        }
    }

    /// What it does next, as its plan says. Nothing is copied but what it asks.
    #[inline(always)]
    pub fn next(&self, shared: &Shared, class: u8) -> Next
        requires { CanStep shared.now class self.now }
        ensures next { IsNext class self.now (plan shared.now class self.now) result }
        ensures range { NextInRange (classes shared.now) result }
        ensures passed { NextPassed shared.now.table self.now result }
    {
        let instr = shared.instr_at(self.script(), self.place());
        match self.ask(shared, &instr) {
            Some(asked) => next_by(asked),
            None => self.next_alone(shared, class, &instr),
        }
    }

    /// Sets a register, and goes on.
    fn set_register(&mut self, number: Reg, value: u64)
        requires { self.old.place < 256 }
        ensures { self.new ≡ with_reg self.old number value }
    {
        self.regs[number.number() as usize] = value;
        self.place += 1;
    }

    /// Goes to a place where the test holds, else on.
    fn jump(&mut self, test: bool, to: u16)
        requires { self.old.place < 256 }
        ensures after { self.new ≡ jumped self.old test to }
        ensures knows { self.new.known ≡ self.old.known }
    {
        if test {
            self.place = to;
        } else {
            self.place += 1;
        }
    }

    /// Copies a pad word to a register, and goes on.
    fn load_pad(&mut self, to: Reg, at: u64)
        requires { self.old.place < 256 }
        ensures { self.new ≡ with_reg self.old to (slice_index self.old.pad (at % 64)) }
    {
        let word = self.pad[(at % 64) as usize];
        self.set_register(to, word);
    }

    /// Sets a pad word, and goes on.
    fn store_pad(&mut self, at: u64, value: u64)
        requires { self.old.place < 256 }
        ensures { self.new ≡ record self.old { pad = slice_set self.old.pad (at % 64) value; place = self.old.place + 1 } }
    {
        self.pad[(at % 64) as usize] = value;
        self.place += 1;
    }

    /// Jumps to the start of the gate's script in the ring of the call.
    fn enter(&mut self, gate: Gate, ring: Option<Ring>)
        requires { self.old.place < 256 }
        ensures after { self.new ≡ called self.old gate ring }
        ensures knows { self.new.known ≡ self.old.known }
    {
        let Some(ring) = ring else {
            return self.refuse(Rule::RingCall);
        };
        if self.stack.len() >= 8 {
            return self.refuse(Rule::StackFull);
        }
        let back = Return {
            script: self.script,
            place: self.place + 1,
            ring: self.ring,
        };
        self.answer(ring.number() as u64);
        self.stack.insert(0, back);
        self.script = gate.script;
        self.place = 0;
        self.ring = ring;
    }

    /// Calls a gate, if it is there and at or below the class.
    fn call_gate(&mut self, shared: &Shared, class: u8, number: u8)
        requires class { class < classes shared.now }
        requires place { self.old.place < 256 }
        ensures after { self.new ≡ call shared.now class self.old (gate_at shared.now number) }
        ensures knows { self.new.known ≡ self.old.known }
    {
        match shared.gate(number) {
            None => self.refuse(Rule::NoScript),
            Some(gate) => {
                if shared.flows(gate.class, class) {
                    self.enter(gate, gate.brackets.call_ring(self.ring));
                } else {
                    self.refuse(Rule::NoScript);
                }
            }
        }
    }

    /// Goes back from the last call.
    fn go_back(&mut self)
        requires { self.old.place < 256 }
        ensures after { self.new ≡ returned self.old self.old.stack }
        ensures knows { self.new.known ≡ self.old.known }
    {
        if self.stack.is_empty() {
            return self.refuse(Rule::StackEmpty);
        }
        let back = self.stack.remove(0);
        self.script = back.script;
        self.place = back.place;
        self.ring = back.ring;
    }

    /// Empties a place of what it knows.
    fn forget(&mut self, segno: u64)
        requires { self.old.place < 256 }
        ensures after { self.new ≡ forgotten self.old segno (known_at self.old segno) }
        ensures knows { self.new.known ≡ slice_set self.old.known segno None }
    {
        match self.known.take_out(segno) {
            None => self.refuse(Rule::UnknownSegno),
            Some(_) => self.answer(0),
        }
    }

    /// Takes the refusal of what it asked.
    fn take_refusal(&mut self, asked: Result<Request, Rule>)
        requires place { self.old.place < 256 }
        requires own { is_own (plan_by self.old asked) ≡ true }
        ensures after { plan_by self.old asked ≡ Own self.new }
        ensures knows { self.new.known ≡ self.old.known }
    {
        if let Err(rule) = asked {
            self.refuse(rule);
        }
    }

    /// Carries out an instruction that doesn't ask the state.
    fn perform_alone(&mut self, shared: &Shared, class: u8, instr: &Instr)
        requires class { class < classes shared.now }
        requires place { EndsOrInside instr.now self.old.place }
        requires alone { asks instr.now ≡ false }
        requires own { is_own (plan_of shared.now class self.old instr.now) ≡ true }
        ensures after { plan_of shared.now class self.old instr.now ≡ Own self.new }
        ensures knows { (n : ℕ) → KnowsClasses n self.old → KnowsClasses n self.new }
    {
        match *instr {
            Instr::Halt => self.live = false,
            Instr::Set(to, value) => self.set_register(to, value),
            Instr::Copy(to, from) => self.set_register(to, self.register(from)),
            Instr::Add(to, by) => {
                self.set_register(to, self.register(to).wrapping_add(self.register(by)));
            }
            Instr::Sub(to, by) => {
                self.set_register(to, self.register(to).wrapping_sub(self.register(by)));
            }
            Instr::Jump(to) => self.jump(true, to),
            Instr::JumpZ(tested, to) => self.jump(self.register(tested) == 0, to),
            Instr::JumpL(less, than, to) => {
                self.jump(self.register(less) < self.register(than), to);
            }
            Instr::Get(to, place) => self.load_pad(to, self.register(place)),
            Instr::Put(from, place) => self.store_pad(self.register(place), self.register(from)),
            Instr::Call(gate) => self.call_gate(shared, class, gate.number()),
            Instr::Ret => self.go_back(),
            Instr::Spawn(..) => self.refuse(Rule::NoScript),
            Instr::Terminate(segment) => self.forget(self.register(segment)),
            _ => {}
        }
    }

    /// Carries out its next instruction, where this takes effect on the process alone.
    pub fn perform_own(&mut self, shared: &Shared, class: u8)
        requires can { CanStep shared.now class self.old }
        requires own { is_own (plan shared.now class self.old) ≡ true }
        ensures after { plan shared.now class self.old ≡ Own self.new }
        ensures knows { (n : ℕ) → KnowsClasses n self.old → KnowsClasses n self.new }
    {
        let instr = shared.instr_at(self.script(), self.place());
        match self.ask(shared, &instr) {
            Some(asked) => self.take_refusal(asked),
            None => self.perform_alone(shared, class, &instr),
        }
    }
}
