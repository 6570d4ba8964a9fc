//! A process: its private state with its unfinished instruction.

ghost use Rattle.std.specs.Prelude.{◌≡◌, ◌<◌, ℕ, Option, true, false};
ghost use Rattle.words_layout.specs.Named.{op_at};
ghost use Rattle.words_layout.specs.Ops.{IsWithin};
ghost use Rattle.turns.specs.Doing.{doing_told, act_told};
ghost use Rattle.gate_parts.specs.Replies.{answer_by};
ghost use Rattle.class_model.specs.Config.{Shared, classes};
ghost use Rattle.class_model.specs.Process.{new_process, reg};
ghost use Rattle.class_model.specs.Plan.{plan};
ghost use Rattle.class_model.specs.Next.{CanStep, Passed, IsNext, NextPassed, is_own, request_of};
ghost use Rattle.process.specs.Running.{next_op, absorb, act, after_told, begin_in, plan_absorbed};
ghost use Rattle.process.specs.Fits.{IsSound, OpFits};
ghost use Rattle.process.specs.Asking.{AskedFits};
ghost use Rattle.process.specs.Standing.{Absorbs, StandingSteps, OpIsLawful, StandingFits, GivenFits, doing_in, running_of, new_standing, made_by, ending_of, ended_with, reply_held};
ghost use Rattle.process.specs.declared.doing.Doing.{Doing};

use crate::asking::{ask_once, begin, first_op, is_once};
use crate::doing::{Absorbed, Doing, Made};
use class_model::{Next, ProcessState, Request, Shared};
use policy::{Caller, Outcome, Rule};
use rings::Ring;
use script_lang::Reg;
use std::marker::Model;
use words_layout::{Op, WordPort};

/// One process. Contracts see its class, its private state and how far its next instruction is.
#[derive(Drop)]
pub struct Process {
    class: u8,
    /// Whether the last instruction is over. What `doing` then holds is left of it, for the next one of its kind to
    /// start again in place.
    over: bool,
    state: ProcessState,
    doing: Doing,
}

impl Model for Process {
    ghost use Rattle.process.specs.Standing.{Standing, IsHeld, ended_if};

    ghost Value = { Standing };

    ghost view = { λ p. record { class = p.class; process = p.state; doing = ended_if p.over p.doing } };

    ghost invariant = { λ p. IsHeld p.class (ended_if p.over p.doing) };
}

/// The answer of a step that ends so: the reply of a Done is what r0, modulo 256, and r1 hold.
fn with_reply(state: &ProcessState, outcome: Outcome) -> Outcome
    ensures { result ≡ answer_by (ending_of outcome) (reply_held state.now) }
{
    match outcome {
        Outcome::Done(_) => Outcome::Done(state.reply_held()),
        other => other,
    }
}

impl Process {
    /// A live process at place 0 of a script, with r2 = `start`, and the rest as at the opening.
    pub fn new(class: u8, script: u8, ring: Ring, start: u64) -> Process
        ensures { result ≡ new_standing class script ring start }
    {
        Process {
            class,
            over: true,
            state: ProcessState::new(class, script, ring, start),
            doing: Doing::Fresh,
        }
    }

    /// Its class.
    pub fn class(&self) -> u8
        ensures { result ≡ self.now.class }
    {
        self.class
    }

    /// The number of its script.
    pub fn script(&self) -> u8
        ensures { result ≡ self.now.process.script }
    {
        self.state.script()
    }

    /// The place of its next instruction.
    pub fn place(&self) -> u16
        ensures { result ≡ self.now.process.place }
    {
        self.state.place()
    }

    /// The ring in which it runs.
    pub fn ring(&self) -> Ring
        ensures { result ≡ self.now.process.ring }
    {
        self.state.ring()
    }

    /// What a register holds.
    pub fn register(&self, number: Reg) -> u64
        ensures { result ≡ reg self.now.process number }
    {
        self.state.register(number)
    }

    /// What all registers hold.
    pub fn registers(&self) -> &[u64; 16]
        ensures { result.now ≡ self.now.process.regs }
    {
        self.state.registers()
    }

    /// Whether it has not ended.
    pub fn is_live(&self) -> bool
        ensures { result ≡ self.now.process.live }
    {
        self.state.is_live()
    }

    /// The operation of its next step.
    pub fn next_op(&self, shared: &Shared) -> Op
        requires live { self.now.process.live ≡ true }
        requires fits { StandingFits shared.now self.now }
        ensures op { result ≡ op_at self.now.class (next_op shared.now self.now.class (running_of shared.now self.now)) }
        ensures op_fits { OpFits shared.now self.now.class (next_op shared.now self.now.class (running_of shared.now self.now)) }
        ensures lawful { OpIsLawful shared.now self.now.class result }
        ensures within { IsWithin (classes shared.now) result }
    {
        shared.shared_law();
        shared.table().table_law();
        if self.is_fresh() {
            self.planned_op(shared, &self.state.next(shared, self.class))
        } else {
            self.doing.next_op(shared.table(), self.class)
        }
    }

    /// Whether its next step begins an instruction.
    fn is_fresh(&self) -> bool
        ensures fresh { result ≡ true → self.now.doing ≡ Doing.Fresh }
        ensures begun { result ≡ false → self.now.doing ≡ Doing.Fresh → ⊥ }
    {
        self.over || matches!(&self.doing, Doing::Fresh)
    }

    /// The first operation of its next instruction.
    #[inline(always)]
    fn planned_op(&self, shared: &Shared, next: &Next) -> Op
        requires sound { IsSound shared.now }
        requires fits { StandingFits shared.now self.now }
        requires fresh { self.now.doing ≡ Doing.Fresh }
        requires next { IsNext self.now.class self.now.process (plan shared.now self.now.class self.now.process) next.now }
        requires passed { NextPassed shared.now.table self.now.process next.now }
        ensures { result ≡ op_at self.now.class (next_op shared.now self.now.class (running_of shared.now self.now)) }
    {
        match next {
            Next::Ask(request) => first_op(shared, self.class, &self.state, request),
            _ => Op::Nothing,
        }
    }

    /// Takes the answer to the operation of the step. `free` is the least slot of its virtual processor that never held
    /// a process, or None.
    pub fn absorb(&mut self, shared: &Shared, free: Option<u8>, answer: u64) -> Absorbed
        requires live { self.old.process.live ≡ true }
        requires fits { StandingFits shared.now self.old }
        ensures running { running_of shared.now self.new ≡ (absorb shared.now self.old.class (running_of shared.now self.old) free answer).running }
        ensures class { self.new.class ≡ self.old.class }
        ensures ending { ending_of result.outcome ≡ (absorb shared.now self.old.class (running_of shared.now self.old) free answer).ending }
        ensures reply { result.outcome ≡ answer_by (absorb shared.now self.old.class (running_of shared.now self.old) free answer).ending (reply_held self.new.process) }
        ensures effect { result.effect ≡ (absorb shared.now self.old.class (running_of shared.now self.old) free answer).effect }
        ensures made { made_by self.old.class result.made ≡ (absorb shared.now self.old.class (running_of shared.now self.old) free answer).made }
        ensures given { GivenFits shared.now self.old.class result.made }
        ensures fits { StandingFits shared.now self.new }
    {
        shared.shared_law();
        shared.table().table_law();
        if self.is_fresh() {
            let next = self.state.next(shared, self.class);
            self.absorb_first(shared, &next, free, answer)
        } else {
            self.absorb_next(shared, answer)
        }
    }

    /// Takes one step: performs its operation on a port of words, and takes the answer as `absorb` does.
    pub fn step<W: WordPort>(&mut self, port: &mut W, shared: &Shared, free: Option<u8>) -> Absorbed
        requires live { self.old.process.live ≡ true }
        requires fits { StandingFits shared.now self.old }
        requires layout { W.classes port.old ≡ classes shared.now }
        ensures step { StandingSteps W.relation shared.now self.old free port.old self.new port.new result }
        ensures fits { StandingFits shared.now self.new }
        ensures layout { W.classes port.new ≡ classes shared.now }
    {
        shared.shared_law();
        shared.table().table_law();
        if self.is_fresh() {
            self.step_first(port, shared, free)
        } else {
            self.step_next(port, shared)
        }
    }

    /// The first step of an instruction, which is planned once.
    fn step_first<W: WordPort>(
        &mut self,
        port: &mut W,
        shared: &Shared,
        free: Option<u8>,
    ) -> Absorbed
        requires sound { IsSound shared.now }
        requires fits { StandingFits shared.now self.old }
        requires fresh { self.old.doing ≡ Doing.Fresh }
        requires layout { W.classes port.old ≡ classes shared.now }
        ensures step { StandingSteps W.relation shared.now self.old free port.old self.new port.new result }
        ensures layout { W.classes port.new ≡ classes shared.now }
    {
        let next = self.state.next(shared, self.class);
        let answer = port.perform(self.planned_op(shared, &next));
        self.absorb_first(shared, &next, free, answer)
    }

    /// A step that isn't the first of its instruction.
    fn step_next<W: WordPort>(&mut self, port: &mut W, shared: &Shared) -> Absorbed
        requires sound { IsSound shared.now }
        requires fits { StandingFits shared.now self.old }
        requires begun { self.old.doing ≡ Doing.Fresh → ⊥ }
        requires layout { W.classes port.old ≡ classes shared.now }
        ensures step { (free : Option ℕ) → StandingSteps W.relation shared.now self.old free port.old self.new port.new result }
        ensures layout { W.classes port.new ≡ classes shared.now }
    {
        let answer = port.perform(self.doing.next_op(shared.table(), self.class));
        self.absorb_next(shared, answer)
    }

    /// Takes the answer at a step that isn't the first of its instruction.
    #[inline(always)]
    fn absorb_next(&mut self, shared: &Shared, answer: u64) -> Absorbed
        requires fits { StandingFits shared.now self.old }
        requires begun { self.old.doing ≡ Doing.Fresh → ⊥ }
        requires place { self.old.process.place < 256 }
        requires table { self.old.class < classes shared.now }
        ensures { Absorbs shared.now self.old self.new (after_told self.old.process (doing_told (doing_in shared.now.table self.old.doing) answer)) result }
    {
        let step = self
            .doing
            .step(self.class, &mut self.state, shared.table(), answer);
        self.over = step.over;
        Absorbed {
            outcome: with_reply(&self.state, step.outcome),
            made: Made::Nothing,
            effect: step.effect,
        }
    }

    /// Takes the answer at the first step of its next instruction.
    fn absorb_first(
        &mut self,
        shared: &Shared,
        next: &Next,
        free: Option<u8>,
        answer: u64,
    ) -> Absorbed
        requires sound { IsSound shared.now }
        requires fits { StandingFits shared.now self.old }
        requires fresh { self.old.doing ≡ Doing.Fresh }
        requires next { IsNext self.old.class self.old.process (plan shared.now self.old.class self.old.process) next.now }
        requires passed { NextPassed shared.now.table self.old.process next.now }
        ensures { Absorbs shared.now self.old self.new (absorb shared.now self.old.class (running_of shared.now self.old) free answer) result }
    {
        match next {
            Next::Own => self.perform(shared),
            Next::Begin { script, start } => self.begin_process(free, *script, *start),
            Next::Ask(request) => self.ask(shared, request, answer),
        }
    }

    /// Carries out an instruction that takes effect on the process alone.
    fn perform(&mut self, shared: &Shared) -> Absorbed
        requires can { CanStep shared.now self.old.class self.old.process }
        requires own { is_own (plan shared.now self.old.class self.old.process) ≡ true }
        requires fresh { self.old.doing ≡ Doing.Fresh }
        ensures { (free : Option ℕ) (answer : ℕ) → Absorbs shared.now self.old self.new
            (plan_absorbed shared.now self.old.class self.old.process free answer (plan shared.now self.old.class self.old.process)) result }
    {
        self.state.perform_own(shared, self.class);
        self.ended(Made::Nothing)
    }

    /// What an instruction that took effect at its one step comes to.
    fn ended(&self, made: Made) -> Absorbed
        ensures { result ≡ ended_with self.now.process made }
    {
        Absorbed {
            outcome: Outcome::Done(self.state.reply_held()),
            made,
            effect: true,
        }
    }

    /// A new process for the free slot, or a refusal where there is none.
    fn begin_process(&mut self, free: Option<u8>, script: u8, start: u64) -> Absorbed
        requires place { self.old.process.place < 256 }
        requires fresh { self.old.doing ≡ Doing.Fresh }
        ensures { (s : Shared) → Absorbs s self.old self.new
            (begin_in self.old.process (new_process self.old.class script self.old.process.ring start) free) result }
    {
        let ring = self.state.ring();
        let Some(slot) = free else {
            self.state.refuse(Rule::NoSlot);
            return self.ended(Made::Nothing);
        };
        self.state.answer(slot as u64);
        self.ended(Made::Child {
            slot,
            script,
            ring,
            start,
        })
    }

    /// Asks the state: the answer to the first operation of a request.
    fn ask(&mut self, shared: &Shared, request: &Request, answer: u64) -> Absorbed
        requires sound { IsSound shared.now }
        requires class { self.old.class < classes shared.now }
        requires fits { AskedFits shared.now self.old.class request.now }
        requires passed { Passed shared.now.table self.old.process request.now }
        requires place { self.old.process.place < 256 }
        requires fresh { self.old.doing ≡ Doing.Fresh }
        ensures { Absorbs shared.now self.old self.new (after_told self.old.process
            (act_told (act shared.now self.old.class self.old.process.ring (request_of self.old.process request.now)) answer)) result }
    {
        if is_once(request) {
            let absorbed = ask_once(shared, self.class, &mut self.state, request, answer);
            Absorbed {
                outcome: with_reply(&self.state, absorbed.outcome),
                made: absorbed.made,
                effect: absorbed.effect,
            }
        } else {
            begin(
                &mut self.doing,
                shared,
                self.class,
                &self.state,
                request,
                answer,
            );
            self.over = false;
            Absorbed {
                outcome: Outcome::Going,
                made: Made::Nothing,
                effect: false,
            }
        }
    }
}
