//! Whether the next instruction of a process passes its private tests.

ghost use Rattle.std.specs.Prelude.{◌≡◌, ◌<◌, false, nat_lt, length};
ghost use Rattle.rings.specs.Brackets.{call_ring};
ghost use Rattle.class_model.specs.Config.{classes};
ghost use Rattle.class_model.specs.Next.{CanStep, asks};
ghost use Rattle.class_model.specs.Passing.{passes_by, passes_next};
ghost use Rattle.class_model.specs.Plan.{call, called, plan_of};
ghost use Rattle.class_model.specs.Shared.{gate_at};

use crate::config::{Gate, Shared};
use crate::process::ProcessState;
use script_lang::Instr;

impl ProcessState {
    /// Whether it enters a gate: its ring is one that may call it, and the ring stack isn't full.
    #[tactic(auto, using(crate::proofs::Passes::entered))]
    fn may_enter(&self, gate: &Gate) -> bool
        ensures { result ≡ nat_lt (length self.now.stack) (length (called self.now gate.now (call_ring gate.now.brackets self.now.ring)).stack) }
    {
        gate.brackets.call_ring(self.ring).is_some() && self.stack.len() < 8
    }

    /// Whether it calls a gate: it is there, at or below the class, and entered.
    fn may_call(&self, shared: &Shared, class: u8, number: u8) -> bool
        requires { class < classes shared.now }
        ensures { result ≡ nat_lt (length self.now.stack) (length (call shared.now class self.now (gate_at shared.now number)).stack) }
    {
        match shared.gate(number) {
            None => false,
            Some(gate) => shared.flows(gate.class, class) && self.may_enter(&gate),
        }
    }

    /// Whether an instruction that doesn't ask the state passes, where a slot is free or not.
    fn passes_alone(&self, shared: &Shared, class: u8, free: bool, instr: &Instr) -> bool
        requires class { class < classes shared.now }
        requires alone { asks instr.now ≡ false }
        ensures { result ≡ passes_by free self.now instr.now (plan_of shared.now class self.now instr.now) }
    {
        match *instr {
            Instr::Call(gate) => self.may_call(shared, class, gate.number()),
            Instr::Ret => !self.stack.is_empty(),
            Instr::Terminate(segment) => self.known(self.register(segment)).is_some(),
            Instr::Spawn(script, _) => free && shared.has_script(script.number(), class),
            _ => true,
        }
    }

    /// Whether it is live and its next instruction passes its private tests, where a slot is free or not.
    #[tactic(auto, using(crate::proofs::Passes::asked))]
    pub fn passes(&self, shared: &Shared, class: u8, free: bool) -> bool
        requires { CanStep shared.now class self.now }
        ensures { result ≡ passes_next shared.now class free self.now }
    {
        if !self.live {
            return false;
        }
        let instr = shared.instr_at(self.script(), self.place());
        match self.ask(shared, &instr) {
            Some(asked) => asked.is_ok(),
            None => self.passes_alone(shared, class, free, &instr),
        }
    }
}
