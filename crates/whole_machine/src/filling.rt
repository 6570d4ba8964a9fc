//! Scripts and gates, put one after the other.

ghost use Rattle.std.specs.Prelude.{◌≡◌, ◌<◌, ◌++◌, ◌∷◌, [], true, IfOk, IfSome, OnErr, Some, length};
ghost use Rattle.script_lang.specs.Program.{program_ok};
ghost use Rattle.class_model.specs.Config.{Script as ScriptValue, Gate as GateValue, classes};
ghost use Rattle.class_model.specs.Shared.{IsScript, IsGate};

use crate::state::ModelState;
use class_model::{Gate, Script, Shared};
use lists::Items;
use std::alloc::{AllocError, Global};
use std::mem::replace;

/// The scripts with one more. NoMemory changes nothing.
fn with_script(
    scripts: Items<Option<Script>>,
    script: Option<Script>,
) -> (Items<Option<Script>>, Result<(), AllocError>)
    ensures ok { IfOk result.1 (λ _. result.0 ≡ scripts ++ script ∷ []) }
    ensures err { OnErr result.1 (result.0 ≡ scripts) }
{
    let mut list = scripts.into_vec();
    match list.push(script) {
        Ok(()) => (Items::of(list), Ok(())),
        Err(_) => (Items::of(list), Err(AllocError)),
    }
}

/// The gates with one more. NoMemory changes nothing.
fn with_gate(
    gates: Items<Option<Gate>>,
    gate: Option<Gate>,
) -> (Items<Option<Gate>>, Result<(), AllocError>)
    ensures ok { IfOk result.1 (λ _. result.0 ≡ gates ++ gate ∷ []) }
    ensures err { OnErr result.1 (result.0 ≡ gates) }
{
    let mut list = gates.into_vec();
    match list.push(gate) {
        Ok(()) => (Items::of(list), Ok(())),
        Err(_) => (Items::of(list), Err(AllocError)),
    }
}

/// One script more, or an empty place. NoMemory changes nothing.
fn push_script(alloc: Global, shared: &mut Shared, script: Option<Script>) -> Result<(), AllocError>
    requires few { length shared.old.scripts < 32 }
    requires script { (x : ScriptValue) → script ≡ Some x → IsScript shared.old x }
    ensures ok { IfOk result (λ _. shared.new ≡ record shared.old { scripts = shared.old.scripts ++ script ∷ [] }) }
    ensures err { OnErr result (shared.new ≡ shared.old) }
{
    let scripts = replace(&mut shared.scripts, Items::of(Vec::new(alloc)));
    let (scripts, pushed) = with_script(scripts, script);
    shared.scripts = scripts;
    pushed
}

/// One gate more, or an empty place. NoMemory changes nothing.
fn push_gate(alloc: Global, shared: &mut Shared, gate: Option<Gate>) -> Result<(), AllocError>
    requires few { length shared.old.gates < 32 }
    requires gate { (x : GateValue) → gate ≡ Some x → IsGate shared.old x }
    ensures ok { IfOk result (λ _. shared.new ≡ record shared.old { gates = shared.old.gates ++ gate ∷ [] }) }
    ensures err { OnErr result (shared.new ≡ shared.old) }
{
    let gates = replace(&mut shared.gates, Items::of(Vec::new(alloc)));
    let (gates, pushed) = with_gate(gates, gate);
    shared.gates = gates;
    pushed
}

impl ModelState {
    /// Puts a script at the next place. None is an empty place.
    pub fn put_script(&mut self, script: Option<Script>) -> Result<(), AllocError>
        requires few { length self.old.shared.scripts < 32 }
        requires script { (x : ScriptValue) → script ≡ Some x → IsScript self.old.shared x }
        ensures ok { IfOk result (λ _. self.new ≡ record self.old { shared = record self.old.shared { scripts = self.old.shared.scripts ++ script ∷ [] } }) }
        ensures err { OnErr result (self.new ≡ self.old) }
    {
        push_script(self.alloc, &mut self.shared, script)
    }

    /// Puts a gate at the next place. None is an empty place.
    pub fn put_gate(&mut self, gate: Option<Gate>) -> Result<(), AllocError>
        requires few { length self.old.shared.gates < 32 }
        requires gate { (x : GateValue) → gate ≡ Some x → IsGate self.old.shared x }
        ensures ok { IfOk result (λ _. self.new ≡ record self.old { shared = record self.old.shared { gates = self.old.shared.gates ++ gate ∷ [] } }) }
        ensures err { OnErr result (self.new ≡ self.old) }
    {
        push_gate(self.alloc, &mut self.shared, gate)
    }
}
