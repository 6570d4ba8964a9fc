//! What no step changes: the classes with their pools, the console size, the scripts and the gates.

ghost use Rattle.std.specs.Prelude.{◌≡◌, ◌<◌, slice_index_or, IfSome};
ghost use Rattle.std.specs.Option.{option_map};
ghost use Rattle.class_model.specs.Config.{classes, flows, pool_of, instr_at};
ghost use Rattle.class_model.specs.Next.{EndsOrInside};
ghost use Rattle.class_model.specs.Shared.{IsShared, script_at, gate_at, has_script};

use labels::ClassTable;
use lists::Items;
use rings::Brackets;
use script_lang::{Instr, Program};
use std::marker::Model;

/// How many frames and pages a class has: at most 16 and 32.
#[derive(Clone, Copy, Debug, PartialEq, Eq)]
pub struct Pool {
    pub frames: u8,
    pub pages: u8,
}

impl Model for Pool {
    ghost use Rattle.class_model.specs.Config.{Pool as PoolValue};

    ghost Value = { PoolValue };

    ghost view = { λ p. record { frames = p.frames; pages = p.pages } };

    ghost inverse = { λ v. record { frames = v.frames; pages = v.pages } };
}

/// A script: its class and its instructions.
#[derive(Drop)]
pub struct Script {
    pub class: u8,
    pub program: Program,
}

impl Model for Script {
    ghost use Rattle.class_model.specs.Config.{Script as ScriptValue};

    ghost Value = { ScriptValue };

    ghost view = { λ s. record { class = s.class; program = s.program } };
}

/// A gate: its class, the place of its script, and its brackets.
#[derive(Clone, Copy, Debug, PartialEq, Eq)]
pub struct Gate {
    pub class: u8,
    pub script: u8,
    pub brackets: Brackets,
}

impl Model for Gate {
    ghost use Rattle.class_model.specs.Config.{Gate as GateValue};

    ghost Value = { GateValue };

    ghost view = { λ g. record { class = g.class; script = g.script; brackets = g.brackets } };

    ghost inverse = { λ v. record { class = v.class; script = v.script; brackets = v.brackets } };
}

/// What no step changes. None is an empty place. There is one pool for each class of the table, every class that is
/// named is of the table, the script of each gate is there, and its class is at or below the gate's.
#[derive(Drop)]
pub struct Shared {
    pub table: ClassTable,
    pub pools: Items<Pool>,
    /// How many lines a class may print: at most 4,096.
    pub console: u32,
    /// At most 32.
    pub scripts: Items<Option<Script>>,
    /// At most 32.
    pub gates: Items<Option<Gate>>,
}

impl Model for Shared {
    ghost use Rattle.class_model.specs.Config.{Shared as SharedValue};
    ghost use Rattle.class_model.specs.Shared.{IsShared, script_at, gate_at, has_script};

    ghost Value = { SharedValue };

    ghost view = { λ s. record { table = s.table; pools = s.pools; console = s.console; scripts = s.scripts; gates = s.gates } };

    ghost invariant = { λ s. IsShared (record { table = s.table; pools = s.pools; console = s.console; scripts = s.scripts; gates = s.gates }) };
}

impl Shared {
    /// What holds of all that no step changes.
    pub fn shared_law(&self)
        ensures { IsShared self.now }
    {
        let _ = &self.table;
    }

    /// The classes.
    pub fn table(&self) -> &ClassTable
        ensures { result.now ≡ self.now.table }
    {
        &self.table
    }

    /// How many lines a class may print.
    pub fn console(&self) -> u32
        ensures { result ≡ self.now.console }
    {
        self.console
    }

    /// The pool of a class.
    pub fn pool(&self, class: u8) -> Pool
        requires { class < classes self.now }
        ensures { result ≡ pool_of self.now class }
    {
        self.pools.as_slice()[class as usize]
    }

    /// Whether `c <= d` by the table.
    pub fn flows(&self, c: u8, d: u8) -> bool
        requires c { c < classes self.now }
        requires d { d < classes self.now }
        ensures { result ≡ flows self.now c d }
    {
        self.table.below(c, d)
    }

    /// The script at a place. None exactly where the place is empty.
    pub fn script(&self, place: u8) -> Option<&Script>
        ensures script { option_map (λ s. s.now) result ≡ script_at self.now place }
        ensures class { IfSome result (λ s. s.now.class < classes self.now) }
    {
        let scripts = self.scripts.as_slice();
        if place as usize >= scripts.len() {
            return None;
        }
        scripts[place as usize].as_ref()
    }

    /// Whether a script is at that place, and its class at or below `class`.
    pub fn has_script(&self, place: u8, class: u8) -> bool
        requires { class < classes self.now }
        ensures { result ≡ has_script self.now class place }
    {
        match self.script(place) {
            Some(script) => self.flows(script.class, class),
            None => false,
        }
    }

    /// The gate at a place. None exactly where the place is empty.
    pub fn gate(&self, place: u8) -> Option<Gate>
        ensures gate { result ≡ gate_at self.now place }
        ensures class { IfSome result (λ g. g.class < classes self.now) }
    {
        let gates = self.gates.as_slice();
        if place as usize >= gates.len() {
            return None;
        }
        gates[place as usize]
    }

    /// The instruction at a place of a script; `halt` where there is none.
    pub fn instr_at(&self, script: u8, place: u16) -> Instr
        ensures instr { result ≡ instr_at self.now script place }
        ensures inside { EndsOrInside result place }
    {
        match self.script(script) {
            None => Instr::Halt,
            Some(script) => instr_of(script, place),
        }
    }
}

/// The instruction at a place of a script; `halt` past its end.
#[tactic(auto, using(crate::proofs::Programs::program_length))]
fn instr_of(script: &Script, place: u16) -> Instr
    ensures instr { result ≡ slice_index_or script.now.program place Instr.Halt }
    ensures inside { EndsOrInside result place }
{
    let list = script.program.list();
    if place as usize >= list.len() {
        return Instr::Halt;
    }
    list[place as usize]
}
