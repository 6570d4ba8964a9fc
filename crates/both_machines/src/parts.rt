//! What the small runs start with: one class with a script, and a process at the start of it.

ghost use Rattle.std.specs.Prelude.{◌≡◌, ◌<◌, [], ◌∷◌, Some, IfSome, IfOk, true, length};
ghost use Rattle.script_lang.specs.Program.{program_ok};
ghost use Rattle.class_model.specs.Config.{classes};
ghost use Rattle.process.specs.Standing.{StandingFits};

use arrayvec::ArrayString;
use class_model::{Gate, Pool, Script, Shared};
use labels::{ClassTable, Label};
use lists::Items;
use process::Process;
use rings::Ring;
use script_lang::{Instr, Program, Reg};
use std::alloc::Global;
use std::test::Fail;

/// One class with a frame and a page, one console line, and one script.
fn one_script(
    table: ClassTable,
    pool: Items<Pool>,
    script: Items<Option<Script>>,
    gates: Items<Option<Gate>>,
    program: &Program,
) -> Shared
    requires table { length table ≡ 1 }
    requires pool { pool ≡ record { frames = 1; pages = 1 } ∷ [] }
    requires program { program_ok program.now ≡ true }
    requires script { script ≡ Some (record { class = 0; program = program.now }) ∷ [] }
    requires gates { gates ≡ [] }
    ensures { classes result ≡ 1 }
{
    Shared {
        table,
        pools: pool,
        console: 1,
        scripts: script,
        gates,
    }
}

/// The register of that number.
pub fn register(number: u8) -> Result<Reg, Fail> {
    Ok(Reg::new(number).ok_or("a register")?)
}

/// The class `low` with these instructions as its script.
pub fn shared_with(alloc: Global, script: Vec<Instr>) -> Result<Shared, Fail>
    ensures { IfOk result (λ s. classes s ≡ 1) }
{
    let name: ArrayString<16> = ArrayString::from("low").ok().ok_or("a name")?;
    let mut entries = Vec::new(alloc);
    entries.push((name, Label::parse("0{}/15{}").ok().ok_or("a label")?))?;
    let table = ClassTable::new(entries).ok().ok_or("a table")?;
    if table.count() != 1 {
        return Err(Fail::from("one class"));
    }
    let program = Program::new(script).ok().ok_or("a program")?;
    let kept = program.copy(alloc)?;
    let _list = kept.list();
    let mut pools = Vec::new(alloc);
    pools.push(Pool {
        frames: 1,
        pages: 1,
    })?;
    let mut scripts = Vec::new(alloc);
    scripts.push(Some(Script { class: 0, program }))?;
    let pool = Items::of(pools);
    let script = Items::of(scripts);
    let gates = Items::of(Vec::new(alloc));
    Ok(one_script(table, pool, script, gates, &kept))
}

/// A process at the start of script 0, with this number in r2, where that script is there.
pub fn opened(shared: &Shared, class: u8, number: u64) -> Option<Process>
    requires { class < classes shared.now }
    ensures { IfSome result (λ p. (p.class ≡ class) × StandingFits shared.now p) }
{
    machine::fitting_laws();
    shared.shared_law();
    shared.table().table_law();
    if !shared.has_script(0, class) {
        return None;
    }
    Some(Process::new(class, 0, Ring(4), number))
}
