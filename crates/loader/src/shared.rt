//! What no step changes, copied from the configuration as a view shows it.

ghost use Rattle.std.specs.Prelude.{◌≡◌, ◌<◌, [], IfOk, map, length};
ghost use Rattle.std.specs.List.{All};
ghost use Rattle.config_text.specs.declared.config.Script.{Script as ScriptText};
ghost use Rattle.config_text.specs.declared.config.GateLine.{GateLine as GateText};
ghost use Rattle.config_text.specs.Valid.{IsValid};
ghost use Rattle.class_model.specs.Config.{shared_of};
ghost use Rattle.loader.specs.Configuration.{configuration, pool_of_text};
ghost use Rattle.loader.specs.Seen.{seen, IsView, script_seen, gate_seen};

use crate::seeing::is_seen;
use class_model::{Gate, Pool, Script, Shared};
use config_text::{Config, GateLine, Pool as PoolLine, Script as ScriptLine};
use labels::ClassTable;
use lists::Items;
use std::alloc::{AllocError, Global};

/// The pools of all classes.
fn pools_of(alloc: Global, lines: &[PoolLine]) -> Result<Items<Pool>, AllocError>
    ensures { IfOk result (λ pools. pools ≡ map pool_of_text lines.now) }
{
    let mut pools = Vec::new(alloc);
    for line in lines {
        pools.push(Pool {
            frames: line.frames,
            pages: line.pages,
        })?;
    }
    Ok(Items::of(pools))
}

/// A script, where the view shows it.
fn script_seen(
    alloc: Global,
    table: &ClassTable,
    view: Option<u8>,
    line: &ScriptLine,
) -> Result<Option<Script>, AllocError>
    requires view { IsView table.now view }
    requires class { line.now.class < length table.now }
    ensures { IfOk result (λ script. script ≡ script_seen table.now view line.now) }
{
    if !is_seen(table, view, line.class) {
        return Ok(None);
    }
    let program = line.program.copy(alloc)?;
    Ok(Some(Script {
        class: line.class,
        program,
    }))
}

/// The scripts that the view shows, each in its place.
fn scripts_seen(
    alloc: Global,
    table: &ClassTable,
    view: Option<u8>,
    lines: &[ScriptLine],
) -> Result<Items<Option<Script>>, AllocError>
    requires view { IsView table.now view }
    requires classes { All (λ (x : ScriptText). x.class < length table.now) lines.now }
    ensures { IfOk result (λ scripts. scripts ≡ map (script_seen table.now view) lines.now) }
{
    let mut scripts = Vec::new(alloc);
    for line in lines {
        let script = script_seen(alloc, table, view, line)?;
        scripts.push(script)?;
    }
    Ok(Items::of(scripts))
}

/// A gate, where the view shows it.
fn gate_seen(table: &ClassTable, view: Option<u8>, line: &GateLine) -> Option<Gate>
    requires view { IsView table.now view }
    requires class { line.now.class < length table.now }
    ensures { result ≡ gate_seen table.now view line.now }
{
    if !is_seen(table, view, line.class) {
        return None;
    }
    Some(Gate {
        class: line.class,
        script: line.script,
        brackets: line.brackets,
    })
}

/// The gates that the view shows, each in its place.
fn gates_seen(
    alloc: Global,
    table: &ClassTable,
    view: Option<u8>,
    lines: &[GateLine],
) -> Result<Items<Option<Gate>>, AllocError>
    requires view { IsView table.now view }
    requires classes { All (λ (g : GateText). g.class < length table.now) lines.now }
    ensures { IfOk result (λ gates. gates ≡ map (gate_seen table.now view) lines.now) }
{
    let mut gates = Vec::new(alloc);
    for line in lines {
        let gate = gate_seen(table, view, line);
        gates.push(gate)?;
    }
    Ok(Items::of(gates))
}

/// What no step changes, as the view shows it: None shows all, and a class what is at or below it.
pub fn shared_seen(alloc: Global, config: &Config, view: Option<u8>) -> Result<Shared, AllocError>
    requires valid { IsValid config.now }
    requires view { IsView config.now.table view }
    ensures { IfOk result (λ s. s ≡ shared_of (seen (configuration config.now []) view)) }
{
    let table = config.table.copy(alloc)?;
    let pools = pools_of(alloc, config.pools.as_slice())?;
    let scripts = scripts_seen(alloc, &config.table, view, config.scripts.as_slice())?;
    let gates = gates_seen(alloc, &config.table, view, config.gates.as_slice())?;
    Ok(Shared {
        table,
        pools,
        console: config.console,
        scripts,
        gates,
    })
}
