//! A configuration, printed.
#![tactic(auto)]

ghost use Rattle.std.specs.Prelude.{◌≡◌, ◌≤◌, ◌++◌, map, length, OnOk, IfOk, string_bytes};
ghost use Rattle.std.specs.Fmt.{decimal};
ghost use Rattle.std.specs.List.{flat_map};
ghost use Rattle.text_lines.specs.Printed.{printed};
ghost use Rattle.script_asm.specs.Spelling.{max_text};
ghost use Rattle.config_text.specs.declared.config.Config.{Config as ConfigValue};
ghost use Rattle.config_text.specs.Text.{Spells, IsReadAs};
ghost use Rattle.config_text.specs.Valid.{IsValid};
ghost use Rattle.config_text.specs.Written as spec;
ghost use Rattle.config_text.specs.Written.{texts_of};

use config_text::{Config, ConfigError, GateLine, Item, Pool, ProcessLine, Script, read_config};
use itoa::Buffer;
use labels::{ClassTable, Label};
use script_asm::print;
use std::alloc::{AllocError, Global};

/// Writes the number in decimal digits.
fn push_number(out: &mut String, n: u64) -> Result<(), AllocError>
    ensures { OnOk result (string_bytes out.new ≡ string_bytes out.old ++ decimal n) }
{
    let mut digits = Buffer::new();
    out.push_str(digits.format(n))
}

/// Writes a line of a keyword and a number.
#[tactic(auto, using(crate::proofs::Pieces::pieces))]
fn push_number_line(out: &mut String, keyword: &str, n: u64) -> Result<(), AllocError>
    ensures { OnOk result (string_bytes out.new ≡ string_bytes out.old ++ spec.ended (spec.number_line keyword.now n)) }
{
    out.push_str(keyword)?;
    out.push_str(" ")?;
    push_number(out, n)?;
    out.push_str("\n")?;
    Ok(())
}

/// Writes the front of the line of a class: its name and label.
#[tactic(auto, using(crate::proofs::Pieces::pieces))]
fn push_class(out: &mut String, name: &str, label: &Label) -> Result<(), AllocError>
    ensures { OnOk result (string_bytes out.new ≡ string_bytes out.old ++ spec.class_text name.now label.now) }
{
    let text = label.text();
    out.push_str("class ")?;
    out.push_str(name)?;
    out.push_str(" ")?;
    out.push_str(text.as_str())?;
    Ok(())
}

/// Writes the rest of the line of a class: its pool.
#[tactic(auto, using(crate::proofs::Pieces::pieces))]
fn push_pool(out: &mut String, pool: &Pool) -> Result<(), AllocError>
    ensures { OnOk result (string_bytes out.new ≡ string_bytes out.old ++ spec.pool_text pool.now) }
{
    out.push_str(" frames ")?;
    push_number(out, u64::from(pool.frames))?;
    out.push_str(" pages ")?;
    push_number(out, u64::from(pool.pages))?;
    out.push_str(" volume ")?;
    push_number(out, u64::from(pool.volume))?;
    out.push_str("\n")?;
    Ok(())
}

/// Writes the lines of the classes.
fn push_classes(out: &mut String, table: &ClassTable, pools: &[Pool]) -> Result<(), AllocError>
    requires { length pools.now ≡ length table.now }
    ensures { OnOk result (string_bytes out.new ≡ string_bytes out.old ++ printed (texts_of (spec.class_lines table.now pools.now))) }
{
    for class in 0..table.count() {
        push_class(out, table.name(class), table.label(class))?;
        push_pool(out, &pools[class as usize])?;
    }
    Ok(())
}

/// Writes the line of the cycle.
#[tactic(auto, using(crate::proofs::Pieces::cycles))]
fn push_cycle(out: &mut String, cycle: &[u8]) -> Result<(), AllocError>
    ensures { OnOk result (string_bytes out.new ≡ string_bytes out.old ++ spec.ended (spec.cycle_line cycle.now)) }
{
    out.push_str("cycle")?;
    for class in cycle {
        out.push_str(" ")?;
        push_number(out, u64::from(*class))?;
    }
    out.push_str("\n")?;
    Ok(())
}

/// Writes a script.
#[tactic(auto, using(crate::proofs::Pieces::scripts))]
fn push_script(alloc: Global, out: &mut String, script: &Script) -> Result<(), AllocError>
    ensures { OnOk result (string_bytes out.new ≡ string_bytes out.old ++ printed (texts_of (spec.script_lines script.now))) }
{
    push_number_line(out, "script", u64::from(script.class))?;
    let text = print(alloc, &script.program)?;
    out.push_str(text.as_str())?;
    out.push_str("end\n")?;
    Ok(())
}

/// Writes the scripts.
fn push_scripts(alloc: Global, out: &mut String, scripts: &[Script]) -> Result<(), AllocError>
    ensures { OnOk result (string_bytes out.new ≡ string_bytes out.old ++ printed (texts_of (flat_map spec.script_lines scripts.now))) }
{
    for script in scripts {
        push_script(alloc, out, script)?;
    }
    Ok(())
}

/// Writes the line of a gate.
#[tactic(auto, using(crate::proofs::Pieces::pieces))]
fn push_gate(out: &mut String, gate: &GateLine) -> Result<(), AllocError>
    ensures { OnOk result (string_bytes out.new ≡ string_bytes out.old ++ spec.ended (spec.gate_line gate.now)) }
{
    out.push_str("gate ")?;
    push_number(out, u64::from(gate.class))?;
    out.push_str(" ")?;
    push_number(out, u64::from(gate.script))?;
    out.push_str(" ")?;
    push_number(out, u64::from(gate.brackets.r1))?;
    out.push_str(" ")?;
    push_number(out, u64::from(gate.brackets.r2))?;
    out.push_str(" ")?;
    push_number(out, u64::from(gate.brackets.r3))?;
    out.push_str("\n")?;
    Ok(())
}

/// Writes the lines of the gates.
fn push_gates(out: &mut String, gates: &[GateLine]) -> Result<(), AllocError>
    ensures { OnOk result (string_bytes out.new ≡ string_bytes out.old ++ printed (texts_of (map spec.gate_line gates.now))) }
{
    for gate in gates {
        push_gate(out, gate)?;
    }
    Ok(())
}

/// Writes the line of a process.
#[tactic(auto, using(crate::proofs::Pieces::pieces))]
fn push_process(out: &mut String, line: &ProcessLine) -> Result<(), AllocError>
    ensures { OnOk result (string_bytes out.new ≡ string_bytes out.old ++ spec.ended (spec.process_line line.now)) }
{
    out.push_str("process ")?;
    push_number(out, u64::from(line.processor))?;
    out.push_str(" ")?;
    push_number(out, u64::from(line.class))?;
    out.push_str(" ")?;
    push_number(out, u64::from(line.script))?;
    out.push_str(" ")?;
    push_number(out, u64::from(line.ring.0))?;
    out.push_str("\n")?;
    Ok(())
}

/// Writes the lines of the processes.
fn push_processes(out: &mut String, lines: &[ProcessLine]) -> Result<(), AllocError>
    ensures { OnOk result (string_bytes out.new ≡ string_bytes out.old ++ printed (texts_of (map spec.process_line lines.now))) }
{
    for line in lines {
        push_process(out, line)?;
    }
    Ok(())
}

/// Writes an item of the schedule.
#[tactic(auto, using(crate::proofs::Pieces::pieces))]
fn push_item(out: &mut String, item: &Item) -> Result<(), AllocError>
    ensures { OnOk result (string_bytes out.new ≡ string_bytes out.old ++ spec.ended (spec.item_line item.now)) }
{
    match item {
        Item::Events {
            processor,
            class,
            count,
        } => {
            out.push_str("events ")?;
            push_number(out, u64::from(*processor))?;
            out.push_str(".")?;
            push_number(out, u64::from(*class))?;
            out.push_str("*")?;
            push_number(out, u64::from(*count))?;
            out.push_str("\n")?;
            Ok(())
        }
        Item::Mix { start, count } => {
            out.push_str("mix ")?;
            push_number(out, *start)?;
            out.push_str(" ")?;
            push_number(out, u64::from(*count))?;
            out.push_str("\n")?;
            Ok(())
        }
        Item::Sweep { rounds } => push_number_line(out, "sweep", u64::from(*rounds)),
    }
}

/// Writes the items of the schedule, one a line.
fn push_items(out: &mut String, items: &[Item]) -> Result<(), AllocError>
    ensures { OnOk result (string_bytes out.new ≡ string_bytes out.old ++ printed (texts_of (map spec.item_line items.now))) }
{
    for item in items {
        push_item(out, item)?;
    }
    Ok(())
}

/// Writes the lines before the scripts.
fn push_header(out: &mut String, config: &Config) -> Result<(), AllocError>
    requires { length config.now.pools ≡ length config.now.table }
    ensures { OnOk result (string_bytes out.new ≡ string_bytes out.old ++ printed (texts_of (spec.front_lines config.now))) }
{
    out.push_str("gemkernel 1\n")?;
    push_number_line(out, "classes", u64::from(config.table.count()))?;
    push_classes(out, &config.table, config.pools.as_slice())?;
    push_number_line(out, "processors", u64::from(config.processors))?;
    push_cycle(out, config.cycle.as_slice())?;
    push_number_line(out, "rounds", u64::from(config.rounds))?;
    push_number_line(out, "quantum", u64::from(config.quantum))?;
    push_number_line(out, "console", u64::from(config.console))?;
    Ok(())
}

/// The text of a configuration.
fn write_config(alloc: Global, config: &Config) -> Result<String, AllocError>
    requires { length config.now.pools ≡ length config.now.table }
    ensures { IfOk result (λ t. string_bytes t ≡ spec.written config.now) }
{
    let mut out = String::new(alloc);
    push_header(&mut out, config)?;
    push_scripts(alloc, &mut out, config.scripts.as_slice())?;
    push_gates(&mut out, config.gates.as_slice())?;
    push_processes(&mut out, config.processes.as_slice())?;
    push_items(&mut out, config.schedule.as_slice())?;
    out.push_str("end\n")?;
    Ok(out)
}

/// The text of a configuration: its lines in their order, with one blank between words and decimal numbers, one event
/// item a line, and each line ended by a line feed.
#[tactic(auto, using(crate::proofs::PrintedConfig::printing))]
pub fn print_config(alloc: Global, config: &Config) -> Result<String, AllocError>
    requires { IsValid config.now }
    ensures text { IfOk result (λ t. string_bytes t ≡ spec.written config.now) }
    // The text spells the configuration, so it is read as it.
    ensures spells { IfOk result (λ t. Spells (string_bytes t) config.now) }
{
    write_config(alloc, config)
}

/// Each valid configuration is spelled by its printed text, so reading gives it back.
#[tactic(auto, using(crate::proofs::PrintedConfig::laws))]
pub fn printing_law()
    ensures { (k : ConfigValue) → IsValid k → Spells (spec.written k) k }
{}

/// The configuration that its own printed text spells, which is the same, unless memory runs out.
pub fn printed_again(alloc: Global, config: &Config) -> Result<Config, ConfigError>
    requires valid { IsValid config.now }
    requires short { length (spec.written config.now) ≤ max_text }
    ensures { IsReadAs config.now result }
{
    let text = print_config(alloc, config)?;
    read_config(alloc, text.as_str().as_bytes())
}

#[cfg(test)]
mod tests;
