//! Reading a configuration.

ghost use Rattle.std.specs.Prelude.{◌≡◌, ◌+◌, ◌^◌, ◌<◌, ◌≤◌, ℕ, IfOk, length, map};
ghost use Rattle.text_lines.specs.Lines.{lines, views};
ghost use Rattle.labels.specs.Table.{IsTable, entry_of};
ghost use Rattle.script_asm.specs.Spelling.{max_text};
ghost use Rattle.config_text.specs.declared.fault.ConfigError.TheVariants.{Fault};
ghost use Rattle.config_text.specs.declared.config.Config.{Config as ConfigValue};
ghost use Rattle.config_text.specs.Codes.{code_number};
ghost use Rattle.config_text.specs.Place.{place_of, config_in, start};
ghost use Rattle.config_text.specs.Rules.{is_unended};
ghost use Rattle.config_text.specs.Reading.{Reads, StopFits, error_of, lines_answer_from};
ghost use Rattle.config_text.specs.Text.{AnswersText, Spells, IsFault, IsReadAs, IsRefusedWith};

use crate::config::Config;
use crate::draft::Draft;
use crate::fault::{Code, ConfigError, Stop};
use crate::stage::Stage;
use arrayvec::ArrayString;
use labels::{ClassTable, Label};
use lists::Items;
use std::alloc::{AllocError, Global};
use text_lines::Lines;

fn is_unended_draft(draft: &Draft) -> bool
    ensures { result ≡ is_unended draft.now.stage }
{
    !matches!(draft.stage, Stage::Ended)
}

/// The fault of a line, counted from 1.
fn fault_at(line: usize, code: Code) -> ConfigError
    requires { line < 2 ^ 32 }
    ensures { result ≡ Fault line (code_number code) }
{
    ConfigError::Fault {
        line: line as u32,
        code: code as u8,
    }
}

/// Why a text is no configuration, where this stops the line, which is counted from 1.
fn stopped(line: usize, stop: Stop) -> ConfigError
    requires { StopFits line stop }
    ensures { result ≡ error_of line stop }
{
    match stop {
        Stop::Fault { offset, code } => fault_at(line + offset, code),
        Stop::Memory => ConfigError::NoMemory,
    }
}

/// What the lines say.
fn read(alloc: Global, lines: &[&[u8]]) -> Result<Draft, ConfigError>
    requires { length lines.now + 2 < 2 ^ 32 }
    ensures { Reads result (lines_answer_from start 1 (views lines.now)) }
{
    let mut draft = Draft::new(alloc);
    let mut index = 0;
    while index < lines.len() {
        match draft.step(alloc, lines[index], &lines[index + 1..]) {
            Ok(count) => index += 1 + count,
            Err(stop) => return Err(stopped(index + 1, stop)),
        }
    }
    if is_unended_draft(&draft) {
        return Err(fault_at(index + 1, Code::Missing));
    }
    Ok(draft)
}

/// The table of these classes.
fn table_of(entries: Vec<(ArrayString<16>, Label)>) -> ClassTable
    requires { IsTable (map entry_of entries.items) }
    ensures { result ≡ map entry_of entries.items }
{
    match ClassTable::new(entries) {
        Ok(table) => table,
        Err(_) => unreachable!(),
    }
}

/// The configuration of a draft whose classes are a table.
fn finished(draft: Draft) -> Config
    requires { IsTable (place_of draft).table }
    ensures { result ≡ config_in (place_of draft) }
{
    let Draft {
        stage: _,
        due: _,
        entries,
        pools,
        processors,
        cycle,
        rounds,
        quantum,
        console,
        scripts,
        gates,
        processes,
        schedule,
        used: _,
    } = draft;
    Config {
        table: table_of(entries),
        pools: Items::of(pools),
        processors,
        cycle: Items::of(cycle),
        rounds,
        quantum,
        console,
        scripts: Items::of(scripts),
        gates: Items::of(gates),
        processes: Items::of(processes),
        schedule: Items::of(schedule),
    }
}

/// The lines of a text, in a list.
fn line_list(alloc: Global, text: &[u8]) -> Result<Vec<&[u8]>, AllocError>
    ensures { IfOk result (λ v. views v.items ≡ lines text.now) }
{
    Lines::new(text).collect(alloc)
}

/// The configuration that the text spells, or its first faulty line with that line's least code. The text has at most
/// 1,048,576 bytes.
pub fn read_config(alloc: Global, text: &[u8]) -> Result<Config, ConfigError>
    requires { length text.now ≤ max_text }
    // What is read is spelled so, and a fault is the first one, with its least code.
    ensures right { AnswersText text.now result }
    // What is spelled so is read, and what is faulty is refused with that fault, unless memory runs out.
    ensures only { (k : ConfigValue) → Spells text.now k → IsReadAs k result }
    ensures refused { (line code : ℕ) → IsFault text.now line code → IsRefusedWith line code result }
{
    let list = line_list(alloc, text)?;
    match read(alloc, list.as_slice()) {
        Ok(draft) => Ok(finished(draft)),
        Err(error) => Err(error),
    }
}
