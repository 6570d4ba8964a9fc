//! Reading a release order.

ghost use Rattle.std.specs.Prelude.{◌≡◌, ◌+◌, ◌^◌, ◌<◌, ◌≤◌, ℕ, IfOk, length, map};
ghost use Rattle.text_lines.specs.Lines.{lines, views};
ghost use Rattle.text_lines.specs.Faults.{lines_answer};
ghost use Rattle.labels.specs.Table.{IsTable, entry_of};
ghost use Rattle.script_asm.specs.Spelling.{max_text};
ghost use Rattle.release_guard.specs.declared.fault.OrderError.TheVariants.{Fault};
ghost use Rattle.release_guard.specs.declared.order.Order.{Order as OrderValue};
ghost use Rattle.release_guard.specs.Codes.{code_number};
ghost use Rattle.release_guard.specs.Place.{place_of, order_in, start};
ghost use Rattle.release_guard.specs.Rules.{is_unended, order_rules};
ghost use Rattle.release_guard.specs.Reading.{Reads, error_of};
ghost use Rattle.release_guard.specs.Text.{AnswersText, Spells, IsFault, IsReadAs, IsRefusedWith};

use crate::draft::Draft;
use crate::fault::{Code, OrderError, Refusal};
use crate::order::{Order, Stage};
use arrayvec::ArrayString;
use labels::{ClassTable, Label};
use lists::Items;
use std::alloc::{AllocError, Global};
use text_lines::Lines;

fn is_unended_draft(draft: &Draft) -> bool
    ensures { result ≡ is_unended draft.now.stage }
{
    !matches!(draft.stage, Stage::Ended)
}

/// The fault of a line, counted from 1.
fn fault_at(line: u32, code: Code) -> OrderError
    ensures { result ≡ Fault line (code_number code) }
{
    OrderError::Fault {
        line,
        code: code as u8,
    }
}

/// Why a text is no order, where its line of this number isn't taken.
fn refused(line: u32, refusal: Refusal) -> OrderError
    ensures { result ≡ error_of line refusal }
{
    match refusal {
        Refusal::Code(code) => fault_at(line, code),
        Refusal::Memory => OrderError::NoMemory,
    }
}

/// What the lines say.
fn read(alloc: Global, lines: &[&[u8]]) -> Result<Draft, OrderError>
    requires { length lines.now + 2 < 2 ^ 32 }
    ensures { Reads result (lines_answer order_rules start 1 (views lines.now)) }
{
    let mut draft = Draft::new(alloc);
    for line in lines {
        let number = draft.line;
        if let Err(refusal) = draft.step(alloc, line) {
            return Err(refused(number, refusal));
        }
    }
    if is_unended_draft(&draft) {
        return Err(fault_at(draft.line, Code::Missing));
    }
    Ok(draft)
}

/// The table of these classes.
fn table_of(entries: Vec<(ArrayString<16>, Label)>) -> ClassTable
    requires { IsTable (map entry_of entries.items) }
    ensures { result ≡ map entry_of entries.items }
{
    match ClassTable::new(entries) {
        Ok(table) => table,
        Err(_) => unreachable!(),
    }
}

/// The order of a draft whose classes are a table.
fn finished(draft: Draft) -> Order
    requires { IsTable (place_of draft).table }
    ensures { result ≡ order_in (place_of draft) }
{
    let Draft {
        stage: _,
        due: _,
        entries,
        releases,
        export,
        line: _,
    } = draft;
    Order {
        table: table_of(entries),
        releases: Items::of(releases),
        export,
    }
}

/// The lines of a text, in a list.
fn line_list(alloc: Global, text: &[u8]) -> Result<Vec<&[u8]>, AllocError>
    ensures { IfOk result (λ v. views v.items ≡ lines text.now) }
{
    Lines::new(text).collect(alloc)
}

/// The release order that the text spells, or its first faulty line with that line's least code. The text has at most
/// 1,048,576 bytes.
pub fn read_order(alloc: Global, text: &[u8]) -> Result<Order, OrderError>
    requires { length text.now ≤ max_text }
    // What is read is spelled so, and a fault is the first one, with its least code.
    ensures right { AnswersText text.now result }
    // What is spelled so is read, and what is faulty is refused with that fault, unless memory runs out.
    ensures only { (k : OrderValue) → Spells text.now k → IsReadAs k result }
    ensures refused { (line code : ℕ) → IsFault text.now line code → IsRefusedWith line code result }
{
    let list = line_list(alloc, text)?;
    match read(alloc, list.as_slice()) {
        Ok(draft) => Ok(finished(draft)),
        Err(error) => Err(error),
    }
}
