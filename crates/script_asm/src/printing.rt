//! A script, printed.

ghost use Rattle.std.specs.Prelude.{◌≡◌, ◌≤◌, length, ◌++◌, ◌∷◌, [], OnOk, IfOk, map, string_bytes};
ghost use Rattle.std.specs.Fmt.{decimal};
ghost use Rattle.std.specs.List.{AllByRecursion};
ghost use Rattle.text_lines.specs.Lines.{lines};
ghost use Rattle.text_lines.specs.Printed.{spaced};
ghost use Rattle.script_asm.specs.Item as item;
ghost use Rattle.script_asm.specs.ScriptText as spec;
ghost use Rattle.script_asm.specs.Spelling.{Spells};

use crate::op::{Kind, Op, kinds, op_name};
use itoa::Buffer;
use script_lang::{Instr, Program};
use std::alloc::{AllocError, Global};

/// The mnemonic of an instruction.
fn op_for(instr: &Instr) -> Op
    ensures { result ≡ item.op_for instr.now }
{
    match instr {
        Instr::Halt => Op::Halt,
        Instr::Set(..) => Op::Set,
        Instr::Copy(..) => Op::Copy,
        Instr::Add(..) => Op::Add,
        Instr::Sub(..) => Op::Sub,
        Instr::Jump(..) => Op::Jump,
        Instr::JumpZ(..) => Op::JumpZ,
        Instr::JumpL(..) => Op::JumpL,
        Instr::Get(..) => Op::Get,
        Instr::Put(..) => Op::Put,
        Instr::Call(..) => Op::Call,
        Instr::Ret => Op::Ret,
        Instr::Spawn(..) => Op::Spawn,
        Instr::MakeKnown(..) => Op::MakeKnown,
        Instr::Terminate(..) => Op::Terminate,
        Instr::Create(..) => Op::Create,
        Instr::Delete(..) => Op::Delete,
        Instr::SwapIn(..) => Op::SwapIn,
        Instr::SwapOut(..) => Op::SwapOut,
        Instr::Fetch(..) => Op::Fetch,
        Instr::Update(..) => Op::Update,
        Instr::Read(..) => Op::Read,
        Instr::Await(..) => Op::Await,
        Instr::Advance(..) => Op::Advance,
        Instr::Ticket(..) => Op::Ticket,
        Instr::Out(..) => Op::Out,
    }
}

/// The numbers of its operands, with zeros behind them.
fn values_of(instr: &Instr) -> [u64; 5]
    ensures values { result ≡ item.values_of instr.now }
    ensures fits { item.Fits instr.now }
{
    match instr {
        Instr::Halt => [0, 0, 0, 0, 0],
        Instr::Set(a, b) => [u64::from(a.number()), *b, 0, 0, 0],
        Instr::Copy(a, b) => [u64::from(a.number()), u64::from(b.number()), 0, 0, 0],
        Instr::Add(a, b) => [u64::from(a.number()), u64::from(b.number()), 0, 0, 0],
        Instr::Sub(a, b) => [u64::from(a.number()), u64::from(b.number()), 0, 0, 0],
        Instr::Jump(a) => [u64::from(*a), 0, 0, 0, 0],
        Instr::JumpZ(a, b) => [u64::from(a.number()), u64::from(*b), 0, 0, 0],
        Instr::JumpL(a, b, c) => [
            u64::from(a.number()),
            u64::from(b.number()),
            u64::from(*c),
            0,
            0,
        ],
        Instr::Get(a, b) => [u64::from(a.number()), u64::from(b.number()), 0, 0, 0],
        Instr::Put(a, b) => [u64::from(a.number()), u64::from(b.number()), 0, 0, 0],
        Instr::Call(a) => [u64::from(a.number()), 0, 0, 0, 0],
        Instr::Ret => [0, 0, 0, 0, 0],
        Instr::Spawn(a, b) => [u64::from(a.number()), u64::from(b.number()), 0, 0, 0],
        Instr::MakeKnown(a, b, c) => [
            u64::from(a.number()),
            u64::from(b.number()),
            u64::from(c.number()),
            0,
            0,
        ],
        Instr::Terminate(a) => [u64::from(a.number()), 0, 0, 0, 0],
        Instr::Create(a, b, c, d, e) => [
            u64::from(a.number()),
            u64::from(b.number()),
            u64::from(c.number()),
            u64::from(d.number()),
            u64::from(e.number()),
        ],
        Instr::Delete(a, b) => [u64::from(a.number()), u64::from(b.number()), 0, 0, 0],
        Instr::SwapIn(a) => [u64::from(a.number()), 0, 0, 0, 0],
        Instr::SwapOut(a) => [u64::from(a.number()), 0, 0, 0, 0],
        Instr::Fetch(a, b, c, d) => [
            u64::from(a.number()),
            u64::from(b.number()),
            u64::from(c.number()),
            u64::from(d.number()),
            0,
        ],
        Instr::Update(a, b, c, d) => [
            u64::from(a.number()),
            u64::from(b.number()),
            u64::from(c.number()),
            u64::from(d.number()),
            0,
        ],
        Instr::Read(a) => [u64::from(a.number()), 0, 0, 0, 0],
        Instr::Await(a, b) => [u64::from(a.number()), u64::from(b.number()), 0, 0, 0],
        Instr::Advance(a) => [u64::from(a.number()), 0, 0, 0, 0],
        Instr::Ticket(a) => [u64::from(a.number()), 0, 0, 0, 0],
        Instr::Out(a) => [u64::from(a.number()), 0, 0, 0, 0],
    }
}

/// Writes the number in decimal digits.
fn push_number(out: &mut String, number: u64) -> Result<(), AllocError>
    ensures { OnOk result (string_bytes out.new ≡ string_bytes out.old ++ decimal number) }
{
    let mut digits = Buffer::new();
    out.push_str(digits.format(number))
}

/// Writes an operand with a blank in front.
#[tactic(auto, using(crate::proofs::Pieces::pieces))]
fn push_operand(out: &mut String, kind: Kind, number: u64) -> Result<(), AllocError>
    ensures { OnOk result (string_bytes out.new ≡ string_bytes out.old ++ 32 ∷ item.item_text (item.value kind number)) }
{
    match kind {
        Kind::Register => out.push_str(" r")?,
        Kind::Immediate | Kind::Target | Kind::Index => out.push_str(" ")?,
    }
    push_number(out, number)
}

/// Writes the operands, each with a blank in front.
#[tactic(auto, using(crate::proofs::Pieces::pieces))]
fn push_operands(out: &mut String, kinds: &[Kind], numbers: &[u64]) -> Result<(), AllocError>
    ensures { OnOk result (string_bytes out.new ≡ string_bytes out.old ++ spec.after_blanks (map item.item_text (item.operand_items kinds.now numbers.now))) }
{
    let [kind, kinds @ ..] = kinds else {
        return Ok(());
    };
    let [number, numbers @ ..] = numbers else {
        return Ok(());
    };
    push_operand(out, *kind, *number)?;
    push_operands(out, kinds, numbers)
}

/// Writes the line of an instruction.
#[tactic(auto, using(crate::proofs::Pieces::pieces))]
fn push_instr(out: &mut String, instr: &Instr) -> Result<(), AllocError>
    ensures line { OnOk result (string_bytes out.new ≡ string_bytes out.old ++ (spaced (item.instr_words instr.now) ++ 10 ∷ [])) }
    ensures fits { OnOk result (item.Fits instr.now) }
{
    let op = op_for(instr);
    out.push_str(op_name(op))?;
    push_operands(out, kinds(op), &values_of(instr))?;
    out.push_str("\n")?;
    Ok(())
}

/// The text of the instructions.
#[tactic(auto, using(crate::proofs::Pieces::lists))]
fn print_list(alloc: Global, program: &[Instr]) -> Result<String, AllocError>
    ensures text { IfOk result (λ t. string_bytes t ≡ spec.script_text program.now) }
    ensures fits { OnOk result (AllByRecursion item.Fits program.now) }
{
    let mut out = String::new(alloc);
    for instr in program {
        push_instr(&mut out, instr)?;
    }
    Ok(out)
}

/// The text of a program: one instruction a line with one blank between words, numbers in decimal digits, and each
/// line ended by a line feed.
#[tactic(auto, using(crate::proofs::PrintedProgram::printing))]
pub fn print(alloc: Global, program: &Program) -> Result<String, AllocError>
    ensures text { IfOk result (λ t. string_bytes t ≡ spec.script_text program.now) }
    // The text spells the program.
    ensures spells { IfOk result (λ t. Spells (lines (string_bytes t)) program.now) }
    ensures short { IfOk result (λ t. length (string_bytes t) ≤ 8192) }
{
    print_list(alloc, program.list())
}
