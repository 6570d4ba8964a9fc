//! Mnemonics, and what their operands must be.

ghost use Rattle.std.specs.Prelude.{◌≡◌};
ghost use Rattle.script_asm.specs.Operand as spec;

use script_lang::{Index, Instr, Reg};

/// What an operand must be.
#[derive(Clone, Copy, Debug, PartialEq, Eq)]
pub enum Kind {
    /// `r0` to `r15`.
    Register,
    /// A number, decimal or hexadecimal.
    Immediate,
    /// A place of the script, by number or by `@name`.
    Target,
    /// The place of a script or a gate, below 32.
    Index,
}

/// A mnemonic.
#[derive(Clone, Copy, Debug, PartialEq, Eq)]
pub enum Op {
    Halt,
    Set,
    Copy,
    Add,
    Sub,
    Jump,
    JumpZ,
    JumpL,
    Get,
    Put,
    Call,
    Ret,
    Spawn,
    MakeKnown,
    Terminate,
    Create,
    Delete,
    SwapIn,
    SwapOut,
    Fetch,
    Update,
    Read,
    Await,
    Advance,
    Ticket,
    Out,
}

/// The mnemonic's text.
pub fn op_name(op: Op) -> &'static str
    ensures { result.now ≡ spec.op_text op }
{
    match op {
        Op::Halt => "halt",
        Op::Set => "set",
        Op::Copy => "copy",
        Op::Add => "add",
        Op::Sub => "sub",
        Op::Jump => "jump",
        Op::JumpZ => "jumpz",
        Op::JumpL => "jumpl",
        Op::Get => "get",
        Op::Put => "put",
        Op::Call => "call",
        Op::Ret => "ret",
        Op::Spawn => "spawn",
        Op::MakeKnown => "makeknown",
        Op::Terminate => "terminate",
        Op::Create => "create",
        Op::Delete => "delete",
        Op::SwapIn => "swapin",
        Op::SwapOut => "swapout",
        Op::Fetch => "fetch",
        Op::Update => "update",
        Op::Read => "read",
        Op::Await => "await",
        Op::Advance => "advance",
        Op::Ticket => "ticket",
        Op::Out => "out",
    }
}

/// The bytes of the mnemonic's text.
pub fn op_text(op: Op) -> &'static [u8]
    ensures { result.now ≡ spec.op_text op }
{
    op_name(op).as_bytes()
}

/// What its operands are, in order.
pub fn kinds(op: Op) -> &'static [Kind]
    ensures { result.now ≡ spec.kinds op }
{
    match op {
        Op::Halt => &[],
        Op::Set => &[Kind::Register, Kind::Immediate],
        Op::Copy => &[Kind::Register, Kind::Register],
        Op::Add => &[Kind::Register, Kind::Register],
        Op::Sub => &[Kind::Register, Kind::Register],
        Op::Jump => &[Kind::Target],
        Op::JumpZ => &[Kind::Register, Kind::Target],
        Op::JumpL => &[Kind::Register, Kind::Register, Kind::Target],
        Op::Get => &[Kind::Register, Kind::Register],
        Op::Put => &[Kind::Register, Kind::Register],
        Op::Call => &[Kind::Index],
        Op::Ret => &[],
        Op::Spawn => &[Kind::Index, Kind::Register],
        Op::MakeKnown => &[Kind::Register, Kind::Register, Kind::Register],
        Op::Terminate => &[Kind::Register],
        Op::Create => &[
            Kind::Register,
            Kind::Register,
            Kind::Register,
            Kind::Register,
            Kind::Register,
        ],
        Op::Delete => &[Kind::Register, Kind::Register],
        Op::SwapIn => &[Kind::Register],
        Op::SwapOut => &[Kind::Register],
        Op::Fetch => &[
            Kind::Register,
            Kind::Register,
            Kind::Register,
            Kind::Register,
        ],
        Op::Update => &[
            Kind::Register,
            Kind::Register,
            Kind::Register,
            Kind::Register,
        ],
        Op::Read => &[Kind::Register],
        Op::Await => &[Kind::Register, Kind::Register],
        Op::Advance => &[Kind::Register],
        Op::Ticket => &[Kind::Register],
        Op::Out => &[Kind::Register],
    }
}

fn reg(number: u64) -> Reg
    ensures { result ≡ spec.reg number }
{
    Reg::new(number.min(15) as u8).unwrap()
}

fn place(number: u64) -> Index
    ensures { result ≡ spec.place number }
{
    Index::new(number.min(31) as u8).unwrap()
}

fn target(number: u64) -> u16
    ensures { result ≡ spec.target number }
{
    number.min(65535) as u16
}

/// The instruction with these operands.
pub fn instr_of(op: Op, a: u64, b: u64, c: u64, d: u64, e: u64) -> Instr
    ensures { result ≡ spec.instr_of op a b c d e }
{
    match op {
        Op::Halt => Instr::Halt,
        Op::Set => Instr::Set(reg(a), b),
        Op::Copy => Instr::Copy(reg(a), reg(b)),
        Op::Add => Instr::Add(reg(a), reg(b)),
        Op::Sub => Instr::Sub(reg(a), reg(b)),
        Op::Jump => Instr::Jump(target(a)),
        Op::JumpZ => Instr::JumpZ(reg(a), target(b)),
        Op::JumpL => Instr::JumpL(reg(a), reg(b), target(c)),
        Op::Get => Instr::Get(reg(a), reg(b)),
        Op::Put => Instr::Put(reg(a), reg(b)),
        Op::Call => Instr::Call(place(a)),
        Op::Ret => Instr::Ret,
        Op::Spawn => Instr::Spawn(place(a), reg(b)),
        Op::MakeKnown => Instr::MakeKnown(reg(a), reg(b), reg(c)),
        Op::Terminate => Instr::Terminate(reg(a)),
        Op::Create => Instr::Create(reg(a), reg(b), reg(c), reg(d), reg(e)),
        Op::Delete => Instr::Delete(reg(a), reg(b)),
        Op::SwapIn => Instr::SwapIn(reg(a)),
        Op::SwapOut => Instr::SwapOut(reg(a)),
        Op::Fetch => Instr::Fetch(reg(a), reg(b), reg(c), reg(d)),
        Op::Update => Instr::Update(reg(a), reg(b), reg(c), reg(d)),
        Op::Read => Instr::Read(reg(a)),
        Op::Await => Instr::Await(reg(a), reg(b)),
        Op::Advance => Instr::Advance(reg(a)),
        Op::Ticket => Instr::Ticket(reg(a)),
        Op::Out => Instr::Out(reg(a)),
    }
}
