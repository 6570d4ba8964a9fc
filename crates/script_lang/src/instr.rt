//! Instructions.

use crate::operand::{Index, Reg};

/// An instruction, with its operands in the order of its text. A target is a place of the script.
#[derive(Clone, Copy, Debug, PartialEq, Eq)]
pub enum Instr {
    Halt,
    Set(Reg, u64),
    Copy(Reg, Reg),
    Add(Reg, Reg),
    Sub(Reg, Reg),
    Jump(u16),
    JumpZ(Reg, u16),
    JumpL(Reg, Reg, u16),
    Get(Reg, Reg),
    Put(Reg, Reg),
    Call(Index),
    Ret,
    Spawn(Index, Reg),
    MakeKnown(Reg, Reg, Reg),
    Terminate(Reg),
    Create(Reg, Reg, Reg, Reg, Reg),
    Delete(Reg, Reg),
    SwapIn(Reg),
    SwapOut(Reg),
    Fetch(Reg, Reg, Reg, Reg),
    Update(Reg, Reg, Reg, Reg),
    Read(Reg),
    Await(Reg, Reg),
    Advance(Reg),
    Ticket(Reg),
    Out(Reg),
}
