//! The instructions that give a reply.

ghost use Rattle.std.specs.Prelude.{◌≡◌, ◌⊎◌, Some};
ghost use Rattle.audit_trail.specs.Dues.{operand, goes_back};
ghost use Rattle.audit_trail.specs.Instructions.{reply_number};

use policy::Rights;
use script_lang::{Instr, Reg};

/// The register by which an instruction names the segment that it accesses, and what it accesses it for.
#[derive(Clone, Copy)]
pub(crate) struct Operand {
    pub(crate) register: Reg,
    pub(crate) kind: Rights,
}

/// The place of an instruction in the list of those that give a reply. None for any other one.
pub(crate) fn reply_number(instr: &Instr) -> Option<u8>
    ensures { result ≡ reply_number instr.now }
{
    match *instr {
        Instr::Call(_) => Some(0),
        Instr::Ret => Some(1),
        Instr::Spawn(..) => Some(2),
        Instr::MakeKnown(..) => Some(3),
        Instr::Terminate(_) => Some(4),
        Instr::Create(..) => Some(5),
        Instr::Delete(..) => Some(6),
        Instr::SwapIn(_) => Some(7),
        Instr::SwapOut(_) => Some(8),
        Instr::Fetch(..) => Some(9),
        Instr::Update(..) => Some(10),
        Instr::Read(_) => Some(11),
        Instr::Await(..) => Some(12),
        Instr::Advance(_) => Some(13),
        Instr::Ticket(_) => Some(14),
        Instr::Out(_) => Some(15),
        _ => None,
    }
}

/// To observe (1), to modify (2) or both (3).
fn accessing(register: Reg, mode: u64) -> Option<Operand>
    requires { (mode ≡ 1) ⊎ (mode ≡ 2) ⊎ (mode ≡ 3) }
    ensures { result ≡ Some (record { register = register; kind = record { 0 = mode } }) }
{
    let kind = Rights::wanted(mode);
    Some(Operand { register, kind })
}

/// What an instruction accesses where its private tests pass. None where it accesses nothing.
pub(crate) fn operand_of(instr: &Instr) -> Option<Operand>
    ensures { result ≡ operand instr.now }
{
    match *instr {
        Instr::MakeKnown(mentor, _, _) => accessing(mentor, 1),
        Instr::Create(mentor, ..) => accessing(mentor, 3),
        Instr::Delete(mentor, _) => accessing(mentor, 3),
        Instr::SwapIn(segment) => accessing(segment, 3),
        Instr::SwapOut(segment) => accessing(segment, 3),
        Instr::Fetch(segment, ..) => accessing(segment, 1),
        Instr::Update(segment, ..) => accessing(segment, 3),
        Instr::Read(segment) => accessing(segment, 1),
        Instr::Await(segment, _) => accessing(segment, 1),
        Instr::Advance(segment) => accessing(segment, 2),
        Instr::Ticket(segment) => accessing(segment, 3),
        _ => None,
    }
}

/// Whether it goes back from a call.
pub(crate) fn goes_back(instr: &Instr) -> bool
    ensures { result ≡ goes_back instr.now }
{
    matches!(*instr, Instr::Ret)
}
