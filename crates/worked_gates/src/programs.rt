//! Programs, and lists of instructions that are none.

use script_lang::{Index, Instr, Program, ProgramError, Reg};
use std::process::Abort;
use std::test::Fail;

/// The place of the fault, where there is one.
fn fault_of(list: Vec<Instr>) -> Option<usize> {
    match Program::new(list) {
        Ok(_) => None,
        Err(ProgramError::Fault { at }) => Some(at),
    }
}

fn has_fault(rt: &impl Abort, list: Vec<Instr>, place: Option<usize>) {
    assert_eq!(rt; fault_of(list), place);
}

#[test]
fn operands_end_at_their_limits(rt: HostRuntime) {
    assert_eq!(rt; Reg::new(15).map(|r| r.number()), Some(15));
    assert!(rt; Reg::new(16).is_none() && Index::new(32).is_none());
    assert_eq!(rt; Index::new(31).map(|i| i.number()), Some(31));
}

#[test]
fn a_program_has_at_most_256_instructions(rt: HostRuntime) -> Result<(), Fail> {
    let alloc = rt.alloc();
    let mut long = Vec::new(alloc);
    for _ in 0..256 {
        long.push(Instr::Halt)?;
    }
    let good = Program::new(long.clone()?).ok().ok_or("256 instructions")?;
    assert_eq!(rt; good.copy(alloc)?.list(), long.as_slice());
    long.push(Instr::Jump(300))?;
    has_fault(&rt, long, Some(256));
    has_fault(&rt, Vec::new(alloc), Some(0));
    Ok(())
}

#[test]
fn the_first_fault_is_named(rt: HostRuntime) -> Result<(), Fail> {
    let alloc = rt.alloc();
    let reg = Reg::new(2).ok_or("r2")?;
    has_fault(
        &rt,
        [Instr::Set(reg, 5), Instr::Out(reg)].to_vec(alloc)?,
        Some(1),
    );
    has_fault(
        &rt,
        [Instr::Jump(3), Instr::JumpZ(reg, 3), Instr::Out(reg)].to_vec(alloc)?,
        Some(0),
    );
    has_fault(
        &rt,
        [Instr::Halt, Instr::JumpL(reg, reg, 2)].to_vec(alloc)?,
        Some(1),
    );
    has_fault(
        &rt,
        [Instr::JumpZ(reg, 1), Instr::Jump(0)].to_vec(alloc)?,
        None,
    );
    has_fault(&rt, [Instr::Halt].to_vec(alloc)?, None);
    Ok(())
}
