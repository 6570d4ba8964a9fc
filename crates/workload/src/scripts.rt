//! The scripts of the large configuration.

ghost use Rattle.std.specs.Prelude.{◌≡◌, ◌<◌, ◌≤◌, ◌+◌, ◌++◌, IfOk, IsTrue};
ghost use Rattle.script_lang.specs.Program.{program_ok};
ghost use Rattle.workload.specs.Large.{creator, finding, working, worker, large_scripts};

use crate::classes::CLASSES;
use config_text::Script;
use lists::Items;
use script_lang::{Instr, Program, Reg};
use std::alloc::{AllocError, Global};

fn register(number: u8) -> Reg
    requires { number ≤ 15 }
    ensures { result ≡ number }
{
    Reg::new(number).unwrap()
}

/// The instructions of the creator, which makes a segment of each class.
fn creator() -> [Instr; 8]
    ensures { result ≡ creator }
{
    [
        Instr::Set(register(5), u64::from(CLASSES)),
        Instr::Set(register(6), 511),
        Instr::Set(register(7), 4),
        Instr::Set(register(3), 1),
        Instr::Create(
            register(2),
            register(4),
            register(4),
            register(6),
            register(7),
        ),
        Instr::Add(register(4), register(3)),
        Instr::JumpL(register(4), register(5), 4),
        Instr::Halt,
    ]
}

/// The first instructions of a worker, by which it finds the segment of its class.
fn finding(class: u8) -> [Instr; 10]
    ensures { result ≡ finding class }
{
    [
        Instr::Set(register(4), u64::from(class)),
        Instr::Set(register(6), 3),
        Instr::Set(register(7), 4),
        Instr::Set(register(9), 20),
        Instr::Set(register(10), 1),
        Instr::MakeKnown(register(2), register(4), register(6)),
        Instr::JumpZ(register(0), 8),
        Instr::Jump(5),
        Instr::Copy(register(5), register(1)),
        Instr::SwapIn(register(5)),
    ]
}

/// The other instructions of a worker of class 0.
fn working_lowest() -> [Instr; 8]
    ensures { result ≡ working 0 }
{
    [
        Instr::Ticket(register(5)),
        Instr::Put(register(1), register(2)),
        Instr::Update(register(5), register(2), register(7), register(2)),
        Instr::Advance(register(5)),
        Instr::Add(register(11), register(10)),
        Instr::JumpL(register(11), register(9), 10),
        Instr::Out(register(11)),
        Instr::Halt,
    ]
}

/// The other instructions of a worker of the class right above this one.
fn working_above(below: u8) -> [Instr; 12]
    ensures { result ≡ working (below + 1) }
{
    [
        Instr::Set(register(12), u64::from(below)),
        Instr::MakeKnown(register(2), register(12), register(10)),
        Instr::Copy(register(13), register(1)),
        Instr::Ticket(register(5)),
        Instr::Put(register(1), register(2)),
        Instr::Update(register(5), register(2), register(7), register(2)),
        Instr::Fetch(register(13), register(2), register(7), register(2)),
        Instr::Advance(register(5)),
        Instr::Add(register(11), register(10)),
        Instr::JumpL(register(11), register(9), 13),
        Instr::Out(register(11)),
        Instr::Halt,
    ]
}

/// The instructions as a program.
fn program_of(list: Vec<Instr>) -> Program
    requires { IsTrue (program_ok list.items) }
    ensures { result ≡ list.items }
{
    match Program::new(list) {
        Ok(program) => program,
        Err(_) => unreachable!(),
    }
}

/// All instructions of a worker of a class.
fn worker_list(alloc: Global, class: u8) -> Result<Vec<Instr>, AllocError>
    ensures { IfOk result (λ list. list.items ≡ finding class ++ working class) }
{
    let mut list = Vec::from_slice(alloc, &finding(class))?;
    if class == 0 {
        list.extend_from_slice(&working_lowest())?;
    } else {
        list.extend_from_slice(&working_above(class - 1))?;
    }
    Ok(list)
}

/// The script of the workers of a class.
fn worker(alloc: Global, class: u8) -> Result<Script, AllocError>
    ensures { IfOk result (λ script. script ≡ worker class) }
{
    let list = worker_list(alloc, class)?;
    Ok(Script {
        class,
        program: program_of(list),
    })
}

/// The script of the creator.
fn creator_script(alloc: Global) -> Result<Script, AllocError>
    ensures { IfOk result (λ script. script ≡ record { class = 0; program = creator }) }
{
    let list = Vec::from_slice(alloc, &creator())?;
    Ok(Script {
        class: 0,
        program: program_of(list),
    })
}

/// All scripts: that of the creator, and that of the workers of each class.
pub fn scripts(alloc: Global) -> Result<Items<Script>, AllocError>
    ensures { IfOk result (λ scripts. scripts ≡ large_scripts) }
{
    let mut scripts = Vec::new(alloc);
    scripts.push(creator_script(alloc)?)?;
    for class in 0..CLASSES {
        scripts.push(worker(alloc, class)?)?;
    }
    Ok(Items::of(scripts))
}
