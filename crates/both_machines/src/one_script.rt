//! A run of one script with a refused line and a refused look at an entry, worked out by hand.

ghost use Rattle.std.specs.Prelude.{◌≡◌};
ghost use Rattle.class_model.specs.Config.{classes};

use crate::parts::{register, shared_with};
use rings::Ring;
use script_lang::Instr;
use std::alloc::Global;
use std::test::Fail;
use whole_machine::{ModelState, ProcName, model_section, model_step};

/// A line, a line too many, a look at an empty entry of the root, and the end.
fn script(alloc: Global) -> Result<Vec<Instr>, Fail> {
    let zero = register(2)?;
    let one = register(3)?;
    let list = [
        Instr::Set(one, 1),
        Instr::Out(one),
        Instr::Out(one),
        Instr::MakeKnown(zero, zero, one),
        Instr::Halt,
    ];
    Ok(Vec::from_slice(alloc, &list)?)
}

const FIRST: ProcName = ProcName {
    processor: 0,
    class: 0,
    slot: 0,
};

#[test]
fn a_script_runs_to_its_end(rt: HostRuntime) -> Result<(), Fail> {
    let shared = shared_with(rt.alloc(), script(rt.alloc())?)?;
    let mut state = ModelState::opening(rt.alloc(), shared)?;
    let name = FIRST;
    if state.place(&name).is_some() {
        return Err(Fail::from("nobody is there"));
    }
    state.put_process(&name, 0, Ring(4))?;
    for code in [0, 0, 26, 4, 4] {
        assert!(rt; model_step(rt.alloc(), &mut state, &name)?);
        assert_eq!(rt; state.register(&name, register(0)?), Some(code));
    }
    assert!(rt; !model_step(rt.alloc(), &mut state, &name)?);
    let text = model_section(rt.alloc(), &state, 0)?;
    assert_eq!(rt;
        text.as_str(),
        "class 0 low\nline 1\nprocess 0 0 ended script 0 place 4 ring 4\nregs 4 0 0 1 0 0 0 0 0 0 0 0 0 0 0 0\nclosed\n"
    );
    Ok(())
}
