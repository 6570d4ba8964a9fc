//! One script over a made sequence of answers, with the operations and outcomes worked out by hand.

ghost use Rattle.process.specs.Standing.{StandingFits};

use crate::parts::{opened, register, shared_with};
use class_model::Shared;
use policy::{Outcome, Reply};
use process::{Absorbed, Made, Process};
use script_lang::{Index, Instr};
use std::alloc::Global;
use std::test::Fail;
use words_layout::{Addr, Op};

fn script(alloc: Global) -> Result<Vec<Instr>, Fail> {
    let zero = register(3)?;
    let one = register(2)?;
    let first = Index::new(0).ok_or("a script")?;
    let mut list = Vec::new(alloc);
    list.push(Instr::Out(one))?;
    list.push(Instr::Spawn(first, one))?;
    list.push(Instr::MakeKnown(zero, zero, one))?;
    list.push(Instr::Fetch(zero, zero, one, zero))?;
    list.push(Instr::Halt)?;
    Ok(list)
}

/// The operation of a step, and what it comes to; None where the process has ended. No slot is free.
fn step(process: &mut Process, shared: &Shared, answer: u64) -> Option<(Op, Absorbed)>
    requires { StandingFits shared.now process.old }
    ensures { StandingFits shared.now process.new }
{
    if !process.is_live() {
        return None;
    }
    let op = process.next_op(shared);
    let absorbed = process.absorb(shared, None, answer);
    Some((op, absorbed))
}

fn done(code: u8, value: u64) -> Outcome {
    Outcome::Done(Reply { code, value })
}

#[test]
fn a_script_absorbs_answers(rt: HostRuntime) -> Result<(), Fail> {
    let shared = shared_with(rt.alloc(), script(rt.alloc())?)?;
    let line = Made::Line { place: 0, value: 1 };
    let steps = [
        (0, Op::Add(Addr(3), 1), done(0, 0), line, true),
        (0, Op::Nothing, done(27, 0), Made::Nothing, true),
        (5, Op::Load(Addr(0)), Outcome::Going, Made::Nothing, false),
        (4, Op::Load(Addr(2)), Outcome::Poll, Made::Nothing, false),
        (4, Op::Load(Addr(0)), Outcome::Going, Made::Nothing, false),
        (4, Op::Load(Addr(2)), Outcome::Going, Made::Nothing, false),
        (0, Op::Load(Addr(12)), Outcome::Going, Made::Nothing, false),
        (4, Op::Load(Addr(0)), done(4, 0), Made::Nothing, true),
        (0, Op::Nothing, done(18, 0), Made::Nothing, true),
        (0, Op::Nothing, done(18, 0), Made::Nothing, true),
    ];
    let mut process = opened(&shared, 0, 1).ok_or("a script")?;
    for (answer, op, outcome, made, effect) in steps {
        let (asked, absorbed) = step(&mut process, &shared, answer).ok_or("it ended")?;
        assert_eq!(rt; asked, op);
        assert_eq!(rt; absorbed.outcome, outcome);
        assert_eq!(rt; absorbed.made, made);
        assert_eq!(rt; absorbed.effect, effect);
    }
    assert!(rt; !process.is_live());
    Ok(())
}
