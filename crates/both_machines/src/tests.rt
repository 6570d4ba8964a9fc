//! A reader of class 1 that an update of class 0 crosses. The sections are those that the program prints for this
//! configuration, and here they are those of the machine of whole instructions after the order of effect.

ghost use Rattle.std.specs.Prelude.{◌≡◌, ◌<◌, IfOk};
ghost use Rattle.class_model.specs.Config.{classes};
ghost use Rattle.config_text.specs.Valid.{IsValid};

use class_model::Shared;
use config_text::{Config, read_config};
use loader::opening_machine;
use rings::Ring;
use std::alloc::Global;
use std::test::Fail;
use whole_machine::{ModelState, ProcName, model_section, model_step};

const TEXT: &str =
    "gemkernel 1\nclasses 2\nclass low 0{}/15{} frames 2 pages 2 volume 0\nclass high 1{}/15{} frames 2 pages 2 volume 0\nprocessors 2\ncycle 0\nrounds 1\nquantum 1\nconsole 100\nscript 0\nset r5 511\nset r6 2\ncreate r2 r2 r2 r5 r6\nset r7 3\nmakeknown r2 r2 r7\ncopy r8 r1\nswapin r8\nset r9 7\nput r9 r2\nset r10 1\nput r9 r10\nupdate r8 r2 r6 r2\nset r9 8\nput r9 r2\nput r9 r10\nupdate r8 r2 r6 r2\nhalt\nend\nscript 1\nset r7 1\nmakeknown r2 r2 r7\ncopy r8 r1\nset r6 2\nfetch r8 r2 r6 r2\nget r9 r2\nout r9\nset r10 1\nget r9 r10\nout r9\nhalt\nend\nprocess 0 0 0 4\nprocess 1 1 1 4\nevents 0.0*46 1.1*7 1.1*4 0.0*8 1.1*2 1.1*6 1.1*6 0.0*1\nend\n";

/// What class 0 is shown.
const LOW: &str =
    "class 0 low\nprocess 0 0 ended script 0 place 16 ring 4\nregs 0 2 0 0 0 511 2 3 1 8 1 0 0 0 0 0\nclosed\nsegment 0 0 never writes 0 count 0 tickets 0\nentry 0 class 0 brackets 7 7 7 size 2 serial 1\nsegment 0 1 in writes 2 count 0 tickets 0\nwords 8 8\n";

/// What class 1 is shown.
const HIGH: &str =
    "class 1 high\nline 8\nline 8\nprocess 1 0 ended script 1 place 10 ring 4\nregs 0 1 0 0 0 0 2 1 1 8 1 0 0 0 0 0\nclosed\n";

const WRITER: ProcName = ProcName {
    processor: 0,
    class: 0,
    slot: 0,
};

const READER: ProcName = ProcName {
    processor: 1,
    class: 1,
    slot: 0,
};

fn configuration(alloc: Global) -> Result<Config, Fail>
    ensures { IfOk result (λ k. IsValid k) }
{
    match read_config(alloc, TEXT.as_bytes()) {
        Ok(config) => Ok(config),
        Err(_) => Err(Fail::from("a configuration")),
    }
}

/// A process begins.
fn begin(model: &mut ModelState, name: &ProcName, script: u8) -> Result<(), Fail>
    requires class { name.now.class < 2 }
    requires two { classes model.old.shared ≡ 2 }
    ensures { IfOk result (λ _. classes model.new.shared ≡ 2) }
{
    if name.processor >= 4 || name.slot >= 4 || model.place(name).is_some() {
        return Err(Fail::from("a slot to begin in"));
    }
    model.put_process(name, script, Ring(4))?;
    Ok(())
}

/// What no step changes.
fn shared(alloc: Global) -> Result<Shared, Fail> {
    let config = configuration(alloc)?;
    Ok(opening_machine(alloc, &config)?.into_parts().shared)
}

/// The machine of whole instructions at the opening.
fn opened(alloc: Global) -> Result<ModelState, Fail>
    ensures { IfOk result (λ m. classes m.shared ≡ 2) }
{
    let shared = shared(alloc)?;
    if shared.table().count() != 2 {
        return Err(Fail::from("two classes"));
    }
    let mut model = ModelState::opening(alloc, shared)?;
    begin(&mut model, &WRITER, 0)?;
    begin(&mut model, &READER, 1)?;
    Ok(model)
}

/// So many steps of a process.
fn steps(alloc: Global, model: &mut ModelState, name: &ProcName, times: u8) -> Result<(), Fail>
    ensures { IfOk result (λ _. model.new.shared ≡ model.old.shared) }
{
    for _ in 0..times {
        if !model_step(alloc, model, name)? {
            return Err(Fail::from("a step"));
        }
    }
    Ok(())
}

/// The state after the order of effect.
fn followed(alloc: Global) -> Result<ModelState, Fail>
    ensures { IfOk result (λ m. classes m.shared ≡ 2) }
{
    let mut model = opened(alloc)?;
    steps(alloc, &mut model, &WRITER, 15)?;
    steps(alloc, &mut model, &READER, 4)?;
    steps(alloc, &mut model, &WRITER, 1)?;
    steps(alloc, &mut model, &READER, 7)?;
    steps(alloc, &mut model, &WRITER, 1)?;
    Ok(model)
}

#[test]
fn the_same_sections(rt: HostRuntime) -> Result<(), Fail> {
    let model = followed(rt.alloc())?;
    assert_eq!(rt; model_section(rt.alloc(), &model, 0)?.as_str(), LOW);
    assert_eq!(rt; model_section(rt.alloc(), &model, 1)?.as_str(), HIGH);
    Ok(())
}
