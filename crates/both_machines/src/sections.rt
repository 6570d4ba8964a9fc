//! The sections of a machine of two classes, each line written out.

ghost use Rattle.std.specs.Prelude.{◌≡◌, ◌<◌, ◌/◌, ◌∷◌, [], Some, IfOk, true, length};
ghost use Rattle.script_lang.specs.Program.{program_ok};
ghost use Rattle.class_model.specs.Config.{classes};
ghost use Rattle.machine.specs.Steps.{ProcessingFits, IsBank};
ghost use Rattle.words_layout.specs.Sizes.{class_words};

use crate::parts::opened;
use arrayvec::ArrayString;
use class_model::{Gate, Pool, Script, Shared};
use host_ports::MemoryHost;
use labels::{ClassTable, Label};
use lists::Items;
use machine::{Bank, Banks, Machine, MachineParts, VirtualProcessor};
use report::section;
use script_lang::{Instr, Program, Reg};
use std::alloc::Global;
use std::test::Fail;
use words_layout::{
    Addr, Alias, Event, Home, Op, PlainWords, SegId, WordPort, component_addr, entry_addr,
    frame_word_addr, home_addr, pack_alias, pack_home, page_word_addr, sequencer_addr, writes_addr,
};

const LOW: &str =
    "class 0 low\nline 5\nprocess 0 0 ended script 0 place 1 ring 4\nregs 0 0 5 0 0 0 0 0 0 0 0 0 0 0 0 0\nclosed\nsegment 0 1 in writes 6 count 1 tickets 2\nwords 8 9\nentry 3 class 1 brackets 1 2 3 size 4 serial 5\n";

const HIGH: &str =
    "class 1 high\nprocess 0 0 live script 0 place 0 ring 4\nregs 0 0 5 0 0 0 0 0 0 0 0 0 0 0 0 0\nopen\n";

/// Two classes with two frames and three pages, two console lines, and one script.
fn two_classes(
    table: ClassTable,
    pools: Items<Pool>,
    scripts: Items<Option<Script>>,
    gates: Items<Option<Gate>>,
    program: &Program,
) -> Shared
    requires table { length table ≡ 2 }
    requires pools { pools ≡ record { frames = 2; pages = 3 } ∷ record { frames = 2; pages = 3 } ∷ [] }
    requires program { program_ok program.now ≡ true }
    requires scripts { scripts ≡ Some (record { class = 0; program = program.now }) ∷ [] }
    requires gates { gates ≡ [] }
    ensures { classes result ≡ 2 }
{
    Shared {
        table,
        pools,
        console: 2,
        scripts,
        gates,
    }
}

fn table_of(alloc: Global) -> Result<ClassTable, Fail> {
    let mut entries = Vec::new(alloc);
    let low: ArrayString<16> = ArrayString::from("low").ok().ok_or("a name")?;
    entries.push((low, Label::parse("0{}/15{}").ok().ok_or("a label")?))?;
    let high: ArrayString<16> = ArrayString::from("high").ok().ok_or("a name")?;
    entries.push((high, Label::parse("1{}/15{}").ok().ok_or("a label")?))?;
    Ok(ClassTable::new(entries).ok().ok_or("a table")?)
}

fn shared_of(alloc: Global) -> Result<Shared, Fail>
    ensures { IfOk result (λ s. classes s ≡ 2) }
{
    let table = table_of(alloc)?;
    if table.count() != 2 {
        return Err(Fail::from("two classes"));
    }
    let mut list = Vec::new(alloc);
    list.push(Instr::Out(Reg::new(2).ok_or("a register")?))?;
    list.push(Instr::Halt)?;
    let program = Program::new(list).ok().ok_or("a program")?;
    let kept = program.copy(alloc)?;
    let _list = kept.list();
    let pool = Pool {
        frames: 2,
        pages: 3,
    };
    let mut pools = Vec::new(alloc);
    pools.push(pool)?;
    pools.push(pool)?;
    let mut scripts = Vec::new(alloc);
    scripts.push(Some(Script { class: 0, program }))?;
    let pool = Items::of(pools);
    let script = Items::of(scripts);
    let gates = Items::of(Vec::new(alloc));
    Ok(two_classes(table, pool, script, gates, &kept))
}

/// A virtual processor of a class with one process.
fn processing(alloc: Global, shared: &Shared, class: u8) -> Result<VirtualProcessor, Fail>
    requires { class < classes shared.now }
    ensures { IfOk result (λ v. (v.class ≡ class) × ProcessingFits shared.now v) }
{
    machine::fitting_laws();
    let process = opened(shared, class, 5).ok_or("a script")?;
    let mut here = VirtualProcessor::new(alloc, class, shared.console())?;
    here.put(0, process);
    Ok(here)
}

fn bank_of(alloc: Global, shared: &Shared) -> Result<Bank, Fail>
    requires { classes shared.now ≡ 2 }
    ensures { IfOk result (λ b. IsBank shared.now b) }
{
    let mut items = Vec::new(alloc);
    items.push(processing(alloc, shared, 0)?)?;
    items.push(processing(alloc, shared, 1)?)?;
    Ok(Bank::of(items))
}

/// Stores a word, where it is one.
pub fn store(words: &mut PlainWords, addr: Addr, value: u64) -> Option<()>
    ensures { length words.new ≡ length words.old }
{
    if addr.0 as usize >= words.as_slice().len() {
        return None;
    }
    let _classes = words.classes();
    let _none = words.perform(Op::Store(addr, value));
    Some(())
}

/// The words of two classes, where the first has a segment in frame 1 that has page 2 besides, and an entry.
fn words_of(alloc: Global) -> Result<PlainWords, Fail>
    ensures { IfOk result (λ w. length w / class_words ≡ 2) }
{
    let seg = SegId {
        mentor: 0,
        serial: 1,
    };
    let home = Home::Resident {
        frame: 1,
        page: Some(2),
        size: 2,
    };
    let alias = Alias {
        class: 1,
        r1: 1,
        r2: 2,
        r3: 3,
        size: 4,
        serial: 5,
    };
    let stores = [
        (home_addr(0, seg), pack_home(&home)),
        (writes_addr(0, seg), 6),
        (component_addr(0, 0, seg), 1),
        (sequencer_addr(0, seg), 2),
        (entry_addr(0, seg, 3), pack_alias(Some(&alias))),
        (frame_word_addr(0, 1, 0), 8),
        (frame_word_addr(0, 1, 1), 9),
        (page_word_addr(0, 2, 0), 3),
        (page_word_addr(0, 2, 1), 4),
    ];
    let mut words = PlainWords::new(alloc, 2)?;
    for (addr, value) in stores {
        store(&mut words, addr, value).ok_or("a word")?;
    }
    Ok(words)
}

fn made(alloc: Global) -> Result<Machine<PlainWords>, Fail> {
    let shared = shared_of(alloc)?;
    let mut banks = Vec::new(alloc);
    banks.push(bank_of(alloc, &shared)?)?;
    let words = words_of(alloc)?;
    let banks = Banks::of(banks);
    Ok(Machine::from_parts(MachineParts {
        words,
        banks,
        shared,
    }))
}

/// A step of class 0 on processor 0.
fn step(machine: &mut Machine<PlainWords>) {
    machine.machine_law();
    machine.shared().table().table_law();
    machine.step(Event {
        processor: 0,
        class: 0,
    });
}

/// What is pushed of the section of a class to a host of which one push fails, counted from 1, or none.
fn pushed(
    alloc: Global,
    machine: &Machine<PlainWords>,
    class: u8,
    failing: u32,
) -> Result<(bool, Vec<u8>), Fail> {
    if class >= machine.shared().table().count() {
        return Err(Fail::from("a class"));
    }
    let mut inputs = Vec::new(alloc);
    inputs.push(Vec::new(alloc))?;
    inputs.push(Vec::new(alloc))?;
    inputs.push(Vec::new(alloc))?;
    inputs.push(Vec::new(alloc))?;
    inputs.push(Vec::new(alloc))?;
    let failing = Vec::from_slice(alloc, &[failing])?;
    let mut host = MemoryHost::new(alloc, inputs, 4096, 4096, Vec::new(alloc), failing)?;
    let whole = section(&mut host, machine, class).is_ok();
    Ok((whole, Vec::from_slice(alloc, host.taken(0))?))
}

#[test]
fn two_sections(rt: HostRuntime) -> Result<(), Fail> {
    let mut machine = made(rt.alloc())?;
    step(&mut machine);
    step(&mut machine);
    for (class, failing, whole, text) in [
        (0, 0, true, LOW),
        (1, 0, true, HIGH),
        (1, 2, false, "class 1 high\n"),
    ] {
        let (is_whole, taken) = pushed(rt.alloc(), &machine, class, failing)?;
        assert_eq!(rt; is_whole, whole);
        assert_eq!(rt; taken.as_slice(), text.as_bytes());
    }
    Ok(())
}
