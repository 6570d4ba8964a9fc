//! Worked mail: both texts with the programs that they are read as, and two posters with a collector of a higher class, run by the
//! names of their orders of effect. The sections are those that the program prints for this configuration.

ghost use Rattle.std.specs.Prelude.{◌≡◌, ◌&&◌, not, IfOk};
ghost use Rattle.class_model.specs.Config.{classes};
ghost use Rattle.config_text.specs.Valid.{IsValid};
ghost use Rattle.loader.specs.Records.{AreVolumes, names_volume};

use config_text::{Config, read_config};
use loader::{model_state, names_volume};
use mailbox::{collect_text, post_text, run_mail};
use script_asm::{assemble, print};
use std::alloc::{AllocError, Global};
use std::test::Fail;
use volume_image::Volume;
use whole_machine::{ModelState, ProcName, model_section};

/// What posts 10 and 11 through four words in entry 0.
const POST: &str =
    "set r4 0\nset r7 3\n@find\nmakeknown r2 r4 r7\njumpz r0 @have\njump @find\n@have\ncopy r8 r1\nset r5 4\nset r6 2\nset r9 10\nset r10 1\n@go\njumpz r6 @end\nticket r8\ncopy r11 r1\njumpl r11 r5 @room\njump @end\n@room\nawait r8 r11\nput r9 r2\n@try\nupdate r8 r11 r10 r2\njumpz r0 @sent\njump @try\n@sent\nadvance r8\nadd r9 r10\nsub r6 r10\njump @go\n@end\nhalt\n";

/// Its program, printed.
const POST_PRINTED: &str =
    "set r4 0\nset r7 3\nmakeknown r2 r4 r7\njumpz r0 5\njump 2\ncopy r8 r1\nset r5 4\nset r6 2\nset r9 10\nset r10 1\njumpz r6 24\nticket r8\ncopy r11 r1\njumpl r11 r5 15\njump 24\nawait r8 r11\nput r9 r2\nupdate r8 r11 r10 r2\njumpz r0 20\njump 17\nadvance r8\nadd r9 r10\nsub r6 r10\njump 10\nhalt\n";

/// What collects three messages through entry 0.
const COLLECT: &str =
    "set r4 0\nset r7 1\n@find\nmakeknown r2 r4 r7\njumpz r0 @have\njump @find\n@have\ncopy r8 r1\nset r6 3\nset r10 1\n@go\njumpl r9 r6 @more\nhalt\n@more\ncopy r11 r9\nadd r11 r10\nawait r8 r11\n@read\nfetch r8 r9 r10 r9\njumpz r0 @done\njump @read\n@done\nget r12 r9\nout r12\nadd r9 r10\njump @go\n";

/// Its program, printed.
const COLLECT_PRINTED: &str =
    "set r4 0\nset r7 1\nmakeknown r2 r4 r7\njumpz r0 5\njump 2\ncopy r8 r1\nset r6 3\nset r10 1\njumpl r9 r6 10\nhalt\ncopy r11 r9\nadd r11 r10\nawait r8 r11\nfetch r8 r9 r10 r9\njumpz r0 16\njump 13\nget r12 r9\nout r12\nadd r9 r10\njump 8\n";

/// Two posters of class 0 and a collector of class 1, with a process that makes their segment.
const TEXT: &str =
    "gemkernel 1\nclasses 2\nclass low 0{}/15{} frames 2 pages 2 volume 0\nclass high 1{}/15{} frames 2 pages 2 volume 0\nprocessors 4\ncycle 0\nrounds 1\nquantum 1\nconsole 100\nscript 0\nset r5 511\nset r6 4\ncreate r2 r2 r2 r5 r6\nset r7 3\nmakeknown r2 r2 r7\nswapin r1\nhalt\nend\nscript 0\nset r4 0\nset r7 3\n@find\nmakeknown r2 r4 r7\njumpz r0 @have\njump @find\n@have\ncopy r8 r1\nset r5 4\nset r6 2\nset r9 10\nset r10 1\n@go\njumpz r6 @end\nticket r8\ncopy r11 r1\njumpl r11 r5 @room\njump @end\n@room\nawait r8 r11\nput r9 r2\n@try\nupdate r8 r11 r10 r2\njumpz r0 @sent\njump @try\n@sent\nadvance r8\nadd r9 r10\nsub r6 r10\njump @go\n@end\nhalt\nend\nscript 0\nset r4 0\nset r7 3\n@find\nmakeknown r2 r4 r7\njumpz r0 @have\njump @find\n@have\ncopy r8 r1\nset r5 4\nset r6 1\nset r9 20\nset r10 1\n@go\njumpz r6 @end\nticket r8\ncopy r11 r1\njumpl r11 r5 @room\njump @end\n@room\nawait r8 r11\nput r9 r2\n@try\nupdate r8 r11 r10 r2\njumpz r0 @sent\njump @try\n@sent\nadvance r8\nadd r9 r10\nsub r6 r10\njump @go\n@end\nhalt\nend\nscript 1\nset r4 0\nset r7 1\n@find\nmakeknown r2 r4 r7\njumpz r0 @have\njump @find\n@have\ncopy r8 r1\nset r6 3\nset r10 1\n@go\njumpl r9 r6 @more\nhalt\n@more\ncopy r11 r9\nadd r11 r10\nawait r8 r11\n@read\nfetch r8 r9 r10 r9\njumpz r0 @done\njump @read\n@done\nget r12 r9\nout r12\nadd r9 r10\njump @go\nend\nprocess 0 0 0 4\nprocess 1 0 1 4\nprocess 2 0 2 4\nprocess 3 1 3 4\nend\n";

/// What class 0 is shown where 10 is posted first.
const LOW: &str =
    "class 0 low\nprocess 0 0 ended script 0 place 6 ring 4\nregs 0 0 0 0 0 511 4 3 0 0 0 0 0 0 0 0\nprocess 1 0 ended script 1 place 24 ring 4\nregs 0 2 0 0 0 4 0 3 1 12 1 1 0 0 0 0\nprocess 2 0 ended script 2 place 24 ring 4\nregs 0 3 0 0 0 4 0 3 1 21 1 2 0 0 0 0\nclosed\nsegment 0 0 never writes 0 count 0 tickets 0\nentry 0 class 0 brackets 7 7 7 size 4 serial 1\nsegment 0 1 in writes 3 count 3 tickets 3\nwords 10 11 20 0\n";

/// What class 1 is shown then.
const HIGH: &str =
    "class 1 high\nline 10\nline 11\nline 20\nprocess 3 0 ended script 3 place 9 ring 4\nregs 0 2 0 0 0 0 3 1 1 3 1 3 20 0 0 0\nclosed\n";

/// What class 0 is shown where 20 is posted first.
const LOW_SWAPPED: &str =
    "class 0 low\nprocess 0 0 ended script 0 place 6 ring 4\nregs 0 0 0 0 0 511 4 3 0 0 0 0 0 0 0 0\nprocess 1 0 ended script 1 place 24 ring 4\nregs 0 3 0 0 0 4 0 3 1 12 1 2 0 0 0 0\nprocess 2 0 ended script 2 place 24 ring 4\nregs 0 1 0 0 0 4 0 3 1 21 1 0 0 0 0 0\nclosed\nsegment 0 0 never writes 0 count 0 tickets 0\nentry 0 class 0 brackets 7 7 7 size 4 serial 1\nsegment 0 1 in writes 3 count 3 tickets 3\nwords 20 10 11 0\n";

/// What class 1 is shown then.
const HIGH_SWAPPED: &str =
    "class 1 high\nline 20\nline 10\nline 11\nprocess 3 0 ended script 3 place 9 ring 4\nregs 0 2 0 0 0 0 3 1 1 3 1 3 11 0 0 0\nclosed\n";

/// The process that makes the segment, both posters and the collector: processor, class and slot.
const MAKER: ProcName = ProcName {
    processor: 0,
    class: 0,
    slot: 0,
};

const FIRST: ProcName = ProcName {
    processor: 1,
    class: 0,
    slot: 0,
};

const SECOND: ProcName = ProcName {
    processor: 2,
    class: 0,
    slot: 0,
};

const COLLECTOR: ProcName = ProcName {
    processor: 3,
    class: 1,
    slot: 0,
};

/// How many effects each has where it waits for nobody: its instructions, each awaited look among them.
const MADE: u8 = 7;

const POSTED_TWO: u8 = 35;

const POSTED_ONE: u8 = 23;

const COLLECTED: u8 = 39;

fn configuration(alloc: Global) -> Result<Config, Fail>
    ensures { IfOk result (λ k. IsValid k) }
{
    match read_config(alloc, TEXT.as_bytes()) {
        Ok(config) => Ok(config),
        Err(_) => Err(Fail::from("a configuration")),
    }
}

/// Whether the pools name no volume.
fn has_none(config: &Config) -> bool
    ensures { result ≡ (not (names_volume config.now 1) && not (names_volume config.now 2) && not (names_volume config.now 3) && not (names_volume config.now 4)) }
{
    !names_volume(config, 1)
        && !names_volume(config, 2)
        && !names_volume(config, 3)
        && !names_volume(config, 4)
}

/// The volumes of a configuration that names none.
fn no_volumes(alloc: Global, config: &Config) -> Result<Vec<(u8, Volume)>, Fail>
    ensures { IfOk result (λ v. AreVolumes config.now v.items) }
{
    if !has_none(config) {
        return Err(Fail::from("no volume"));
    }
    Ok(Vec::new(alloc))
}

/// The state at the opening.
fn opened(alloc: Global) -> Result<ModelState, Fail>
    ensures { IfOk result (λ m. classes m.shared ≡ 2) }
{
    let config = configuration(alloc)?;
    if config.table.count() != 2 {
        return Err(Fail::from("two classes"));
    }
    let volumes = no_volumes(alloc, &config)?;
    match model_state(alloc, &config, volumes.as_slice(), 1) {
        Ok(state) => Ok(state),
        Err(_) => Err(Fail::from("an opening")),
    }
}

/// Each name so many times.
fn names_of(alloc: Global, turns: &[(ProcName, u8)]) -> Result<Vec<ProcName>, AllocError> {
    let mut names = Vec::new(alloc);
    for (name, times) in turns {
        for _ in 0..*times {
            names.push(*name)?;
        }
    }
    Ok(names)
}

/// The sections of both classes after these names.
fn sections(alloc: Global, turns: &[(ProcName, u8)]) -> Result<(String, String), Fail> {
    let mut state = opened(alloc)?;
    let names = names_of(alloc, turns)?;
    run_mail(alloc, &mut state, names.as_slice())?;
    let low = model_section(alloc, &state, 0)?;
    let high = model_section(alloc, &state, 1)?;
    Ok((low, high))
}

#[test]
fn a_post(rt: HostRuntime) -> Result<(), Fail> {
    let text = post_text(rt.alloc(), 0, 4, 10, 2)?;
    assert_eq!(rt; text.as_str(), POST);
    let program = match assemble(rt.alloc(), POST) {
        Ok(program) => program,
        Err(_) => Err("a program")?,
    };
    assert_eq!(rt; print(rt.alloc(), &program)?.as_str(), POST_PRINTED);
    Ok(())
}

#[test]
fn a_collect(rt: HostRuntime) -> Result<(), Fail> {
    let text = collect_text(rt.alloc(), 0, 3)?;
    assert_eq!(rt; text.as_str(), COLLECT);
    let program = match assemble(rt.alloc(), COLLECT) {
        Ok(program) => program,
        Err(_) => Err("a program")?,
    };
    assert_eq!(rt; print(rt.alloc(), &program)?.as_str(), COLLECT_PRINTED);
    Ok(())
}

#[test]
fn greatest_numbers(rt: HostRuntime) -> Result<(), Fail> {
    let text = post_text(rt.alloc(), 7, 64, 18_446_744_073_709_551_615, 255)?;
    assert!(rt; text.as_str().contains("set r4 7\n"));
    assert!(rt;
        text.as_str()
            .contains("set r5 64\nset r6 255\nset r9 18446744073709551615\n")
    );
    let text = collect_text(rt.alloc(), 7, 64)?;
    assert!(rt; text.as_str().starts_with("set r4 7\n"));
    assert!(rt; text.as_str().contains("set r6 64\n"));
    Ok(())
}

#[test]
fn ten_is_posted_first(rt: HostRuntime) -> Result<(), Fail> {
    let turns = [
        (MAKER, MADE),
        (FIRST, POSTED_TWO),
        (SECOND, POSTED_ONE),
        (COLLECTOR, COLLECTED),
    ];
    let (low, high) = sections(rt.alloc(), &turns)?;
    assert_eq!(rt; low.as_str(), LOW);
    assert_eq!(rt; high.as_str(), HIGH);
    Ok(())
}

#[test]
fn twenty_is_posted_first(rt: HostRuntime) -> Result<(), Fail> {
    let turns = [
        (MAKER, MADE),
        (SECOND, POSTED_ONE),
        (FIRST, POSTED_TWO),
        (COLLECTOR, COLLECTED),
    ];
    let (low, high) = sections(rt.alloc(), &turns)?;
    assert_eq!(rt; low.as_str(), LOW_SWAPPED);
    assert_eq!(rt; high.as_str(), HIGH_SWAPPED);
    Ok(())
}

/// The collector awaits the first message for a while, and goes on behind the posts. Names of processes that ended make no step.
#[test]
fn the_collector_waits(rt: HostRuntime) -> Result<(), Fail> {
    let turns = [
        (MAKER, MADE),
        (COLLECTOR, 20),
        (FIRST, POSTED_TWO),
        (SECOND, POSTED_ONE),
        (COLLECTOR, 40),
        (FIRST, 3),
    ];
    let (low, high) = sections(rt.alloc(), &turns)?;
    assert_eq!(rt; low.as_str(), LOW);
    assert_eq!(rt; high.as_str(), HIGH);
    Ok(())
}

/// Of posts that aren't there yet the collector has none: after the first message it awaits the next one.
#[test]
fn one_message_is_there(rt: HostRuntime) -> Result<(), Fail> {
    let turns = [(MAKER, MADE), (SECOND, POSTED_ONE), (COLLECTOR, 200)];
    let (_, high) = sections(rt.alloc(), &turns)?;
    assert!(rt;
        high.as_str().starts_with(
            "class 1 high\nline 20\nprocess 3 0 live script 3 place 12 ring 4\n"
        )
    );
    Ok(())
}
