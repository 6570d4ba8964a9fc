//! The program: it hands the words and the host of its process to the top call, and says what that answered.
#![tactic(auto)]

ghost use Rattle.std.specs.Prelude.{◌≡◌, ◌⊎◌, IfOk, map, string_bytes};
ghost use Rattle.command_run.specs.Shows.{RunShows, IsSchedule};
ghost use Rattle.command_threads.specs.Orders.{IsRoundOrder};
ghost use Rattle.command_words.specs.declared.asked.Plan.TheVariants.{Sim, Run};
ghost use Rattle.command_words.specs.Words.{Accepts};
ghost use Rattle.kernel_top.specs.Answer.{UsageShows, IsNone};

use command_input::Status;
use host_ports::{FileHost, Host};
use kernel_top::store_main;
use processors::NoPace;
use safe_save::{Disk, FileDisk};
use std::alloc::{AllocError, Global};
use std::io::ErrorKind;
use std::process::ExitCode;
use std::rt::Env;
use std::thread::Threads;
use std::{env, io};

/// The words after the program's name. None where they can't be had, as where one isn't text.
fn words_after_name(rt: &(impl Env + AllocGlobal)) -> Result<Option<Vec<String>>, Status> {
    let mut words = Vec::new(rt.alloc());
    let all = match env::args(rt) {
        Ok(all) => all,
        Err(fault) if fault.kind() == ErrorKind::OutOfMemory => return Err(Status::NoMemory),
        Err(_) => return Ok(None),
    };
    for word in all.skip(1) {
        if words.push(word).is_err() {
            return Err(Status::NoMemory);
        }
    }
    Ok(Some(words))
}

/// The texts of the words.
fn texts_of(alloc: Global, words: &[String]) -> Result<Vec<&str>, AllocError>
    ensures { IfOk result (λ texts. map (λ w. w.now) texts.items ≡ map string_bytes words.now) }
{
    let mut texts = Vec::new(alloc);
    for word in words {
        texts.push(word.as_str())?;
    }
    Ok(texts)
}

/// What the top call answers to those words on that host and that disk, or NoMemory.
fn run<H: Host, D: Disk>(
    rt: &(impl AllocGlobal + Threads + Sync),
    words: &[String],
    host: &mut H,
    disk: &mut D,
) -> Status
    // Usage exactly where the words aren't accepted, where there was memory for them.
    ensures usage { (result ≡ Status.NoMemory) ⊎ UsageShows IsNone (map string_bytes words.now) (H.ports host.old) (H.ports host.new) result }
    // By `sim` and by `run`: the headline, and whatever else each answer says, where there was memory for the words.
    ensures sim { (result ≡ Status.NoMemory) ⊎ (Accepts (map string_bytes words.now) Sim → RunShows IsSchedule (H.ports host.old) (H.ports host.new) result) }
    ensures run { (result ≡ Status.NoMemory) ⊎ (Accepts (map string_bytes words.now) Run → RunShows IsRoundOrder (H.ports host.old) (H.ports host.new) result) }
{
    match texts_of(rt.alloc(), words) {
        Ok(texts) => store_main(rt, rt.alloc(), texts.as_slice(), host, &NoPace, disk),
        Err(_) => Status::NoMemory,
    }
}

/// What the top call answers to the words of the process. Words that can't be had are as no words.
fn answer<H: Host, D: Disk>(
    rt: &(impl Env + AllocGlobal + Threads + Sync),
    host: &mut H,
    disk: &mut D,
) -> Status {
    match words_after_name(rt) {
        Ok(Some(words)) => run(rt, words.as_slice(), host, disk),
        Ok(None) => run(rt, &[], host, disk),
        Err(status) => status,
    }
}

/// Says on standard error what was answered, but for `Done`, of which nothing is said.
fn say(rt: &impl Eprint, status: Status) -> io::Result<()> {
    if status == Status::Done {
        return Ok(());
    }
    rt.eprintln(status)
}

/// Exits with the number of the answer.
fn main(rt: HostRuntime) -> ExitCode {
    let status = match rt.clone() {
        Ok(files) => match rt.clone() {
            Ok(store) => answer(&rt, &mut FileHost::new(files), &mut FileDisk::new(store)),
            Err(_) => Status::NoMemory,
        },
        Err(_) => Status::NoMemory,
    };
    // Where standard error can't be written, the number is all that is left to tell.
    let _ = say(&rt, status);
    ExitCode::from(status.number())
}
