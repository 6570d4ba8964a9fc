//! A process.

ghost use Rattle.std.specs.Prelude.{◌≡◌, ◌<◌, ◌≤◌, ◌+◌, ◌%◌, IsTrue, slice_index, MatchResult, Some, None, length};
ghost use Rattle.std.specs.Option.{option_map};
ghost use Rattle.lists.specs.Lists.{overwrite};
ghost use Rattle.policy.specs.declared.rule.Rule.{Rule};
ghost use Rattle.class_model.specs.Process.{new_process, root_known, reg, with_reg, known_at, usable_at, tally_of, refused, answered, reply, settled, learned, free_known};
ghost use Rattle.class_model.specs.Next.{outcome_of};

use crate::request::{Shown, Tally};
use arrayvec::ArrayVec;
use known_segs::KnownTable;
use policy::{Known, Reply, Rights, Rule, usable};
use rings::{Brackets, Ring};
use script_lang::Reg;
use std::marker::Model;
use words_layout::SegId;

/// How many words the pad has.
const PAD_WORDS: usize = 64;

/// Where a call goes back to.
#[derive(Clone, Copy, Debug, PartialEq, Eq)]
pub struct Return {
    pub script: u8,
    pub place: u16,
    pub ring: Ring,
}

impl Model for Return {
    ghost use Rattle.class_model.specs.Process.{Return as ReturnValue};

    ghost Value = { ReturnValue };

    ghost view = { λ r. record { script = r.script; place = r.place; ring = r.ring } };

    ghost inverse = { λ v. record { script = v.script; place = v.place; ring = v.ring } };
}

impl Default for Return {
    /// What stands in a place of the stack that isn't used.
    fn default() -> Return
        ensures { result ≡ record { script = 0; place = 0; ring = 0 } }
    {
        Return {
            script: 0,
            place: 0,
            ring: Ring(0),
        }
    }
}

/// The private state of a process: where it is, its ring, whether it is live, the look at an eventcount that it has begun,
/// its registers, what it knows, up to eight calls to go back from, and its pad words. What each step reads stands first.
#[derive(Drop)]
pub struct ProcessState {
    pub(crate) script: u8,
    pub(crate) place: u16,
    pub(crate) ring: Ring,
    pub(crate) live: bool,
    pub(crate) look: Option<Tally>,
    pub(crate) regs: [u64; 16],
    pub(crate) known: KnownTable,
    /// The last call first.
    pub(crate) stack: ArrayVec<Return, 8>,
    pub(crate) pad: [u64; 64],
}

impl Model for ProcessState {
    ghost use Rattle.class_model.specs.Process.{Process};

    ghost Value = { Process };

    ghost view = { λ p. record { script = p.script; place = p.place; ring = p.ring; stack = p.stack.items; regs = p.regs; pad = p.pad; known = p.known; live = p.live; look = p.look } };
}

/// The root as a process of a class knows it: class 0 may modify it, all may observe it.
fn root_known(class: u8) -> Known
    ensures { result ≡ root_known class }
{
    Known {
        seg: SegId {
            mentor: 0,
            serial: 0,
        },
        class: 0,
        brackets: Brackets {
            r1: 7,
            r2: 7,
            r3: 7,
        },
        size: 0,
        rights: Rights::wanted(if class == 0 { 3 } else { 1 }),
    }
}

/// Writes these words over the list's own, one after the other from a place on, as far as it has places.
#[tactic(auto, using(crate::proofs::Overwrites::past))]
pub fn write_over(list: &mut [u64], at: usize, words: &[u64])
    ensures { list.new ≡ overwrite list.old at words.now }
{
    let mut place = at;
    for word in words {
        if place >= list.len() {
            return;
        }
        list[place] = *word;
        place += 1;
    }
}

impl ProcessState {
    /// A live process at the start of a script, with r2 = `start`. It knows the root.
    pub fn new(class: u8, script: u8, ring: Ring, start: u64) -> ProcessState
        ensures { result ≡ new_process class script ring start }
    {
        let mut regs = [0; 16];
        regs[2] = start;
        ProcessState {
            script,
            place: 0,
            ring,
            stack: ArrayVec::new(),
            regs,
            pad: [0; PAD_WORDS],
            known: KnownTable::new(root_known(class)),
            live: true,
            look: None,
        }
    }

    /// The number of its script.
    pub fn script(&self) -> u8
        ensures { result ≡ self.now.script }
    {
        self.script
    }

    /// The place of its next instruction.
    pub fn place(&self) -> u16
        ensures { result ≡ self.now.place }
    {
        self.place
    }

    /// The ring in which it runs.
    pub fn ring(&self) -> Ring
        ensures { result ≡ self.now.ring }
    {
        self.ring
    }

    /// What a register holds.
    pub fn register(&self, number: Reg) -> u64
        ensures { result ≡ reg self.now number }
    {
        self.regs[number.number() as usize]
    }

    /// What all registers hold.
    pub fn registers(&self) -> &[u64; 16]
        ensures { result.now ≡ self.now.regs }
    {
        &self.regs
    }

    /// Whether it has not ended.
    pub fn is_live(&self) -> bool
        ensures { result ≡ self.now.live }
    {
        self.live
    }

    /// The words of its pad.
    pub fn pad(&self) -> &[u64; 64]
        ensures { result.now ≡ self.now.pad }
    {
        &self.pad
    }

    /// What it knows under a number. None exactly where the number is above 15 or the place is empty.
    pub fn known(&self, segno: u64) -> Option<&Known>
        ensures { option_map (λ k. k.now) result ≡ known_at self.now segno }
    {
        self.known.get(segno)
    }

    /// How far its look at an eventcount has come.
    pub fn tally(&self) -> Tally
        ensures { result ≡ tally_of self.now }
    {
        self.look.unwrap_or(Tally { seen: 0, sum: 0 })
    }

    /// Goes on to the next place, with a code in r0 and a value in r1.
    pub fn reply(&mut self, code: u8, value: u64)
        requires { self.old.place < 256 }
        ensures { self.new ≡ reply self.old code value }
    {
        self.regs[0] = code as u64;
        self.regs[1] = value;
        self.place += 1;
    }

    /// What r0, modulo 256, and r1 hold: where an instruction has just replied, its reply.
    pub fn reply_held(&self) -> Reply
        ensures { result ≡ record { code = reg self.now 0 % 256; value = reg self.now 1 } }
    {
        Reply {
            code: (self.regs[0] % 256) as u8,
            value: self.regs[1],
        }
    }

    /// Is refused, which changes r0 and r1 alone.
    pub fn refuse(&mut self, rule: Rule)
        requires { self.old.place < 256 }
        ensures { self.new ≡ refused self.old rule }
    {
        self.reply(rule.number(), 0);
    }

    /// Is answered Ok with a value.
    pub fn answer(&mut self, value: u64)
        requires { self.old.place < 256 }
        ensures { self.new ≡ answered self.old value }
    {
        self.reply(0, value);
    }

    /// Takes a segment into the least empty place of its known table.
    fn learn(&mut self, known: Known)
        requires { self.old.place < 256 }
        ensures { self.new ≡ learned self.old known (free_known self.old) }
    {
        match self.known.put(known) {
            Ok(place) => self.answer(place as u64),
            Err(rule) => self.refuse(rule),
        }
    }

    /// Takes words into its pad.
    fn take_words(&mut self, at: u8, words: &[u64])
        requires { self.old.place < 256 }
        ensures { self.new ≡ answered (record self.old { pad = overwrite self.old.pad at words.now }) (length words.now) }
    {
        write_over(&mut self.pad, at as usize, words);
        self.answer(words.len() as u64);
    }

    /// Takes the effect of its request.
    pub fn settle(&mut self, shown: &Shown)
        requires { self.old.place < 256 }
        ensures { self.new ≡ settled self.old (outcome_of shown.now) }
    {
        match *shown {
            Shown::Refused(rule) => self.refuse(rule),
            Shown::Value(value) => self.answer(value),
            Shown::Learns(known) => self.learn(known),
            Shown::Words { at, words } => self.take_words(at, words),
            Shown::Printed { place, .. } => self.answer(place),
            Shown::Looked(tally) => self.look = tally,
            Shown::Counted(sum) => {
                self.look = None;
                self.answer(sum);
            }
        }
    }
}
