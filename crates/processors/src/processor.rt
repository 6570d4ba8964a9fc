//! One processor and its steps.

ghost use Rattle.std.specs.Prelude.{◌≡◌, ◌<◌, ◌≤◌, ◌+◌, ◌/◌, ◌^◌, All, length};
ghost use Rattle.class_model.specs.Config.{classes};
ghost use Rattle.machine.specs.Steps.{IsBank};
ghost use Rattle.shared_words.specs.Ports.{PortGains};
ghost use Rattle.round_laws.specs.Live.{bank_live};
ghost use Rattle.processors.specs.Turns.{Takes};
ghost use Rattle.processors.specs.Lists.{CycleFits};
ghost use Rattle.words_layout.specs.Sizes.{class_words};

use crate::pace::Pace;
use arrayvec::ArrayVec;
use class_model::Shared;
use machine::{Bank, VirtualProcessor};
use shared_words::SeatPort;
use std::marker::Model;
use words_layout::WordPort;

/// The virtual processors of one processor, its cycle of 1 to 16 classes, how many steps a quantum has, and how many
/// steps it has taken.
#[derive(Drop)]
pub struct Processor {
    number: u8,
    bank: Bank,
    cycle: ArrayVec<u8, 16>,
    quantum: u32,
    taken: u64,
}

impl Model for Processor {
    ghost use Rattle.std.specs.Prelude.{◌<◌, All, length};
    ghost use Rattle.processors.specs.Turns.{ProcessorState};

    ghost Value = { ProcessorState };

    ghost view = { λ p. record { number = p.number; bank = p.bank; cycle = p.cycle.items; quantum = p.quantum; taken = p.taken } };

    ghost invariant = { λ p. (0 < length p.cycle.items) × All (λ c. c < length p.bank) p.cycle.items };
}

impl Processor {
    /// The processor of this number with these virtual processors, one for each class in class order. It stands at place
    /// 0 of its cycle, and no step is taken.
    pub fn new(
        number: u8,
        items: Vec<VirtualProcessor>,
        cycle: ArrayVec<u8, 16>,
        quantum: u32,
    ) -> Processor
        requires some { 0 < length cycle.items }
        requires classes { All (λ c. c < length items.items) cycle.items }
        ensures { result ≡ record { number = number; bank = items.items; cycle = cycle.items; quantum = quantum; taken = 0 } }
    {
        Processor {
            number,
            bank: Bank::of(items),
            cycle,
            quantum,
            taken: 0,
        }
    }

    /// Its virtual processors.
    pub fn into_items(self) -> Vec<VirtualProcessor>
        ensures { result.items ≡ self.bank }
    {
        self.bank.into_items()
    }

    /// Its cycle names classes of its virtual processors.
    pub(crate) fn cycle_fits(&self)
        ensures { CycleFits self.now }
    {
        let _ = &self.number;
    }

    /// Whether one of its processes is live.
    pub(crate) fn is_live(&self, shared: &Shared) -> bool
        requires { length self.now.bank ≡ classes shared.now }
        ensures { result ≡ bank_live self.now.bank }
    {
        for class in 0..shared.table().count() {
            if !self.bank.at(class).is_idle() {
                return true;
            }
        }
        false
    }

    /// Takes exactly as many steps as a quantum has, on a port of the shared words. The classes follow the cycle from
    /// where the processor stood. It takes no lock and waits for nobody but the pace.
    pub fn quantum<P: Pace>(&mut self, port: &mut SeatPort, shared: &Shared, pace: &P)
        requires bank { IsBank shared.now self.old.bank }
        requires layout { length port.old.words.words / class_words ≡ classes shared.now }
        requires room { self.old.taken + self.old.quantum < 2 ^ 64 }
        ensures steps { Takes PortGains shared.now self.old.quantum self.old port.old self.new port.new }
        ensures bank { IsBank shared.now self.new.bank }
        ensures layout { length port.new.words.words / class_words ≡ classes shared.now }
    {
        let count = self.quantum;
        self.take_steps(count, port, shared, pace);
    }

    /// Takes so many steps on any port.
    fn take_steps<W: WordPort, P: Pace>(
        &mut self,
        count: u32,
        port: &mut W,
        shared: &Shared,
        pace: &P,
    )
        requires bank { IsBank shared.now self.old.bank }
        requires layout { W.classes port.old ≡ classes shared.now }
        requires room { self.old.taken + count < 2 ^ 64 }
        ensures steps { Takes W.relation shared.now count self.old port.old self.new port.new }
        ensures bank { IsBank shared.now self.new.bank }
        ensures layout { W.classes port.new ≡ classes shared.now }
    {
        for _ in 0..count {
            self.take_step(port, shared, pace);
        }
    }

    /// Takes the next step: the virtual processor whose class stands at the place of the cycle takes it.
    fn take_step<W: WordPort, P: Pace>(&mut self, port: &mut W, shared: &Shared, pace: &P)
        requires bank { IsBank shared.now self.old.bank }
        requires layout { W.classes port.old ≡ classes shared.now }
        requires room { self.old.taken + 1 < 2 ^ 64 }
        ensures steps { Takes W.relation shared.now 1 self.old port.old self.new port.new }
        ensures bank { IsBank shared.now self.new.bank }
        ensures layout { W.classes port.new ≡ classes shared.now }
    {
        pace.at(self.number, self.taken);
        let place = self.taken % self.cycle.len() as u64;
        let class = self.cycle.as_slice()[place as usize];
        self.bank.step(class, port, shared);
        self.taken += 1;
    }
}
