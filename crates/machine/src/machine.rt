//! Machines: words, the virtual processors of all processors, and what no step changes.

ghost use Rattle.std.specs.Prelude.{◌≡◌, ℕ, List, ◌<◌, ◌↔◌, All, Option, IsTrue, length};
ghost use Rattle.class_model.specs.Config.{classes};
ghost use Rattle.class_model.specs.Process.{ProcName};
ghost use Rattle.machine.specs.Banks.{vp_at};
ghost use Rattle.machine.specs.Plain.{IsLaid};
ghost use Rattle.machine.specs.Steps.{InRange, IsMachine, EventBy, RunsBy, HasEnded};

use crate::banks::Banks;
use crate::virtual_processor::VirtualProcessor;
use class_model::Shared;
use std::marker::Model;
use words_layout::{Event, PlainWords, WordPort};

/// The parts of a machine: 1 to 4 banks, in each of them one virtual processor for each class, in class order.
#[derive(Drop)]
pub struct MachineParts<W: WordPort> {
    pub words: W,
    pub banks: Banks,
    pub shared: Shared,
}

/// A machine on a port of words. Contracts see its parts; all its processes fit, and its layout is that of the table.
#[derive(Drop)]
pub struct Machine<W: WordPort> {
    words: W,
    banks: Banks,
    shared: Shared,
}

impl<W: WordPort> Model for Machine<W> {
    ghost use Rattle.machine.specs.Banks.{State};
    ghost use Rattle.machine.specs.Steps.{IsMachine};

    ghost Value = { State W };

    ghost view = { λ m. record { words = m.words; banks = m.banks; shared = m.shared } };

    ghost invariant = { λ m. IsMachine (W.classes m.words) m.banks m.shared };
}

impl<W: WordPort> Machine<W> {
    /// The machine of these parts.
    pub fn from_parts(parts: MachineParts<W>) -> Machine<W>
        requires { IsMachine (W.classes parts.words) parts.banks parts.shared }
        ensures { result ≡ record { words = parts.words; banks = parts.banks; shared = parts.shared } }
    {
        let MachineParts {
            words,
            banks,
            shared,
        } = parts;
        Machine {
            words,
            banks,
            shared,
        }
    }

    /// Its parts.
    pub fn into_parts(self) -> MachineParts<W>
        ensures same { self ≡ record { words = result.words; banks = result.banks; shared = result.shared } }
        ensures fits { IsMachine (W.classes result.words) result.banks result.shared }
    {
        let Machine {
            words,
            banks,
            shared,
        } = self;
        MachineParts {
            words,
            banks,
            shared,
        }
    }

    /// What holds of every machine.
    pub fn machine_law(&self)
        ensures { IsMachine (W.classes self.now.words) self.now.banks self.now.shared }
    {
        let _ = &self.banks;
    }

    /// The words.
    pub fn words(&self) -> &W
        ensures { result.now ≡ self.now.words }
    {
        &self.words
    }

    /// What no step changes.
    pub fn shared(&self) -> &Shared
        ensures { result.now ≡ self.now.shared }
    {
        &self.shared
    }

    /// How many processors there are, from 1 to 4.
    pub fn processors(&self) -> u8
        ensures { result ≡ length self.now.banks }
    {
        self.banks.len() as u8
    }

    /// The virtual processor of a class on a processor.
    pub fn virtual_processor(&self, processor: u8, class: u8) -> &VirtualProcessor
        requires processor { processor < length self.now.banks }
        requires class { class < classes self.now.shared }
        ensures { result.now ≡ vp_at self.now.banks processor class }
    {
        self.banks.at(processor).at(class)
    }

    /// One event: a step of the virtual processor that it names.
    pub fn step(&mut self, event: Event)
        requires { InRange self.old event }
        ensures { (effect : Option ℕ) × EventBy W.relation event self.old self.new effect }
    {
        let _effect = self.step_effect(event);
    }

    /// One event, and the slot of the process whose instruction, or look of a `read` or `await`, takes effect by it.
    /// None exactly where none does.
    pub fn step_effect(&mut self, event: Event) -> Option<u8>
        requires { InRange self.old event }
        ensures { EventBy W.relation event self.old self.new result }
    {
        self.banks.step(event.processor, event.class, &mut self.words, &self.shared)
    }

    /// One event, as by `step`. Where no process of its virtual processor is live it does nothing; this is tested first, so
    /// that such an event costs one test.
    fn step_live(&mut self, event: Event)
        requires { InRange self.old event }
        ensures { (effect : Option ℕ) × EventBy W.relation event self.old self.new effect }
    {
        if !self
            .virtual_processor(event.processor, event.class)
            .is_idle()
        {
            self.step(event);
        }
    }

    /// Each event in order.
    pub fn run(&mut self, events: &[Event])
        requires { All (λ e. InRange self.old e) events.now }
        ensures { (names : List ProcName) × RunsBy W.relation events.now self.old self.new names }
    {
        for event in events {
            self.step_live(*event);
        }
    }

    /// Whether no process of the class is live.
    pub fn ended(&self, class: u8) -> bool
        requires { class < classes self.now.shared }
        ensures { IsTrue result ↔ HasEnded self.now class }
    {
        for processor in 0..self.processors() {
            if !self.virtual_processor(processor, class).is_idle() {
                return false;
            }
        }
        true
    }
}

impl Machine<PlainWords> {
    /// What holds of every machine on words in memory: its words are as many as its classes have.
    pub fn plain_law(&self)
        ensures { IsLaid self.now }
    {
        self.machine_law();
        let _classes = self.words.classes();
    }
}
