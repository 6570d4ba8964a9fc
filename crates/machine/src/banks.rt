//! The virtual processors of all processors.

ghost use Rattle.std.specs.Prelude.{◌≡◌, ◌<◌, length};
ghost use Rattle.class_model.specs.Config.{classes};
ghost use Rattle.machine.specs.Banks.{bank_at, vp_in, vp_at};
ghost use Rattle.machine.specs.Steps.{ProcessingFits, BankSteps, BanksStep};

use crate::virtual_processor::VirtualProcessor;
use class_model::Shared;
use std::marker::Model;
use words_layout::WordPort;

/// The virtual processors of one processor, one for each class, in class order. Contracts see their list.
#[derive(Drop)]
pub struct Bank {
    items: Vec<VirtualProcessor>,
}

impl Model for Bank {
    ghost use Rattle.std.specs.Prelude.{List};
    ghost use Rattle.machine.specs.Processing.{Processing};

    ghost Value = { List Processing };

    ghost view = { λ b. b.items.items };
}

impl Bank {
    /// The bank of these virtual processors.
    pub fn of(items: Vec<VirtualProcessor>) -> Bank
        ensures { result ≡ items.items }
    {
        Bank { items }
    }

    /// Its virtual processors.
    pub fn into_items(self) -> Vec<VirtualProcessor>
        ensures { result.items ≡ self }
    {
        self.items
    }

    /// How many there are.
    pub fn len(&self) -> usize
        ensures { result ≡ length self.now }
    {
        self.items.len()
    }

    /// The virtual processor of a class.
    pub fn at(&self, class: u8) -> &VirtualProcessor
        requires { class < length self.now }
        ensures { result.now ≡ vp_in self.now class }
    {
        &self.items[class as usize]
    }

    /// The virtual processor of a class takes a step.
    pub fn step<W: WordPort>(&mut self, class: u8, port: &mut W, shared: &Shared) -> Option<u8>
        requires class { class < length self.old }
        requires fits { ProcessingFits shared.now (vp_in self.old class) }
        requires layout { W.classes port.old ≡ classes shared.now }
        ensures step { BankSteps W.relation shared.now class self.old port.old self.new port.new result }
        ensures layout { W.classes port.new ≡ classes shared.now }
    {
        let item = &mut self.items[class as usize];
        item.step_effect(port, shared)
    }
}

/// The banks of all processors, in order. Contracts see the list of their lists.
#[derive(Drop)]
pub struct Banks {
    items: Vec<Bank>,
}

impl Model for Banks {
    ghost use Rattle.std.specs.Prelude.{List};
    ghost use Rattle.machine.specs.Processing.{Processing};

    ghost Value = { List (List Processing) };

    ghost view = { λ b. b.items.items };
}

impl Banks {
    /// These banks.
    pub fn of(items: Vec<Bank>) -> Banks
        ensures { result ≡ items.items }
    {
        Banks { items }
    }

    /// The banks.
    pub fn into_items(self) -> Vec<Bank>
        ensures { result.items ≡ self }
    {
        self.items
    }

    /// How many there are.
    pub fn len(&self) -> usize
        ensures { result ≡ length self.now }
    {
        self.items.len()
    }

    /// The bank of a processor.
    pub fn at(&self, processor: u8) -> &Bank
        requires { processor < length self.now }
        ensures { result.now ≡ bank_at self.now processor }
    {
        &self.items[processor as usize]
    }

    /// The virtual processor of a class on a processor takes a step.
    pub fn step<W: WordPort>(
        &mut self,
        processor: u8,
        class: u8,
        port: &mut W,
        shared: &Shared,
    ) -> Option<u8>
        requires processor { processor < length self.old }
        requires class { class < length (bank_at self.old processor) }
        requires fits { ProcessingFits shared.now (vp_at self.old processor class) }
        requires layout { W.classes port.old ≡ classes shared.now }
        ensures step { BanksStep W.relation shared.now processor class self.old port.old self.new port.new result }
        ensures layout { W.classes port.new ≡ classes shared.now }
    {
        let bank = &mut self.items[processor as usize];
        bank.step(class, port, shared)
    }
}
