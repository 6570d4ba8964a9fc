//! The processors of a run.

ghost use Rattle.std.specs.Prelude.{◌≡◌, ◌≤◌, [], length, vec_len, vec_capacity};
ghost use Rattle.class_model.specs.Config.{classes};
ghost use Rattle.round_laws.specs.Live.{any_live};
ghost use Rattle.processors.specs.Lists.{live_if, banks_of, team_list};
ghost use Rattle.processors.specs.Teams.{IfThere, HasWidth, team_count};

use crate::processor::Processor;
use class_model::Shared;

/// The processors of a run, 1 to 4 of them: a later one is there only where the one before it is.
#[derive(Drop)]
pub struct Team {
    pub first: Processor,
    pub second: Option<Processor>,
    pub third: Option<Processor>,
    pub fourth: Option<Processor>,
}

/// Whether a process of this processor is live, if it is there.
fn lives(processor: &Option<Processor>, shared: &Shared) -> bool
    requires { IfThere processor.now (λ p. length p.bank ≡ classes shared.now) }
    ensures { result ≡ live_if processor.now }
{
    if let Some(processor) = processor {
        return processor.is_live(shared);
    }
    false
}

impl Team {
    /// Takes the 1 to 4 processors of a list, whose room stays.
    pub fn take_from(list: &mut Vec<Processor>) -> Team
        requires some { 1 ≤ vec_len list.old }
        requires most { vec_len list.old ≤ 4 }
        ensures team { team_list result ≡ list.old.items }
        ensures list { list.new.items ≡ [] }
        ensures room { vec_capacity list.new ≡ vec_capacity list.old }
    {
        let fourth = if list.len() == 4 { list.pop() } else { None };
        let third = if list.len() == 3 { list.pop() } else { None };
        let second = if list.len() == 2 { list.pop() } else { None };
        let Some(first) = list.pop() else {
            unreachable!()
        };
        Team {
            first,
            second,
            third,
            fourth,
        }
    }

    /// Puts its processors into an empty list with room for four.
    pub fn put_into(self, list: &mut Vec<Processor>)
        requires empty { list.old.items ≡ [] }
        requires room { 4 ≤ vec_capacity list.old }
        ensures { list.new.items ≡ team_list self }
    {
        let Team {
            first,
            second,
            third,
            fourth,
        } = self;
        list.push_reserved(first);
        if let Some(processor) = second {
            list.push_reserved(processor);
        }
        if let Some(processor) = third {
            list.push_reserved(processor);
        }
        if let Some(processor) = fourth {
            list.push_reserved(processor);
        }
    }

    /// Whether a process of one of the processors is live.
    pub(crate) fn is_live(&self, shared: &Shared) -> bool
        requires { HasWidth shared.now self.now }
        ensures { result ≡ any_live (banks_of self.now) }
    {
        if self.first.is_live(shared) {
            return true;
        }
        if lives(&self.second, shared) {
            return true;
        }
        if lives(&self.third, shared) {
            return true;
        }
        lives(&self.fourth, shared)
    }

    /// How many processors there are.
    pub(crate) fn count(&self) -> u8
        ensures { result ≡ team_count self.now }
    {
        if self.second.is_none() {
            1
        } else if self.third.is_none() {
            2
        } else if self.fourth.is_none() {
            3
        } else {
            4
        }
    }
}
