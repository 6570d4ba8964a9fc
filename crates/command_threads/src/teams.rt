//! The processors of a machine.

ghost use Rattle.std.specs.Prelude.{◌≡◌, ℕ, ◌+◌, ◌<◌, ◌≤◌, [], ◌∷◌, All, Option, Some, None, length, vec_len, vec_capacity};
ghost use Rattle.std.specs.Option.{option_map, option_to_list};
ghost use Rattle.config_text.specs.Valid.{IsValid};
ghost use Rattle.processors.specs.Lists.{banks_of};
ghost use Rattle.command_threads.specs.Teams.{processor_with, IsTeamOf, HasClassesOf};

use arrayvec::ArrayVec;
use config_text::Config;
use machine::Bank;
use processors::{Processor, Team};

/// The most classes of a cycle.
const LONGEST_CYCLE: usize = 16;

/// The most processors.
pub const MOST_PROCESSORS: usize = 4;

/// The cycle of the configuration.
#[tactic(auto, using(crate::proofs::Ranges::short_cycle))]
fn cycle_of(config: &Config) -> ArrayVec<u8, LONGEST_CYCLE>
    requires { IsValid config.now }
    ensures { result.items ≡ config.now.cycle }
{
    let Ok(cycle) = ArrayVec::try_from(config.cycle.as_slice()) else {
        unreachable!()
    };
    cycle
}

/// The processor of that number with this bank, which has taken no step.
fn processor_of(config: &Config, number: u8, bank: Bank) -> Processor
    requires valid { IsValid config.now }
    requires width { HasClassesOf config.now bank }
    ensures { result ≡ processor_with config.now number bank }
{
    Processor::new(number, bank.into_items(), cycle_of(config), config.quantum)
}

/// Likewise where there is a bank.
fn processor_if(config: &Config, number: u8, bank: Option<Bank>) -> Option<Processor>
    requires valid { IsValid config.now }
    requires width { All (HasClassesOf config.now) (option_to_list bank) }
    ensures { result ≡ option_map (processor_with config.now number) bank }
{
    match bank {
        Some(bank) => Some(processor_of(config, number, bank)),
        None => None,
    }
}

/// The processors with these banks, 1 to 4 of them, numbered from 0. The room of the list stays.
pub fn team_of(config: &Config, banks: &mut Vec<Bank>) -> Team
    requires valid { IsValid config.now }
    requires some { 1 ≤ vec_len banks.old }
    requires most { vec_len banks.old ≤ 4 }
    requires width { All (HasClassesOf config.now) banks.old.items }
    ensures team { IsTeamOf config.now banks.old.items result }
    ensures banks { banks.new.items ≡ [] }
    ensures room { vec_capacity banks.new ≡ vec_capacity banks.old }
{
    let fourth = if banks.len() == 4 { banks.pop() } else { None };
    let third = if banks.len() == 3 { banks.pop() } else { None };
    let second = if banks.len() == 2 { banks.pop() } else { None };
    let Some(first) = banks.pop() else {
        unreachable!()
    };
    Team {
        first: processor_of(config, 0, first),
        second: processor_if(config, 1, second),
        third: processor_if(config, 2, third),
        fourth: processor_if(config, 3, fourth),
    }
}

/// The banks of the processors, in a list that has room for four.
pub fn put_back(team: Team, banks: &mut Vec<Bank>)
    requires empty { banks.old.items ≡ [] }
    requires room { 4 ≤ vec_capacity banks.old }
    ensures { banks.new.items ≡ banks_of team }
{
    let Team {
        first,
        second,
        third,
        fourth,
    } = team;
    banks.push_reserved(Bank::of(first.into_items()));
    if let Some(processor) = second {
        banks.push_reserved(Bank::of(processor.into_items()));
    }
    if let Some(processor) = third {
        banks.push_reserved(Bank::of(processor.into_items()));
    }
    if let Some(processor) = fourth {
        banks.push_reserved(Bank::of(processor.into_items()));
    }
}
