//! A machine's rounds on shared words.

ghost use Rattle.std.specs.Prelude.{◌≡◌, IfOk};
ghost use Rattle.config_text.specs.Valid.{IsValid};
ghost use Rattle.command_threads.specs.Rounds.{RanRounds};

use crate::teams::{MOST_PROCESSORS, put_back, team_of};
use config_text::Config;
use machine::{Banks, Machine, MachineParts};
use processors::{Pace, Parts, rounds};
use shared_words::SharedWords;
use std::alloc::{AllocError, Global};
use std::thread::Threads;
use words_layout::PlainWords;

/// What rounds leave: how many were taken, and the machine.
#[derive(Drop)]
pub struct Left {
    pub taken: u32,
    pub machine: Machine<PlainWords>,
}

/// Takes the rounds of the machine's processors, each in a thread of its own, on words that they share: the least number of
/// rounds, up to the configured one, after which no process is live, and the configured one where there is none. In each round
/// every processor takes one quantum. Memory is refused only before the first step.
pub fn run_rounds<R: Threads + Sync, P: Pace + Sync>(
    rt: &R,
    alloc: Global,
    config: &Config,
    machine: Machine<PlainWords>,
    pace: &P,
) -> Result<Left, AllocError>
    requires valid { IsValid config.now }
    requires table { machine.shared.table ≡ config.now.table }
    ensures { IfOk result (λ left. RanRounds config.now machine left.machine left.taken) }
{
    let MachineParts {
        mut words,
        banks,
        shared,
    } = machine.into_parts();
    let mut banks = banks.into_items();
    banks.reserve(MOST_PROCESSORS)?;
    let (begun, whole) = SharedWords::begin(alloc, &words)?;
    let parts = Parts {
        words: begun,
        whole,
        processors: team_of(config, &mut banks),
        rounds: config.rounds,
        shared,
    };
    let left = rounds(rt, parts, pace, &mut words);
    put_back(left.processors, &mut banks);
    Ok(Left {
        taken: left.taken,
        machine: Machine::from_parts(MachineParts {
            words,
            banks: Banks::of(banks),
            shared: left.shared,
        }),
    })
}
