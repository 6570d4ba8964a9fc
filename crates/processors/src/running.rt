//! Rounds of all processors.

ghost use Rattle.std.specs.Prelude.{◌≡◌, ◌≤◌, ◌/◌, [], ◌∷◌, length};
ghost use Rattle.machine.specs.Steps.{IsMachine};
ghost use Rattle.round_laws.specs.Rounds.{Ran};
ghost use Rattle.processors.specs.Lists.{plan_of, banks_of, numbers_of, machine_with};
ghost use Rattle.processors.specs.Rounds.{TeamHasTaken};
ghost use Rattle.words_layout.specs.Sizes.{class_words};

use crate::pace::Pace;
use crate::parts::{Parts, Rounds};
use crate::quanta::round;
use round_laws::round_laws;
use shared_words::close;
use std::thread::Threads;
use words_layout::PlainWords;

/// Rounds of all processors, each in a thread of its own, while a process is live and at most `parts.rounds` of them; then
/// the words are closed into `into`. In each round every processor takes one quantum. What is left is what the step
/// machine leaves after a round list of as many rounds as were taken: the least number after which no process is live,
/// or `parts.rounds` where there is none. It takes no memory.
pub fn rounds<R: Threads + Sync, P: Pace + Sync>(
    rt: &R,
    parts: Parts,
    pace: &P,
    into: &mut PlainWords,
) -> Rounds
    requires fresh { parts.whole ≡ record { table = parts.words.table; round = 0; lists = [] ∷ [] ∷ [] ∷ [] ∷ [] } }
    requires size { length into.old ≡ length parts.words.words }
    requires processors { TeamHasTaken parts.shared parts.words (plan_of parts.processors.first) 0 parts.processors }
    requires few { parts.rounds ≤ 4096 }
    ensures runs { Ran (plan_of parts.processors.first) (machine_with parts.words.words parts.processors parts.shared) (machine_with into.new result.processors result.shared) parts.rounds result.taken }
    ensures processors { TeamHasTaken parts.shared parts.words (plan_of parts.processors.first) result.taken result.processors }
    ensures numbers { numbers_of result.processors ≡ numbers_of parts.processors }
    ensures machine { IsMachine (length into.new / class_words) (banks_of result.processors) result.shared }
    ensures shared { result.shared ≡ parts.shared }
{
    let Parts {
        words,
        mut whole,
        processors: mut team,
        rounds,
        shared,
    } = parts;
    round_laws();
    team.first.cycle_fits();
    let _classes = into.classes();
    for taken in 0..rounds {
        if !team.is_live(&shared) {
            close(words, whole, into);
            return Rounds {
                taken,
                processors: team,
                shared,
            };
        }
        whole = round(rt, &mut team, whole, &words, &shared, pace);
    }
    close(words, whole, into);
    Rounds {
        taken: rounds,
        processors: team,
        shared,
    }
}
