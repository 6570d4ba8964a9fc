//! The quanta of the processors of a team, side by side in threads.

ghost use Rattle.std.specs.Prelude.{◌≡◌, ◌<◌, ◌/◌, ◌+◌, ◌^◌, length};
ghost use Rattle.class_model.specs.Config.{classes};
ghost use Rattle.machine.specs.Steps.{IsBank};
ghost use Rattle.shared_words.specs.Ports.{PortGains, Whole, whole_of};
ghost use Rattle.shared_words.specs.Views.{later};
ghost use Rattle.shared_words.specs.declared.seats.Seats.{Seats};
ghost use Rattle.processors.specs.Turns.{IsReady};
ghost use Rattle.processors.specs.Teams.{Quantum, AreReady, QuantaTaken, TeamReady, team_count, dealt, gathered};

use crate::pace::Pace;
use crate::processor::Processor;
use crate::team::Team;
use class_model::Shared;
use shared_words::{SeatPort, Seats, SharedWords, WholeSeat};
use std::thread::{Threads, join_mut};

/// The quanta of two processors, side by side.
fn two_quanta<R: Threads + Sync, P: Pace + Sync>(
    rt: &R,
    first: &mut Processor,
    second: &mut Processor,
    one: &mut SeatPort,
    two: &mut SeatPort,
    shared: &Shared,
    pace: &P,
)
    requires first { IsReady shared.now first.old one.old.words }
    requires second { IsReady shared.now second.old two.old.words }
    ensures first { Quantum shared.now first.old one.old first.new one.new }
    ensures second { Quantum shared.now second.old two.old second.new two.new }
{
    join_mut(
        rt,
        &mut || first.quantum(one, shared, pace),
        &mut || second.quantum(two, shared, pace),
    );
}

/// The quanta of three processors, side by side.
fn three_quanta<R: Threads + Sync, P: Pace + Sync>(
    rt: &R,
    first: &mut Processor,
    second: &mut Processor,
    third: &mut Processor,
    one: &mut SeatPort,
    two: &mut SeatPort,
    three: &mut SeatPort,
    shared: &Shared,
    pace: &P,
)
    requires first { IsReady shared.now first.old one.old.words }
    requires second { IsReady shared.now second.old two.old.words }
    requires third { IsReady shared.now third.old three.old.words }
    ensures first { Quantum shared.now first.old one.old first.new one.new }
    ensures second { Quantum shared.now second.old two.old second.new two.new }
    ensures third { Quantum shared.now third.old three.old third.new three.new }
{
    join_mut(
        rt,
        &mut ||
            requires { IsReady shared.now first.now one.now.words × IsReady shared.now second.now two.now.words }
        { two_quanta(rt, first, second, one, two, shared, pace) },
        &mut || third.quantum(three, shared, pace),
    );
}

/// The quanta of four processors, side by side.
fn four_quanta<R: Threads + Sync, P: Pace + Sync>(
    rt: &R,
    first: &mut Processor,
    second: &mut Processor,
    third: &mut Processor,
    fourth: &mut Processor,
    one: &mut SeatPort,
    two: &mut SeatPort,
    three: &mut SeatPort,
    four: &mut SeatPort,
    shared: &Shared,
    pace: &P,
)
    requires first { IsReady shared.now first.old one.old.words }
    requires second { IsReady shared.now second.old two.old.words }
    requires third { IsReady shared.now third.old three.old.words }
    requires fourth { IsReady shared.now fourth.old four.old.words }
    ensures first { Quantum shared.now first.old one.old first.new one.new }
    ensures second { Quantum shared.now second.old two.old second.new two.new }
    ensures third { Quantum shared.now third.old three.old third.new three.new }
    ensures fourth { Quantum shared.now fourth.old four.old fourth.new four.new }
{
    join_mut(
        rt,
        &mut ||
            requires { IsReady shared.now first.now one.now.words × IsReady shared.now second.now two.now.words }
        { two_quanta(rt, first, second, one, two, shared, pace) },
        &mut ||
            requires { IsReady shared.now third.now three.now.words × IsReady shared.now fourth.now four.now.words }
        { two_quanta(rt, third, fourth, three, four, shared, pace) },
    );
}

/// One quantum of each processor, side by side.
fn quanta<R: Threads + Sync, P: Pace + Sync>(
    rt: &R,
    team: &mut Team,
    seats: &mut Seats,
    shared: &Shared,
    pace: &P,
)
    requires ready { AreReady shared.now team.old seats.old }
    ensures takes { QuantaTaken shared.now team.old seats.old team.new seats.new }
{
    let Some(second) = &mut team.second else {
        team.first.quantum(&mut seats.first, shared, pace);
        return;
    };
    let Some(two) = &mut seats.second else {
        return;
    };
    let Some(third) = &mut team.third else {
        two_quanta(
            rt,
            &mut team.first,
            second,
            &mut seats.first,
            two,
            shared,
            pace,
        );
        return;
    };
    let Some(three) = &mut seats.third else {
        return;
    };
    let Some(fourth) = &mut team.fourth else {
        three_quanta(
            rt,
            &mut team.first,
            second,
            third,
            &mut seats.first,
            two,
            three,
            shared,
            pace,
        );
        return;
    };
    let Some(four) = &mut seats.fourth else {
        return;
    };
    four_quanta(
        rt,
        &mut team.first,
        second,
        third,
        fourth,
        &mut seats.first,
        two,
        three,
        four,
        shared,
        pace,
    );
}

/// One round: the whole seat is dealt, each processor takes its quantum, and the seats are gathered under a mark.
pub(crate) fn round<R: Threads + Sync, P: Pace + Sync>(
    rt: &R,
    team: &mut Team,
    whole: WholeSeat,
    words: &SharedWords,
    shared: &Shared,
    pace: &P,
) -> WholeSeat
    requires table { whole.table ≡ words.now.table }
    requires ready { TeamReady shared.now team.old words.now }
    ensures table { result.table ≡ words.now.table }
    ensures counted { result.round ≡ whole.round + 1 }
    ensures quanta { (seats : Seats) × QuantaTaken shared.now team.old (dealt words.now (team_count team.old) whole) team.new seats × (result ≡ whole_of words.now.table (later (gathered seats))) }
{
    let mut seats = whole.deal(words, team.count());
    quanta(rt, team, &mut seats, shared, pace);
    let mut whole = WholeSeat::gather(words, seats);
    whole.mark(words);
    whole
}
