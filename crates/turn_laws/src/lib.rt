//! The law of turns: how many were started, drawn and finished, and which tickets are held.
#![tactic(auto)]

ghost use Rattle.turn_laws.specs.Turns.{TurnsAreCounted};

/// After any list of at most 4,194,304 events of a valid configuration, in any order, the words of each guard count its turns: as many
/// are started as are finished, or begun without a ticket, or hold one.
pub fn turn_laws()
    ensures counted { TurnsAreCounted }
{}
