//! What the words of a guard count.
#![tactic(auto, unfolding(crate::specs::Cases::writer_and_reader, crate::specs::TurnNumbers::turn_numbers))]

ghost use Rattle.std.specs.Prelude.{◌≡◌, ◌∷◌, []};
ghost use Rattle.worked_runs.specs.TurnNumbers.{turn_numbers};

/// The second update begins behind 46 steps, when the swapin and the first update have each taken a turn of the segment. With its
/// first step one turn more is started; with the second a ticket more is drawn and held; with the eighth and last step one turn more
/// is finished, and nobody holds a ticket.
pub fn a_turn_is_counted()
    ensures before { turn_numbers 46 ≡ 2 ∷ 2 ∷ 2 ∷ 0 ∷ 0 ∷ [] }
    ensures begun { turn_numbers 47 ≡ 3 ∷ 2 ∷ 2 ∷ 1 ∷ 0 ∷ [] }
    ensures drawn { turn_numbers 48 ≡ 3 ∷ 3 ∷ 2 ∷ 0 ∷ 1 ∷ [] }
    ensures held { turn_numbers 53 ≡ 3 ∷ 3 ∷ 2 ∷ 0 ∷ 1 ∷ [] }
    ensures finished { turn_numbers 54 ≡ 3 ∷ 3 ∷ 3 ∷ 0 ∷ 0 ∷ [] }
{}
