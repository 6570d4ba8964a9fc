//! The laws of rounds, as the contract of a call that does nothing.

ghost use Rattle.round_laws.specs.Rounds.{RoundsAreRuns};

use machine::plain_laws;

/// Rounds of processors, each of which takes its steps on a seat of its own, leave what the step machine leaves after one
/// round list, whatever the order of the operations on the shared words was.
pub fn round_laws()
    ensures { RoundsAreRuns }
{
    plain_laws();
}
