//! What the clauses of read and await come to over a whole list of answers.

ghost use Rattle.evc_gates.specs.Summing.{TallyAfterAll};

/// Where each answer makes the next tally, as the clauses of `EvcRead` and `Await` say, the tally after any list of answers
/// is the one behind them all. So the look that follows is the one with that tally.
pub fn tally_law()
    ensures { TallyAfterAll }
{}
