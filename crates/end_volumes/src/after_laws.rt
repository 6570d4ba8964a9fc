//! What the volumes after a run are on the machine of whole instructions, as the contract of a call that does nothing.

ghost use Rattle.std.specs.Prelude.{◌≡◌, ℕ};
ghost use Rattle.words_layout.specs.Words.{OfClass};
ghost use Rattle.class_model.specs.Config.{Config as ConfigValue};
ghost use Rattle.class_model.specs.State.{State};
ghost use Rattle.machine.specs.Machine.{Machine as StepMachine};
ghost use Rattle.machine.specs.Stands.{StandsFor, NoTurn};
ghost use Rattle.end_volumes.specs.After.{records_after, tree_of_words, tree_of_state};

/// Where a machine of words stands for a state and no process is inside a turn of its class, the records of a volume are
/// those that are read off the state.
#[tactic(auto, using(crate::proofs::AfterLaws::same_records))]
pub fn after_law()
    ensures { (k : ConfigValue) (v : ℕ) (m : StepMachine) (a : State) → StandsFor m a → ((d : ℕ) → NoTurn OfClass (m.part d)) → records_after k v (tree_of_words m) ≡ records_after k v (tree_of_state a) }
{}
