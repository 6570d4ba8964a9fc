//! Laws, each as the contract of a call that does nothing.

ghost use Rattle.machine.specs.Fitting.{EmptiesFit, NewProcessesFit, FillingFits};
ghost use Rattle.machine.specs.Plain.{EventsAreSteps, RunsAreRuns};

/// On words in memory an event is the step of the step machine that the machine stands for, and a list of events its
/// run. Effects come where, and in the order in which, they come there.
#[tactic(auto, using(crate::proofs::Plain::laws))]
pub fn plain_laws()
    ensures event { EventsAreSteps }
    ensures run { RunsAreRuns }
{}

/// How what fits comes to be.
pub fn fitting_laws()
    ensures empty { EmptiesFit }
    ensures new { NewProcessesFit }
    ensures filling { FillingFits }
{}
