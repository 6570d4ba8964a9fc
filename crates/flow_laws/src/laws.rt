//! The laws of flow, each as the contract of a call that does nothing.

ghost use Rattle.flow_laws.specs.Flow.{PartsAreValid, MachinesGoOnAlike, ProcessesFit, OpeningsAgree, RunsGoOnAlike, NothingFlowsDown};

/// The part of a valid configuration at or below a class is valid. Machines of words that agree at or below a class go on alike there; the processes of a valid configuration fit all along,
/// and its opening agrees with that of its part at or below a class. So what is at or below a class after a run depends on
/// what is at or below it alone.
pub fn flow_laws()
    ensures parts { PartsAreValid }
    ensures machines { MachinesGoOnAlike }
    ensures fitting { ProcessesFit }
    ensures openings { OpeningsAgree }
    ensures runs { RunsGoOnAlike }
    ensures nothing_down { NothingFlowsDown }
{}
