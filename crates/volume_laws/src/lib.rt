//! The laws of volumes: the records that the code tells of a volume after a run are those of the definitions.
#![tactic(auto)]

ghost use Rattle.volume_laws.specs.Agree.{VolumesAgree};
ghost use Rattle.volume_laws.specs.Ended.{EndedIsQuiet, WordsAgree};
ghost use Rattle.volume_laws.specs.Loaded.{WordsAreValid};
ghost use Rattle.volume_laws.specs.Sound.{VolumesAreValid, BothAreNeeded};

/// The two definitions of the records of a volume after a run, downward from the root and upward from each segment, agree
/// on each state that a valid configuration leads to. The records are those of a valid volume. Where no process is live the
/// words tell them.
pub fn volume_laws()
    ensures agree { VolumesAgree }
    ensures valid { VolumesAreValid }
    ensures needed { BothAreNeeded }
    ensures quiet { EndedIsQuiet }
    ensures words { WordsAgree }
    ensures loaded { WordsAreValid }
{}
