//! The laws of effect, each as the contract of a call that does nothing.

ghost use Rattle.effect_laws.specs.Laws.{BodiesAreWhole, RunsStand, SectionsAreLow, ReportsAreLow};
ghost use Rattle.effect_laws.specs.Lines.{LinesStand};

/// The whole body of makeknown, create, delete, swapin, swapout, fetch or update, where nothing comes between its steps, does
/// what the instruction does at once: to the words, and to the process that asked.
pub fn gate_laws()
    ensures whole { BodiesAreWhole }
{}

/// Whatever the order of up to 4,194,304 events, the words and virtual processors after them stand for the state that the
/// instructions leave, each done whole, in the order in which they took effect. So do the console lines, place by place.
pub fn effect_laws()
    ensures runs { RunsStand }
    ensures lines { LinesStand }
{}

/// After such events each class is shown what the machine of whole instructions shows it, given only what is at or below the
/// class: the configuration's part there, and the order in which the instructions there took effect.
pub fn section_laws()
    ensures sections { SectionsAreLow }
    ensures reports { ReportsAreLow }
{}
