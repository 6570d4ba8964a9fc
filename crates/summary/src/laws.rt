//! The law of summaries.

ghost use Rattle.summary.specs.Laws.{SummariesAgree};

use effect_laws::effect_laws;

/// What is counted off the step machine is what the machine of whole instructions tells after the order of effect.
pub fn summary_law()
    ensures { SummariesAgree }
{
    effect_laws();
}
