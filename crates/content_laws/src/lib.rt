//! The laws of content: what the effects of a run show, by the updates, advances, tickets and outs that came before.
#![tactic(auto)]

ghost use Rattle.content_laws.specs.Contents.{EffectsShowRight, ShowingNeedsBound, EffectsShowMore, ReadsAreBetween, LooksFollow, FetchesGoOn, IdentitiesAreGivenOnce, EffectsAreSteps};

/// Each effect of a run of a valid configuration shows what it must after those before it.
pub fn content_laws()
    ensures shows { EffectsShowRight }
    ensures bound { ShowingNeedsBound }
    ensures more { EffectsShowMore }
    ensures between { ReadsAreBetween }
    ensures looks { LooksFollow }
    ensures fetches { FetchesGoOn }
    ensures once { IdentitiesAreGivenOnce }
    ensures steps { EffectsAreSteps }
{}
