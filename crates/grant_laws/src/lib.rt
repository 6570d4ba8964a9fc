//! When each gate is granted, by what was given and done before.
#![tactic(auto)]

ghost use Rattle.grant_laws.specs.Grants.{OutsAreGranted, FetchesAreGranted, UpdatesAreGranted, TicketsAreGranted, AdvancesAreGranted, SwapsInAreGranted, SwapsOutAreGranted, CreatesAreGranted, DeletesAreGranted, MakeKnownsAreGranted, ReadsAreCounted, ChangesAreOwn, ScriptsAreLow};

/// What passed its private tests is granted exactly where a condition on the effects before it holds.
pub fn grant_laws()
    ensures outs { OutsAreGranted }
    ensures fetches { FetchesAreGranted }
    ensures updates { UpdatesAreGranted }
    ensures tickets { TicketsAreGranted }
    ensures advances { AdvancesAreGranted }
    ensures swaps_in { SwapsInAreGranted }
    ensures swaps_out { SwapsOutAreGranted }
    ensures creates { CreatesAreGranted }
    ensures deletes { DeletesAreGranted }
    ensures makes_known { MakeKnownsAreGranted }
    ensures reads { ReadsAreCounted }
    ensures own { ChangesAreOwn }
    ensures scripts { ScriptsAreLow }
{}
