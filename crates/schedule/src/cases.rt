//! Worked schedules.

ghost use Rattle.std.specs.Prelude.{◌≡◌, ◌∷◌, []};
ghost use Rattle.schedule.specs.Schedule.{event, scheduled, Shape};
ghost use Rattle.config_text.specs.declared.config.Item.TheVariants.{Events, Mix, Sweep};

/// Each processor takes its quantum of a round, and each goes on in the cycle where its last round ended, also where events
/// of another item stand in between.
pub fn sweeps_go_on_in_the_cycle()
    ensures together { scheduled (record { processors = 2; classes = 2; cycle = 0 ∷ 1 ∷ 0 ∷ []; quantum = 2 }) 0 (Sweep 2 ∷ []) ≡
        event 0 0 ∷ event 0 1 ∷ event 1 0 ∷ event 1 1 ∷ event 0 0 ∷ event 0 0 ∷ event 1 0 ∷ event 1 0 ∷ [] }
    ensures apart { scheduled (record { processors = 2; classes = 2; cycle = 0 ∷ 1 ∷ 0 ∷ []; quantum = 2 }) 0
        (Sweep 1 ∷ Events 0 1 1 ∷ Sweep 1 ∷ []) ≡
        event 0 0 ∷ event 0 1 ∷ event 1 0 ∷ event 1 1 ∷ event 0 1 ∷ event 0 0 ∷ event 0 0 ∷ event 1 0 ∷ event 1 0 ∷ [] }
{}

/// The number changes before each draw; the classes are drawn from all of the table, not from the cycle.
pub fn draws_begin_behind_the_number()
    ensures { scheduled (record { processors = 2; classes = 2; cycle = 0 ∷ []; quantum = 1 }) 0 (Mix 1 4 ∷ []) ≡
        event 0 1 ∷ event 1 0 ∷ event 0 0 ∷ event 0 1 ∷ [] }
{}
