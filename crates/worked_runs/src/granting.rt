//! What the conditions of grants come to along one run.
#![tactic(auto, unfolding(crate::specs::Cases::swaps_under_a_reader, crate::specs::Granting::first_is_in, crate::specs::Granting::first_has_page, crate::specs::Granting::segments_in, crate::specs::Granting::segments_with_page, crate::specs::Granting::segments_made, crate::specs::Granting::serial_in_entry_1))]

ghost use Rattle.std.specs.Prelude.{◌≡◌, ◌∷◌, [], true, false, Some, None};
ghost use Rattle.worked_runs.specs.Granting.{first_is_in, first_has_page, segments_in, segments_with_page, segments_made, serial_in_entry_1};

/// The segment is in from its swapin on, the seventh step, until its swapout, the thirteenth, which gives it a page. The second
/// one is made by the fourteenth step, stands in entry 1 with serial 2, and is in from the seventeenth on.
pub fn conditions_follow_the_run()
    ensures inside { first_is_in (6 ∷ 7 ∷ 12 ∷ 13 ∷ 17 ∷ []) ≡ false ∷ true ∷ true ∷ false ∷ false ∷ [] }
    ensures page { first_has_page (7 ∷ 12 ∷ 13 ∷ []) ≡ false ∷ false ∷ true ∷ [] }
    ensures frames { segments_in (6 ∷ 7 ∷ 13 ∷ 17 ∷ []) ≡ 0 ∷ 1 ∷ 0 ∷ 1 ∷ [] }
    ensures pages { segments_with_page (12 ∷ 13 ∷ 17 ∷ []) ≡ 0 ∷ 1 ∷ 1 ∷ [] }
    ensures made { segments_made (2 ∷ 3 ∷ 13 ∷ 14 ∷ []) ≡ 0 ∷ 1 ∷ 1 ∷ 2 ∷ [] }
    ensures entry { serial_in_entry_1 (13 ∷ 14 ∷ []) ≡ None ∷ Some 2 ∷ [] }
{}
