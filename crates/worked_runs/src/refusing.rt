//! Which tests hold, and which rule is the answer, where several do.
#![tactic(auto, unfolding(crate::specs::Refusing::refused_often, crate::specs::Refusing::tests_that_hold, crate::specs::Refusing::code_after))]

ghost use Rattle.std.specs.Prelude.{◌≡◌, ◌∷◌, [], true, false};
ghost use Rattle.worked_runs.specs.Refusing.{tests_that_hold, code_after};

/// A fetch of no words off the root breaks Bounds, rule 18, and NotIn behind it; a delete from entry 9 breaks BadEntry, rule 3, and
/// NoEntry behind it; a makeknown with mode 0 breaks BadMode, rule 31, and NoEntry behind it. The first is the answer each time.
pub fn the_first_of_two_is_the_answer()
    ensures fetch { tests_that_hold 0 ≡ false ∷ true ∷ false ∷ true ∷ [] }
    ensures bounds { code_after 1 ≡ 18 }
    ensures delete { tests_that_hold 5 ≡ false ∷ false ∷ true ∷ true ∷ [] }
    ensures bad_entry { code_after 6 ≡ 3 }
    ensures makeknown { tests_that_hold 6 ≡ false ∷ false ∷ true ∷ false ∷ true ∷ [] }
    ensures bad_mode { code_after 7 ≡ 31 }
{}

/// A create of size 0 breaks BadSize, rule 17; a return with an empty stack StackEmpty, rule 30; a spawn of a script that isn't there
/// NoScript, rule 28.
pub fn one_test_is_enough()
    ensures create { tests_that_hold 1 ≡ false ∷ false ∷ false ∷ false ∷ false ∷ false ∷ true ∷ false ∷ false ∷ false ∷ [] }
    ensures bad_size { code_after 2 ≡ 17 }
    ensures empty_stack { tests_that_hold 2 ≡ true ∷ [] }
    ensures rule_30 { code_after 3 ≡ 30 }
    ensures spawn { tests_that_hold 3 ≡ true ∷ false ∷ [] }
    ensures no_script { code_after 4 ≡ 28 }
{}

/// A number that is set has no row, and leaves r0 as it was.
pub fn no_row_refuses_nothing()
    ensures set { tests_that_hold 4 ≡ [] }
    ensures code { code_after 5 ≡ 28 }
{}
