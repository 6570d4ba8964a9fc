//! Worked cases of the machine of whole instructions. Each law says what its run shows; the scripts stand beside the
//! configurations, which are definitions.
#![tactic(auto, unfolding(crate::specs::Cases::console, crate::specs::Cases::report, crate::specs::Cases::segment_texts, crate::specs::Cases::places_used, crate::specs::Cases::prints_five, crate::specs::Cases::side_by_side, crate::specs::Cases::less_trusted, crate::specs::Cases::ten_tickets_each, crate::specs::Cases::one_frame, crate::specs::Cases::uses_up_serials, crate::specs::Cases::spawns, crate::specs::Cases::calls, crate::specs::Cases::to_the_page_and_back, crate::specs::Cases::deletes_resident, crate::specs::Cases::signals_and_forgets, crate::specs::Cases::full_console))]

ghost use Rattle.std.specs.Prelude.{◌≡◌, ◌++◌, ◌∷◌, [], codes, length, true};
ghost use Rattle.lists.specs.Lists.{below};
ghost use Rattle.rings.specs.Brackets.{Brackets};
ghost use Rattle.words_layout.specs.Segments.{seg};
ghost use Rattle.class_model.specs.Access.{all_allowed};
ghost use Rattle.class_model.specs.Content.{content};
ghost use Rattle.class_model.specs.Run.{run};
ghost use Rattle.class_model.specs.Valid.{IsConfig};
ghost use Rattle.class_model.specs.Volume.{volume};
ghost use Rattle.class_model.specs.Cases.{by, text, console, report, segment_texts, places_used};
ghost use Rattle.class_model.specs.Cases.{prints_five, side_by_side, less_trusted, ten_tickets_each, one_frame};
ghost use Rattle.class_model.specs.Cases.{uses_up_serials, spawns, calls, to_the_page_and_back, deletes_resident};
ghost use Rattle.class_model.specs.Cases.{signals_and_forgets, full_console};

/// A value is printed on its class's console, and the process ends. The section of the other class is empty.
pub fn a_value_is_printed()
    ensures low { report 0 prints_five (by 0 0 0 3) ≡
        text (codes "class 0 low" ∷ codes "line 5" ∷ codes "process 0 0 ended script 0 place 2 ring 4" ∷
        codes "regs 0 0 5 0 0 0 0 0 0 0 0 0 0 0 0 0" ∷ codes "closed" ∷ []) }
    ensures high { report 1 prints_five (by 0 0 0 3) ≡ text (codes "class 1 high" ∷ codes "closed" ∷ []) }
{}

/// Where neither label dominates the other, observing is refused by the secrecy of the reader.
pub fn labels_side_by_side_refuse_observing()
    ensures { console 2 side_by_side (by 0 0 0 5 ++ by 1 2 0 4) ≡ 6 ∷ [] }
{}

/// At equal secrecy, observing an object of lower integrity is refused by integrity.
pub fn lower_integrity_refuses_observing()
    ensures { console 0 less_trusted (by 0 0 0 8) ≡ 7 ∷ [] }
{}

/// Tickets of one sequencer are 0, 1, 2 and so on, none twice and none skipped, whoever draws them.
pub fn tickets_count_up()
    ensures lines { console 0 ten_tickets_each (by 0 0 0 52 ++ by 1 0 0 52) ≡ below 20 }
    ensures root { segment_texts 0 ten_tickets_each (by 0 0 0 52 ++ by 1 0 0 52) ≡
        text (codes "segment 0 0 never writes 0 count 0 tickets 20" ∷ []) ∷ [] }
{}

/// A second swap in finds no frame in a pool of one.
pub fn a_full_pool_refuses_to_swap_in()
    ensures { console 0 one_frame (by 0 0 0 12) ≡ 22 ∷ [] }
{}

/// A class below the mentor's isn't compatible; after 64 serials no segment is made under that class any more, and an entry
/// that was emptied is empty. All 64 segments are told of.
pub fn serials_run_out()
    ensures lines { console 1 uses_up_serials (by 0 0 0 5 ++ by 1 1 0 334) ≡ 14 ∷ 24 ∷ 4 ∷ [] }
    ensures segments { length (segment_texts 1 uses_up_serials (by 0 0 0 5 ++ by 1 1 0 334)) ≡ 64 }
{}

/// Three processes are begun beside the first one; a fourth finds no slot, though those before it have ended, and a script
/// that isn't there is refused.
pub fn slots_run_out()
    ensures { console 0 spawns (
        by 0 0 0 2 ++ by 0 0 1 1 ++ by 0 0 0 1 ++ by 0 0 1 1 ++ by 0 0 2 1 ++ by 0 0 0 1 ++ by 0 0 2 1 ++ by 0 0 3 1 ++
        by 0 0 0 1 ++ by 0 0 3 1 ++ by 0 0 0 4) ≡ 9 ∷ 9 ∷ 9 ∷ 27 ∷ 28 ∷ [] }
{}

/// A return without a call finds the stack empty, and the ninth call within calls finds it full.
pub fn the_ring_stack_is_empty_and_full()
    ensures { report 0 calls (by 0 0 0 13) ≡
        text (codes "class 0 low" ∷ codes "line 30" ∷ codes "line 29" ∷
        codes "process 0 0 ended script 1 place 2 ring 4" ∷ codes "regs 0 1 0 0 0 0 0 0 0 0 0 0 0 0 0 0" ∷
        codes "closed" ∷ []) }
{}

/// What is swapped out comes back, and is swapped out again to the page that the segment has.
pub fn words_come_back_from_the_page()
    ensures { report 0 to_the_page_and_back (by 0 0 0 21) ≡
        text (codes "class 0 low" ∷ codes "line 7" ∷ codes "process 0 0 ended script 0 place 20 ring 4" ∷
        codes "regs 0 0 0 0 0 511 2 3 1 9 8 7 0 0 0 0" ∷ codes "closed" ∷
        codes "segment 0 0 never writes 0 count 0 tickets 0" ∷ codes "entry 0 class 0 brackets 7 7 7 size 2 serial 1" ∷
        codes "segment 0 1 stored writes 2 count 0 tickets 0" ∷ codes "words 9 0" ∷ []) }
{}

/// The content of that segment is zeros, then what each update left. Swapping changes none of it, each access of the run is
/// allowed, and the volume after the run holds what was swapped out last.
pub fn contents_follow_updates_alone()
    ensures opening { content to_the_page_and_back (by 0 0 0 21) (seg 0 1) 0 ≡ 0 ∷ 0 ∷ [] }
    ensures once { content to_the_page_and_back (by 0 0 0 21) (seg 0 1) 1 ≡ 7 ∷ 0 ∷ [] }
    ensures twice { content to_the_page_and_back (by 0 0 0 21) (seg 0 1) 2 ≡ 9 ∷ 0 ∷ [] }
    ensures allowed { all_allowed to_the_page_and_back (by 0 0 0 21) ≡ true }
    ensures stored { volume to_the_page_and_back 1 (run to_the_page_and_back (by 0 0 0 21)) ≡ record {
      seg = seg 0 1;
      class = 0;
      brackets = record { r1 = 7; r2 = 7; r3 = 7 };
      size = 2;
      mentor = seg 0 0;
      entry = 0;
      kept = Some (9 ∷ 0 ∷ []);
    } ∷ [] }
{}

/// A segment with a frame and a page is deleted: who knows it finds it gone, and the next segment takes its frame and page.
pub fn deleting_frees_frame_and_page()
    ensures { report 0 deletes_resident (by 0 0 0 19) ≡
        text (codes "class 0 low" ∷ codes "line 19" ∷ codes "line 0" ∷
        codes "process 0 0 ended script 0 place 18 ring 4" ∷ codes "regs 0 1 0 0 0 511 2 3 2 0 0 0 0 0 0 0" ∷
        codes "closed" ∷ codes "segment 0 0 never writes 0 count 0 tickets 0" ∷
        codes "entry 0 class 0 brackets 7 7 7 size 2 serial 2" ∷
        codes "segment 0 1 deleted writes 0 count 0 tickets 0" ∷
        codes "segment 0 2 stored writes 0 count 0 tickets 0" ∷ codes "words 0 0" ∷ []) }
{}

/// A place for signalling alone may be advanced, counts as empty for a ticket, and is emptied like any other; then it is
/// unknown, and the next segment is known by it. The signal shows at the higher class alone.
pub fn a_place_for_signalling_is_forgotten()
    ensures low { report 0 signals_and_forgets (by 0 0 0 17) ≡
        text (codes "class 0 low" ∷ codes "line 1" ∷ codes "line 0" ∷ codes "line 1" ∷ codes "line 1" ∷
        codes "process 0 0 ended script 0 place 16 ring 4" ∷ codes "regs 0 3 0 0 1 511 2 2 1 0 0 0 0 0 0 0" ∷
        codes "closed" ∷ codes "segment 0 0 never writes 0 count 0 tickets 0" ∷
        codes "entry 0 class 1 brackets 7 7 7 size 2 serial 1" ∷ []) }
    ensures high { report 1 signals_and_forgets (by 0 0 0 17) ≡
        text (codes "class 1 high" ∷ codes "closed" ∷ codes "segment 0 1 never writes 0 count 1 tickets 0" ∷ []) }
{}

/// A line that finds the console full is refused, and uses up a place even so.
pub fn a_full_console_uses_up_places()
    ensures section { report 0 full_console (by 0 0 0 3) ≡
        text (codes "class 0 low" ∷ codes "line 0" ∷ codes "process 0 0 ended script 0 place 2 ring 4" ∷
        codes "regs 26 0 0 0 0 0 0 0 0 0 0 0 0 0 0 0" ∷ codes "closed" ∷ []) }
    ensures used { places_used 0 full_console (by 0 0 0 3) ≡ 2 }
{}

/// These configurations are valid.
pub fn the_cases_are_valid()
    ensures pages { IsConfig to_the_page_and_back }
    ensures serials { IsConfig uses_up_serials }
    ensures labels { IsConfig side_by_side }
{}
