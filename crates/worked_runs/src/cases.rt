//! Worked cases of the machine of words. Each law says what its run shows; the scripts and schedules stand in the
//! definitions. Where it says so, the machine of whole instructions prints the same from the order of effect alone, and
//! from the low part alone.
#![tactic(auto, unfolding(crate::specs::Cases::console, crate::specs::Cases::report, crate::specs::Cases::segment_texts, crate::specs::Cases::places_used, crate::specs::Cases::order, crate::specs::Cases::whole_report, crate::specs::Cases::whole_console, crate::specs::Cases::low_report, crate::specs::Cases::low_console, crate::specs::Cases::view, crate::specs::Cases::looks_saw, crate::specs::Cases::writer_and_reader, crate::specs::Cases::update_within_look, crate::specs::Cases::look_before_update, crate::specs::Cases::update_left_unfinished, crate::specs::Cases::writer_and_other, crate::specs::Cases::nobody, crate::specs::Cases::rings, crate::specs::Cases::swaps_under_a_reader, crate::specs::Cases::swap_within_look, crate::specs::Cases::withdraws, crate::specs::Cases::withdrawn_in_use, crate::specs::Cases::awaits, crate::specs::Cases::reader_wants_to_write, crate::specs::Cases::two_segments, crate::specs::Cases::update_elsewhere_within_look, crate::specs::Cases::signals_and_awaits, crate::specs::Cases::signals_and_reads, crate::specs::Cases::signals_within_read, crate::specs::Cases::signals_down, crate::specs::Cases::refusals, crate::specs::Cases::fills_known_table, crate::specs::Cases::writes_up_in_integrity, crate::specs::Cases::writes_from_outer_ring, crate::specs::Cases::polls_and_frees, crate::specs::Cases::fetches_nothing, class_model::specs::Cases::prints_five, class_model::specs::Cases::side_by_side, class_model::specs::Cases::less_trusted, class_model::specs::Cases::ten_tickets_each, class_model::specs::Cases::one_frame, class_model::specs::Cases::spawns, class_model::specs::Cases::calls, class_model::specs::Cases::to_the_page_and_back, class_model::specs::Cases::deletes_resident, class_model::specs::Cases::signals_and_forgets, class_model::specs::Cases::full_console))]

ghost use Rattle.std.specs.Prelude.{◌≡◌, ◌++◌, ◌∷◌, [], codes, replicate, true};
ghost use Rattle.lists.specs.Lists.{below};
ghost use Rattle.words_layout.specs.Segments.{seg};
ghost use Rattle.class_model.specs.Valid.{IsConfig};
ghost use Rattle.schedule.specs.Schedule.{scheduled};
ghost use Rattle.config_text.specs.declared.config.Item.TheVariants.{Events, Mix, Sweep};
ghost use Rattle.class_model.specs.Cases.{text, prints_five, side_by_side, less_trusted, ten_tickets_each};
ghost use Rattle.class_model.specs.Cases.{one_frame, uses_up_serials, spawns, calls, to_the_page_and_back};
ghost use Rattle.class_model.specs.Cases.{deletes_resident, signals_and_forgets, full_console};
ghost use Rattle.worked_runs.specs.Cases.{console, report, segment_texts, console_and_segments, places_used};
ghost use Rattle.worked_runs.specs.Cases.{order, whole_report, whole_console, low_report, low_console, view};
ghost use Rattle.worked_runs.specs.Cases.{looks_saw, events, named, each_of_twenty_once, shape};
ghost use Rattle.worked_runs.specs.Cases.{writer_and_reader, update_within_look, look_before_update};
ghost use Rattle.worked_runs.specs.Cases.{update_left_unfinished, writer_ended, reader_ended, writer_and_other};
ghost use Rattle.worked_runs.specs.Cases.{nobody, rings, swaps_under_a_reader, swap_within_look, withdraws};
ghost use Rattle.worked_runs.specs.Cases.{withdrawn_in_use, awaits, reader_wants_to_write, two_segments};
ghost use Rattle.worked_runs.specs.Cases.{update_elsewhere_within_look, signals_and_awaits, signals_and_reads};
ghost use Rattle.worked_runs.specs.Cases.{signals_within_read, signals_down, refusals, fills_known_table};
ghost use Rattle.worked_runs.specs.Cases.{writes_up_in_integrity, writes_from_outer_ring, polls_and_frees};
ghost use Rattle.worked_runs.specs.Cases.{fetches_nothing, deleted_texts};

/// A value is printed, and each instruction takes effect at its one step.
pub fn a_value_is_printed()
    ensures low { report 0 prints_five (events 0 0 3) ≡
        text (codes "class 0 low" ∷ codes "line 5" ∷ codes "process 0 0 ended script 0 place 2 ring 4" ∷
        codes "regs 0 0 5 0 0 0 0 0 0 0 0 0 0 0 0 0" ∷ codes "closed" ∷ []) }
    ensures high { report 1 prints_five (events 0 0 3) ≡ text (codes "class 1 high" ∷ codes "closed" ∷ []) }
    ensures order { order prints_five (events 0 0 3) ≡ replicate 3 (named 0 0 0) }
{}

/// With one step less the process is live, and its class's section is open.
pub fn a_live_process_leaves_its_section_open()
    ensures low { report 0 prints_five (events 0 0 2) ≡
        text (codes "class 0 low" ∷ codes "line 5" ∷ codes "process 0 0 live script 0 place 2 ring 4" ∷
        codes "regs 0 0 5 0 0 0 0 0 0 0 0 0 0 0 0 0" ∷ codes "open" ∷ []) }
    ensures high { report 1 prints_five (events 0 0 2) ≡ text (codes "class 1 high" ∷ codes "closed" ∷ []) }
{}

/// Where nobody is there, each section is closed and empty.
pub fn sections_of_nobody_are_closed()
    ensures low { report 0 nobody [] ≡ text (codes "class 0 low" ∷ codes "closed" ∷ []) }
    ensures high { report 1 nobody [] ≡ text (codes "class 1 high" ∷ codes "closed" ∷ []) }
{}

/// Where neither label dominates the other, observing is refused by the secrecy of the reader. At equal secrecy, observing an
/// object of lower integrity is refused by integrity. A process may not know a segment of a lower class for modifying nor for
/// signalling, by secrecy, nor modify it once it observes it. Modifying an object of higher integrity is refused, and so is
/// modifying from a ring beyond the first bracket.
pub fn the_policy_refuses()
    ensures labels_side_by_side { console 2 side_by_side (events 0 0 13 ++ events 1 2 7) ≡ 6 ∷ [] }
    ensures labels_side_by_side_below { low_console 2 side_by_side (events 0 0 13 ++ events 1 2 7) ≡ 6 ∷ [] }
    ensures lower_integrity { console 0 less_trusted (events 0 0 19) ≡ 7 ∷ [] }
    ensures writing_down { console 1 reader_wants_to_write (events 0 0 46 ++ events 1 1 14) ≡ 8 ∷ 13 ∷ [] }
    ensures signalling_down { console 1 signals_down (events 0 0 12 ++ events 1 1 7) ≡ 8 ∷ [] }
    ensures higher_integrity { console 1 writes_up_in_integrity (events 0 0 12 ++ events 1 1 7) ≡ 9 ∷ [] }
    ensures outer_ring { console 0 writes_from_outer_ring (events 0 0 18) ≡ 11 ∷ [] }
{}

/// Rings up to the second bracket read, and from there up to the third one call by the gate and read in the ring of the call;
/// further out reading and calling are refused.
pub fn rings_bound_reading_and_calling()
    ensures { console 0 rings (events 0 0 30 ++ events 1 0 13 ++ events 2 0 14 ++ events 3 0 3) ≡ 0 ∷ 10 ∷ 0 ∷ 12 ∷ [] }
{}

/// An update of two words takes eight steps, and takes effect at the last one: a step before, the process stands at it.
pub fn an_update_takes_effect_at_its_last_step()
    ensures at_the_last { report 0 writer_and_reader (events 0 0 54) ≡
        text (codes "class 0 low" ∷ codes "process 0 0 live script 0 place 16 ring 4" ∷
        codes "regs 0 2 0 0 0 511 2 3 1 8 1 0 0 0 0 0" ∷ codes "open" ∷ []) }
    ensures one_before { report 0 writer_and_reader (events 0 0 53) ≡
        text (codes "class 0 low" ∷ codes "process 0 0 live script 0 place 15 ring 4" ∷
        codes "regs 0 1 0 0 0 511 2 3 1 8 1 0 0 0 0 0" ∷ codes "open" ∷ []) }
{}

/// A look that an update crosses is retried: the reader has loaded the first word before the update and the second one after
/// it. It prints the new words, and its fetch takes effect after the second update.
pub fn a_crossed_look_begins_again()
    ensures low { report 0 writer_and_reader update_within_look ≡ writer_ended }
    ensures high { report 1 writer_and_reader update_within_look ≡ reader_ended }
    ensures order { order writer_and_reader update_within_look ≡
        replicate 15 (named 0 0 0) ++ replicate 4 (named 1 1 0) ++ named 0 0 0 ∷ replicate 7 (named 1 1 0) ++
        named 0 0 0 ∷ [] }
{}

/// The machine of whole instructions prints the same two sections from that order alone; and each of them where it is given only
/// what is at or below its class, as the headline says. The machine of words prints class 0's section from the low part too.
pub fn the_order_of_effect_gives_the_sections()
    ensures whole_low { whole_report 0 writer_and_reader update_within_look ≡ writer_ended }
    ensures whole_high { whole_report 1 writer_and_reader update_within_look ≡ reader_ended }
    ensures headline_low { low_report 0 writer_and_reader update_within_look ≡ writer_ended }
    ensures headline_high { low_report 1 writer_and_reader update_within_look ≡ reader_ended }
    ensures viewed { view 0 writer_and_reader update_within_look ≡ writer_ended }
{}

/// A look that no update crosses is accepted: the reader prints the words of the first update.
pub fn an_uncrossed_look_is_accepted()
    ensures words { console 1 writer_and_reader look_before_update ≡ 7 ∷ 7 ∷ [] }
    ensures low { report 0 writer_and_reader look_before_update ≡ writer_ended }
{}

/// While a writer stands still within its turn, the reader polls and stays where it is.
pub fn an_unfinished_update_holds_a_reader()
    ensures low { report 0 writer_and_reader update_left_unfinished ≡
        text (codes "class 0 low" ∷ codes "process 0 0 live script 0 place 15 ring 4" ∷
        codes "regs 0 1 0 0 0 511 2 3 1 8 1 0 0 0 0 0" ∷ codes "open" ∷ []) }
    ensures high { report 1 writer_and_reader update_left_unfinished ≡
        text (codes "class 1 high" ∷ codes "process 1 0 live script 1 place 4 ring 4" ∷
        codes "regs 0 1 0 0 0 0 2 1 1 0 0 0 0 0 0 0" ∷ codes "open" ∷ []) }
{}

/// Tickets of one sequencer are 0, 1, 2 and so on.
pub fn tickets_count_up()
    ensures lines { console 0 ten_tickets_each (events 0 0 52 ++ events 1 0 52) ≡ below 20 }
    ensures root { segment_texts 0 ten_tickets_each (events 0 0 52 ++ events 1 0 52) ≡
        text (codes "segment 0 0 never writes 0 count 0 tickets 20" ∷ []) ∷ [] }
{}

/// Under a drawn schedule each ticket is drawn once.
pub fn drawn_steps_draw_each_ticket_once()
    ensures lines { each_of_twenty_once (console 0 ten_tickets_each (scheduled shape 0 (Mix 1 400 ∷ Events 0 0 52 ∷ Events 1 0 52 ∷ []))) ≡
        true }
    ensures root { segment_texts 0 ten_tickets_each (scheduled shape 0 (Mix 1 400 ∷ Events 0 0 52 ∷ Events 1 0 52 ∷ [])) ≡
        text (codes "segment 0 0 never writes 0 count 0 tickets 20" ∷ []) ∷ [] }
{}

/// Under rounds the two processors draw and print in turns.
pub fn rounds_draw_tickets_in_turns()
    ensures { console 0 ten_tickets_each (scheduled shape 0 (Sweep 52 ∷ [])) ≡ below 20 }
{}

/// A reader whose segment goes out within its look, and whose frame another segment takes, finds it not in.
pub fn a_look_notices_that_its_frame_changed_hands()
    ensures words { console 1 swaps_under_a_reader swap_within_look ≡ 20 ∷ [] }
    ensures whole { whole_console 1 swaps_under_a_reader swap_within_look ≡ 20 ∷ [] }
    ensures low { low_console 1 swaps_under_a_reader swap_within_look ≡ 20 ∷ [] }
{}

/// A second swap in finds no frame in a pool of one. A fourth new process finds no slot, and a script that isn't there is refused.
/// A return without a call finds the stack empty, and the ninth call within calls finds it full. The known table is full behind
/// sixteen places, and a fetch of no words is out of bounds. Then refusals one after the other: unknown place, bad entry, bad mode,
/// no such class, bad brackets, bad size, entry taken, already in, no page, entry not empty, and gone.
pub fn limits_refuse()
    ensures frames { console 0 one_frame (events 0 0 56) ≡ 22 ∷ [] }
    ensures slots { console 0 spawns (events 0 0 15) ≡ 9 ∷ 9 ∷ 9 ∷ 27 ∷ 28 ∷ [] }
    ensures ring_stack { console 0 calls (events 0 0 13) ≡ 30 ∷ 29 ∷ [] }
    ensures known_table { console 0 fills_known_table (events 0 0 200) ≡ 2 ∷ [] }
    ensures bounds { console 0 fetches_nothing (events 0 0 3) ≡ 18 ∷ [] }
    ensures one_by_one { console 0 refusals (events 0 0 400) ≡ 1 ∷ 3 ∷ 31 ∷ 15 ∷ 16 ∷ 17 ∷ 5 ∷ 21 ∷ 23 ∷ 25 ∷ 19 ∷ [] }
{}

/// A segment of a higher class that is withdrawn below lives on for those that know it, and for nobody else; below, nothing
/// of it is left.
pub fn a_withdrawn_segment_lives_on_above()
    ensures below { console 0 withdraws withdrawn_in_use ≡ 0 ∷ [] }
    ensures above { console 1 withdraws withdrawn_in_use ≡ 9 ∷ 4 ∷ [] }
    ensures no_segment { segment_texts 0 withdraws withdrawn_in_use ≡ [] }
    ensures one_segment { segment_texts 1 withdraws withdrawn_in_use ≡
        text (codes "segment 0 1 in writes 1 count 0 tickets 0" ∷ codes "words 9 0" ∷ []) ∷ [] }
{}

/// After 64 serials no segment is made under a class any more; all 64 stay told of as deleted.
#[tactic(auto, using(crate::proofs::LongRuns::serials))]
pub fn serials_run_out()
    ensures { console_and_segments 1 uses_up_serials (events 0 0 13 ++ events 1 1 2074) ≡ (14 ∷ 24 ∷ 4 ∷ [], deleted_texts) }
{}

/// Awaiting goes on where the sum has reached the value, 0 at once, and polls without end where it never does.
pub fn awaiting_goes_on_at_its_value()
    ensures { report 0 awaits (events 0 0 50) ≡
        text (codes "class 0 low" ∷ codes "line 0" ∷ codes "line 1" ∷ codes "process 0 0 live script 0 place 7 ring 4" ∷
        codes "regs 0 1 0 18446744073709551615 0 0 0 0 0 0 0 0 0 0 0 0" ∷ codes "open" ∷ []) }
{}

/// Whatever a higher process does, the section of the lower class is the same, and so is its view.
pub fn another_script_above_shows_nothing_below()
    ensures low { report 0 writer_and_other update_within_look ≡ writer_ended }
    ensures viewed { view 0 writer_and_other update_within_look ≡ writer_ended }
    ensures high { report 1 writer_and_other update_within_look ≡
        text (codes "class 1 high" ∷ replicate 7 (codes "line 0") ++ codes "process 1 0 live script 1 place 1 ring 4" ∷
        codes "regs 0 6 0 0 0 0 0 0 0 0 0 0 0 0 0 0" ∷ codes "open" ∷ []) }
{}

/// An update of one segment doesn't make a look at another one start again.
pub fn an_update_elsewhere_crosses_no_look()
    ensures words { console 1 two_segments update_elsewhere_within_look ≡ 0 ∷ [] }
    ensures whole { whole_console 1 two_segments update_elsewhere_within_look ≡ 0 ∷ [] }
{}

/// Signals go up: each class counts its own, the higher one sees the sum, and the lower one may not read it.
pub fn signals_go_up()
    ensures below { console 0 signals_and_awaits (events 0 0 25 ++ events 1 1 13) ≡ 1 ∷ 2 ∷ 1 ∷ [] }
    ensures above { console 1 signals_and_awaits (events 0 0 25 ++ events 1 1 13) ≡ 1 ∷ 3 ∷ [] }
    ensures whole { whole_console 1 signals_and_awaits (events 0 0 25 ++ events 1 1 13) ≡ 1 ∷ 3 ∷ [] }
    ensures segment { segment_texts 1 signals_and_awaits (events 0 0 25 ++ events 1 1 13) ≡
        text (codes "segment 0 1 never writes 0 count 3 tickets 0" ∷ []) ∷ [] }
    ensures looks { looks_saw signals_and_awaits (events 0 0 25 ++ events 1 1 13) 21 (named 1 1 0) (seg 0 1) (1 ∷ 0 ∷ []) ≡ 3 }
{}

/// A read sums what each of its looks saw: signals that come behind the look at their component aren't in it.
pub fn a_read_sums_what_its_looks_saw()
    ensures words { console 1 signals_and_reads signals_within_read ≡ 0 ∷ [] }
    ensures whole { whole_console 1 signals_and_reads signals_within_read ≡ 0 ∷ [] }
    ensures segment { segment_texts 1 signals_and_reads signals_within_read ≡
        text (codes "segment 0 1 never writes 0 count 2 tickets 0" ∷ []) ∷ [] }
    ensures looks { looks_saw signals_and_reads signals_within_read 15 (named 1 1 0) (seg 0 1) (1 ∷ 0 ∷ []) ≡ 0 }
{}

/// A process that polls gives way to the next slot, whose process frees it.
pub fn polling_gives_way()
    ensures { console 0 polls_and_frees (events 0 0 12) ≡ 7 ∷ 1 ∷ [] }
{}

/// A segment goes out to a page, comes back from it, and goes out to it again, in exactly as many steps as the words ask for.
pub fn words_come_back_from_the_page()
    ensures words { report 0 to_the_page_and_back (events 0 0 109) ≡
        text (codes "class 0 low" ∷ codes "line 7" ∷ codes "process 0 0 ended script 0 place 20 ring 4" ∷
        codes "regs 0 0 0 0 0 511 2 3 1 9 8 7 0 0 0 0" ∷ codes "closed" ∷
        codes "segment 0 0 never writes 0 count 0 tickets 0" ∷ codes "entry 0 class 0 brackets 7 7 7 size 2 serial 1" ∷
        codes "segment 0 1 stored writes 2 count 0 tickets 0" ∷ codes "words 9 0" ∷ []) }
    ensures order { order to_the_page_and_back (events 0 0 109) ≡ replicate 21 (named 0 0 0) }
    ensures one_step_less { order to_the_page_and_back (events 0 0 108) ≡ replicate 20 (named 0 0 0) }
    ensures two_steps_less { order to_the_page_and_back (events 0 0 107) ≡ replicate 20 (named 0 0 0) }
    ensures three_steps_less { order to_the_page_and_back (events 0 0 106) ≡ replicate 19 (named 0 0 0) }
{}

/// A segment with a frame and a page is deleted: both are free, and the next segment takes them.
pub fn deleting_frees_frame_and_page()
    ensures words { report 0 deletes_resident (events 0 0 143) ≡
        text (codes "class 0 low" ∷ codes "line 19" ∷ codes "line 0" ∷
        codes "process 0 0 ended script 0 place 18 ring 4" ∷ codes "regs 0 1 0 0 0 511 2 3 2 0 0 0 0 0 0 0" ∷
        codes "closed" ∷ codes "segment 0 0 never writes 0 count 0 tickets 0" ∷
        codes "entry 0 class 0 brackets 7 7 7 size 2 serial 2" ∷
        codes "segment 0 1 deleted writes 0 count 0 tickets 0" ∷
        codes "segment 0 2 stored writes 0 count 0 tickets 0" ∷ codes "words 0 0" ∷ []) }
    ensures order { order deletes_resident (events 0 0 143) ≡ replicate 19 (named 0 0 0) }
    ensures one_step_less { order deletes_resident (events 0 0 142) ≡ replicate 18 (named 0 0 0) }
{}

/// A place for signalling alone may be advanced and forgotten, and is empty for all else; the signal shows above alone.
pub fn a_place_for_signalling_is_forgotten()
    ensures low { console 0 signals_and_forgets (events 0 0 31) ≡ 1 ∷ 0 ∷ 1 ∷ 1 ∷ [] }
    ensures high { report 1 signals_and_forgets (events 0 0 31) ≡
        text (codes "class 1 high" ∷ codes "closed" ∷ codes "segment 0 1 never writes 0 count 1 tickets 0" ∷ []) }
{}

/// A line that finds the console full is refused, and uses up a place even so.
pub fn a_full_console_uses_up_places()
    ensures section { report 0 full_console (events 0 0 3) ≡
        text (codes "class 0 low" ∷ codes "line 0" ∷ codes "process 0 0 ended script 0 place 2 ring 4" ∷
        codes "regs 26 0 0 0 0 0 0 0 0 0 0 0 0 0 0 0" ∷ codes "closed" ∷ []) }
    ensures used { places_used 0 full_console (events 0 0 3) ≡ 2 }
{}

/// These configurations are valid.
pub fn the_cases_are_valid()
    ensures reader { IsConfig writer_and_reader }
    ensures rings { IsConfig rings }
    ensures segments { IsConfig two_segments }
    ensures signals { IsConfig signals_and_awaits }
{}
