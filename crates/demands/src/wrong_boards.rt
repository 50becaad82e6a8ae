// The wrong boards. Each is ours but for what the clause's name says of it, and none keeps the demand that it was made
// against. The functions here do nothing: their contracts are that the boards violate the demands.
ghost use Rattle.demands.specs.KeepsRunning.{KeepsRunning};
ghost use Rattle.demands.specs.SpeaksPjlink.{SpeaksPjlink};
ghost use Rattle.demands.specs.CountsSeconds.{CountsSeconds, TimeAdds};
ghost use Rattle.demands.specs.Interleaved.{Interleaved};
ghost use Rattle.demands.specs.Unheard.{Unheard};
ghost use Rattle.demands.specs.WrongRefusals.{writes_first, changes_refused};
ghost use Rattle.demands.specs.WrongLines.{drops_all, ok_to_all, refuses_all, made_up_length};
ghost use Rattle.demands.specs.WrongLines.{made_up_taken, upper_cases, forgets_at_nothing};
ghost use Rattle.demands.specs.WrongLines.{others_nameless, off_at_erra, darkens_swallowing};
ghost use Rattle.demands.specs.WrongClasses.{answers_class_2, refuses_letters, volume_wraps};
ghost use Rattle.demands.specs.WrongDoors.{forgets_password, ignores_password, greets_with_zero};
ghost use Rattle.demands.specs.WrongDoors.{time_opens, failed_answers, never_closes, hides_faults};
ghost use Rattle.demands.specs.WrongDoors.{hides_errors, takes_at_opening};
ghost use Rattle.demands.specs.WrongOutsiders.{closes_next, counts_failures, refuses_elsewhere};
ghost use Rattle.demands.specs.WrongClocks.{still_clock, first_only, drops_part_hour};
ghost use Rattle.demands.specs.WrongPlaces.{forgets_others_power, one_line_for_all};
ghost use Rattle.demands.specs.WrongLamps.{burns_all_lamps, counts_disabled, forgets_marks};

/// Demand 1: what a refusal leaves.
pub fn wrong_refusals_fall()
    ensures writes_before_it_refuses { KeepsRunning writes_first → ⊥ }
    ensures changes_the_record_it_refuses { KeepsRunning changes_refused → ⊥ }
{}

/// Demand 2: lines, their cuts and their reading.
pub fn wrong_lines_fall()
    ensures drops_every_line { SpeaksPjlink drops_all → ⊥ }
    ensures says_ok_to_every_line { SpeaksPjlink ok_to_all → ⊥ }
    ensures refuses_every_line { SpeaksPjlink refuses_all → ⊥ }
    ensures makes_up_the_length { SpeaksPjlink made_up_length → ⊥ }
    ensures makes_up_the_count_taken { SpeaksPjlink made_up_taken → ⊥ }
    ensures echoes_in_upper_case { SpeaksPjlink upper_cases → ⊥ }
    ensures forgets_what_it_collected { SpeaksPjlink forgets_at_nothing → ⊥ }
    ensures reads_other_names_as_empty { SpeaksPjlink others_nameless → ⊥ }
    ensures reads_off_at_the_refusal_line { SpeaksPjlink off_at_erra → ⊥ }
    ensures darkens_as_it_swallows { SpeaksPjlink darkens_swallowing → ⊥ }
{}

/// Demand 2: the class of the set-up.
pub fn wrong_classes_fall()
    ensures answers_class_2_in_class_1 { SpeaksPjlink answers_class_2 → ⊥ }
    ensures refuses_an_input_with_a_letter { SpeaksPjlink refuses_letters → ⊥ }
    ensures wraps_the_volume { SpeaksPjlink volume_wraps → ⊥ }
{}

/// Demand 2: who is let in, and calls that do nothing.
pub fn wrong_doors_fall()
    ensures forgets_the_password { SpeaksPjlink forgets_password → ⊥ }
    ensures ignores_the_password { SpeaksPjlink ignores_password → ⊥ }
    ensures greets_with_zero { SpeaksPjlink greets_with_zero → ⊥ }
    ensures lets_in_who_waits { SpeaksPjlink time_opens → ⊥ }
    ensures lets_in_who_failed { SpeaksPjlink failed_answers → ⊥ }
    ensures never_closes { SpeaksPjlink never_closes → ⊥ }
    ensures hides_the_fault { SpeaksPjlink hides_faults → ⊥ }
    ensures hides_the_errors { SpeaksPjlink hides_errors → ⊥ }
    ensures takes_a_byte_at_opening { SpeaksPjlink takes_at_opening → ⊥ }
{}

/// That an outsider is unheard.
pub fn wrong_outsiders_fall()
    ensures closes_the_next_place { Unheard closes_next → ⊥ }
    ensures counts_failed_log_ins { Unheard counts_failures → ⊥ }
    ensures refuses_at_another_place { Unheard refuses_elsewhere → ⊥ }
{}

/// Demand 3: the clock. A clock that does nothing meets the adding law, and violates what is said of the history.
pub fn wrong_clocks_fall()
    ensures stands_still { CountsSeconds still_clock → ⊥ }
    ensures standing_still_adds { TimeAdds still_clock }
    ensures counts_the_first_session_only { CountsSeconds first_only → ⊥ }
    ensures drops_the_part_hour { CountsSeconds drops_part_hour → ⊥ }
{}

/// Demand 3, and lines that are interleaved: four places.
pub fn wrong_places_fall()
    ensures forgets_power_set_elsewhere { CountsSeconds forgets_others_power → ⊥ }
    ensures collects_all_in_one_line { Interleaved one_line_for_all → ⊥ }
{}

/// Demand 3: lamps and their marks.
pub fn wrong_lamps_fall()
    ensures burns_all_lamps { CountsSeconds burns_all_lamps → ⊥ }
    ensures counts_a_disabled_lamp { CountsSeconds counts_disabled → ⊥ }
    ensures forgets_a_mark { CountsSeconds forgets_marks → ⊥ }
{}
