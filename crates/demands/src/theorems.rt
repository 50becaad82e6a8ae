// What is proved beside the demands, and what our board does on the samples that they are tried on. The functions here
// do nothing: their contracts are the theorems.
ghost use Rattle.std.specs.Prelude.{◌≡◌, ◌<◌, ◌≤◌, true, false, ℕ, List, length, slice_index_or, codes};
ghost use Rattle.pjlink.specs.declared.command.Command.{Command};
ghost use Rattle.record.specs.Limits.{places_count, phase_awaiting, phase_failed, cooling};
ghost use Rattle.record.specs.Legal.{is_legal, held_most};
ghost use Rattle.record.specs.Places.{connection_at};
ghost use Rattle.record.specs.declared.types.Device.{Device};
ghost use Rattle.stream.specs.Collecting.{gathered_from};
ghost use Rattle.device.specs.Receiving.{is_match, set_up_password};
ghost use Rattle.device.specs.Calls.{reply_room, longest_reply, has_password, received_at};
ghost use Rattle.controller.specs.Reading.{read_reply, outcome_alone, erra_said};
ghost use Rattle.ours.specs.Board.{Board, ours, reply};
ghost use Rattle.demands.specs.Calls.{run, after, opens, receives};
ghost use Rattle.demands.specs.ClassOne.{ClassOneAlone, longest_of_class_1};
ghost use Rattle.demands.specs.CountsSeconds.{sets_up, run_of};
ghost use Rattle.demands.specs.Interleaved.{heard};
ghost use Rattle.demands.specs.Outsider.{unopened, IsNeverMatched};
ghost use Rattle.demands.specs.Sample.{sockets, long_named, memory, with_cr, opened_after, two_opened, halves};
ghost use Rattle.demands.specs.Settled.{Settles, SettlesClass2};
ghost use Rattle.demands.specs.TwoBoards.{MeetsDemands, AreAlike};
ghost use Rattle.demands.specs.TwoRuns.{fresh_secured, led_on, calls_given, asking, waiting};
ghost use Rattle.demands.specs.Unheard.{AllAlike, QuietOnceApart, phase_at};
ghost use Rattle.demands.specs.WrongDoors.{secured_sample};
ghost use Rattle.demands.specs.WrongLamps.{two_lamps, one_rests};

/// Any two boards that meet the demands give and show the same, whatever else each keeps, and each answers a Class 1
/// set-up by Class 1 alone. Ours is such a board.
pub fn boards_that_meet_the_demands_are_alike<R, S>()
    ensures ours_is_one { MeetsDemands ours }
    ensures alike { (B : Board R) (C : Board S) → MeetsDemands B → MeetsDemands C → AreAlike B C }
    ensures class_1_alone { (B : Board R) → MeetsDemands B → ClassOneAlone B }
{}

/// A controller whose first line ends without the matching digest reads the ERRA line, whatever it asked, and whatever
/// part of that line came before (RULES, Connection and Controller).
#[tactic(auto, using(crate::proofs::LinesAnswered::outsider_reads_erra))]
pub fn outsiders_read_erra()
    ensures { (d : Device) (p : ℕ) (bytes : List ℕ) (room : ℕ) (c : Command) → is_legal d ≡ true → reply_room ≤ room
        → p < places_count → let k = connection_at d p in k.phase ≡ phase_awaiting
        → let g =
        gathered_from (held_most k.phase) k.line bytes in g.ended ≡ true → is_match d.settings k g.line ≡ false
        → read_reply c (received_at d p bytes room).bytes ≡ outcome_alone erra_said }
{}

/// The lines that settle the rules, and those of Class 2, have these answers (RULES, Commands and Class 2).
#[tactic(auto, using(crate::proofs::Settled::settled, crate::proofs::Settled::settled_class_2))]
pub fn ours_settles()
    ensures class_1 { Settles ours }
    ensures class_2 { SettlesClass2 ours }
{}

/// The bounds on a reply's length are reached: in Class 1 by 32 inputs, in Class 2 by the longest name of an input
/// (RULES, Commands).
#[tactic(auto, using(crate::proofs::Samples::most_of_class_1_reached, crate::proofs::Samples::longest_reply_reached))]
pub fn the_longest_replies_are_reached()
    ensures class_1 { (ours.receive (opened_after sockets) 0 (codes "%1INST ?\r") memory).length ≡ longest_of_class_1 }
    ensures class_2 { (ours.receive (opened_after long_named) 0 (codes "%2INNM ?11\r") memory).length ≡ longest_reply }
{}

/// Two lines at two places, sent in halves by turns, are both answered. Place 1 asks for the power that place 0 set:
/// warm-up (RULES, Places).
pub fn halves_by_turns_are_answered()
    ensures power_set { (heard ours 0 (two_opened ours) halves).replied ≡ with_cr "%1POWR=OK" }
    ensures power_told { (heard ours 1 (two_opened ours) halves).replied ≡ with_cr "%1POWR=3" }
{}

/// Of two lamps that burn for 100 seconds, the one whose mark was cleared before rests (RULES, Lamps).
pub fn a_disabled_lamp_stays_dark()
    ensures burns { slice_index_or (run_of ours sets_up two_lamps one_rests).own.lamps 0 0 ≡ 100 }
    ensures rests { slice_index_or (run_of ours sets_up two_lamps one_rests).own.lamps 1 0 ≡ 0 }
{}

/// An outsider is unheard in runs that meet some premises (RULES, Places). These two runs meet each premise: place 0
/// has failed in one and is still awaiting in the other, and in both the lamp burnt for the 20 seconds between the two
/// commands of place 1.
pub fn an_outsider_can_be_unheard()
    ensures accepted { (ours.set_up secured_sample).number ≡ 0 }
    ensures secured { has_password fresh_secured.settings ≡ true }
    ensures alike { AllAlike 0 (calls_given asking) (calls_given waiting) }
    ensures one_unmatched { IsNeverMatched ours 0 (set_up_password fresh_secured.settings) fresh_secured unopened
        (calls_given asking) }
    ensures other_unmatched { IsNeverMatched ours 0 (set_up_password fresh_secured.settings) fresh_secured unopened
        (calls_given waiting) }
    ensures quiet { QuietOnceApart ours 0 fresh_secured fresh_secured (calls_given asking) (calls_given waiting) }
    ensures failed_in_one { phase_at ours 0 (run ours fresh_secured (calls_given asking)) ≡ phase_failed }
    ensures awaited_in_other { phase_at ours 0 (run ours fresh_secured (calls_given waiting)) ≡ phase_awaiting }
    ensures power_on_answered { let d = after ours (after ours fresh_secured (opens 7 memory)) (opens 8 memory) in
        reply (ours.receive (after ours d (receives 0 asking memory)) 1 led_on memory) ≡ with_cr "%1POWR=OK" }
    ensures one_burnt { slice_index_or (run ours fresh_secured (calls_given asking)).own.lamps 0 0 ≡ 20 }
    ensures one_cools { (run ours fresh_secured (calls_given asking)).own.power ≡ cooling }
    ensures other_cools { (run ours fresh_secured (calls_given waiting)).own.power ≡ cooling }
{}
