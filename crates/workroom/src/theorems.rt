// What the two sides keep together: what is read at the face of C, and the panel joined with our projector. Nothing is
// done here: that these functions have their contracts is that the theorems stand.
ghost use Rattle.std.specs.Prelude.{◌≡◌, ◌<◌, ◌≤◌, ◌^◌, ℕ, true, List, ◌∷◌, false, length, Some, Ok};
ghost use Rattle.std.specs.Result.{is_ok};
ghost use Rattle.record.specs.declared.types.Device.{Device};
ghost use Rattle.record.specs.Limits.{places_count, phase_open, phase_awaiting};
ghost use Rattle.record.specs.Legal.{is_legal};
ghost use Rattle.record.specs.Places.{connection_at, lowest_closed};
ghost use Rattle.stream.specs.Collecting.{empty_line};
ghost use Rattle.codes.specs.declared.command.Coded.{Coded};
ghost use Rattle.pjlink.specs.declared.command.Command.{Command};
ghost use Rattle.codes.specs.Commands.{coded_command};
ghost use Rattle.pjlink.specs.Commands.{command_class};
ghost use Rattle.text.specs.Outcomes.{number_answered};
ghost use Rattle.device.specs.Calls.{reply_room, received_at, opened_by};
ghost use Rattle.controller.specs.Writing.{command_room};
ghost use Rattle.codes.specs.ByCode.{written_by, read_by};
ghost use Rattle.codes.specs.Readings.{said_flat, flat_greeting};
ghost use Rattle.meaning.specs.Meaning.{answer_for};
ghost use Rattle.device.specs.Receiving.{set_up_password};
ghost use Rattle.pjlink.specs.Greetings.{read_greeting};
ghost use Rattle.demands.specs.Greeted.{greeted_on};
ghost use Rattle.panel.specs.AnyPanel.{AnyPanel, ours_panel};
ghost use Rattle.workroom.specs.PanelDemand.{PanelDemand};
ghost use Rattle.workroom.specs.PanelCallsDone.{PanelCallsDone};
ghost use Rattle.workroom.specs.TwoPanels.{DoesWhatIsAsked, PanelsAlike};
ghost use Rattle.workroom.specs.ShowsWhatWasMeant.{ShowsWhatWasMeant};
ghost use Rattle.workroom.specs.Workroom.{cut_at};
ghost use Rattle.stream.specs.Machine.{stream_of};
ghost use Rattle.workroom.specs.WrongPanels.{takes_foreign, ends_on_malformed, keeps_after_erra};
ghost use Rattle.workroom.specs.WrongPanels.{stray_count_wraps, shows_late, counts_nothing, shows_no_reply};
ghost use Rattle.workroom.specs.WrongPanels.{forgets_at_addition, tells_the_password, refuses_what_it_does};
ghost use Rattle.workroom.specs.WrongPanels.{hides_the_wrong_password};

/// For every legal device, at every place between lines, and every code of a command of a class no higher than the
/// device's, what is read of the reply to what was written is what the projector meant; so of the greeting.
pub fn the_face_reads_back()
    ensures read_back { (d : Device) (p : ℕ) → p < places_count → is_legal d ≡ true
        → (connection_at d p).line ≡ empty_line → (k : Coded) (c : Command) → coded_command k ≡ Some c
        → command_class c ≤ d.settings.class_number
        → (room : ℕ) → reply_room ≤ room → (memory : ℕ) → command_room ≤ memory
        → (connection_at d p).phase ≡ phase_open → (random : ℕ) (password : List ℕ)
        → let w = written_by (coded_command k) false random password memory in
        let r = received_at d p w.bytes room in
        (is_ok w.says ≡ true) × (number_answered r ≡ length w.bytes)
        × (read_by (coded_command k) r.bytes ≡ said_flat (answer_for d.settings d.own (Ok c))) }
    ensures read_back_secured { (d : Device) (p : ℕ) → p < places_count → is_legal d ≡ true
        → (connection_at d p).line ≡ empty_line → (k : Coded) (c : Command) → coded_command k ≡ Some c
        → command_class c ≤ d.settings.class_number
        → (room : ℕ) → reply_room ≤ room → (memory : ℕ) → command_room ≤ memory
        → (connection_at d p).phase ≡ phase_awaiting
        → let w = written_by (coded_command k) true (connection_at d p).random (set_up_password d.settings) memory in
        let r = received_at d p w.bytes room in
        (is_ok w.says ≡ true) × (number_answered r ≡ length w.bytes)
        × (read_by (coded_command k) r.bytes ≡ said_flat (answer_for d.settings d.own (Ok c))) }
    ensures greeting { (d : Device) (random room : ℕ) → is_legal d ≡ true → lowest_closed d.connections < places_count
        → reply_room ≤ room → random < 2 ^ 32 → let o = opened_by d random room in
        flat_greeting (read_greeting o.bytes)
        ≡ flat_greeting (greeted_on (connection_at o.leaves (number_answered o))) }
{}

/// Our panel keeps what RULES, Panel, asks of any, and shows what the projector meant, in any cuts: no requirement is
/// left out.
pub fn our_panel_keeps_its_demand()
    ensures panel { PanelDemand ours_panel }
    ensures shows_what_was_meant { ShowsWhatWasMeant ours_panel }
    ensures any_cuts { (p : List ℕ) (ps : List (List ℕ))
        → (ns : List ℕ) × (cut_at ns (stream_of (p ∷ ps)) ≡ p ∷ ps) }
{}

/// Two panels that do what is asked cannot be told apart, and ours is one of them.
#[tactic(auto, using(crate::proofs::TwoPanels::ours_does, crate::proofs::TwoPanels::panels_alike))]
pub fn panels_that_do_what_is_asked_are_alike()
    ensures ours_does_it { DoesWhatIsAsked ours_panel }
    ensures alike { (P Q : AnyPanel) → DoesWhatIsAsked P → DoesWhatIsAsked Q → PanelsAlike P Q }
{}

/// The wrong panels, each ours except for what the clause's name says: none meets the requirement that it was made
/// against.
pub fn wrong_panels_fall()
    ensures takes_a_foreign_reply { PanelDemand takes_foreign → ⊥ }
    ensures ends_on_a_malformed_line { PanelDemand ends_on_malformed → ⊥ }
    ensures keeps_readings_after_erra { PanelDemand keeps_after_erra → ⊥ }
    ensures wraps_its_count_of_strays { PanelDemand stray_count_wraps → ⊥ }
    ensures shows_a_late_reply { PanelDemand shows_late → ⊥ }
    ensures counts_nothing { PanelDemand counts_nothing → ⊥ }
    ensures shows_nothing_it_accepts { ShowsWhatWasMeant shows_no_reply → ⊥ }
    ensures forgets_at_an_addition { PanelCallsDone forgets_at_addition → ⊥ }
    ensures tells_the_password { PanelCallsDone tells_the_password → ⊥ }
    ensures refuses_what_it_does { PanelCallsDone refuses_what_it_does → ⊥ }
    ensures hides_the_wrong_password { PanelDemand hides_the_wrong_password → ⊥ }
{}
