// What is proved beside the contracts of the functions. Nothing is done here: that these functions have their contracts
// is that the theorems stand.
ghost use Rattle.std.specs.Prelude.{[], ◌∷◌, ◌≡◌, ◌≢◌, ◌≤◌, ℕ, ℤ, List, length, Bool, true, not, if◌then◌else◌, nat_lt};
ghost use Rattle.std.specs.Prelude.{Option, Some, None, Result, ◌<◌, ◌==◌, ◌⊎◌, false};
ghost use Rattle.text.specs.Rows.{first_of, numbers_of};
ghost use Rattle.record.specs.Legal.{is_legal};
ghost use Rattle.record.specs.Limits.{places_count};
ghost use Rattle.record.specs.Places.{connection_at, is_closed};
ghost use Rattle.record.specs.declared.types.Device.{Device};
ghost use Rattle.device.specs.Calls.{reply_room};
ghost use Rattle.ours.specs.Board.{ours};
ghost use Rattle.demands.specs.Calls.{Call, after, run};
ghost use Rattle.std.specs.List.{list_all};
ghost use Rattle.pjlink.specs.declared.command.Command.{Command};
ghost use Rattle.codes.specs.declared.command.Coded.{Coded};
ghost use Rattle.codes.specs.Commands.{coded_command};
ghost use Rattle.text.specs.Outcomes.{refused_as, call_number, with_length};
ghost use Rattle.controller.specs.Writing.{command_room};
ghost use Rattle.controller.specs.Writing.{unwritten_number};
ghost use Rattle.controller.specs.declared.writing.Unwritten.{Unwritten};
ghost use Rattle.controller.specs.declared.writing.Unwritten.TheVariants.{OutOfRange};
ghost use Rattle.controller.specs.Reading.{ReadingOutcome, not_a_line, reading_outcome_number, read_reply};
ghost use Rattle.codes.specs.ByCode.{written_by, read_by};
ghost use Rattle.codes.specs.Readings.{flat_greeting, no_reading};
ghost use Rattle.pjlink.specs.Greetings.{greeting_number, read_greeting};
ghost use Rattle.day.specs.declared.check.CheckError.{CheckError};
ghost use Rattle.day.specs.declared.plan.PlanError.{PlanError};
ghost use Rattle.board.specs.Lists.{Lists};
ghost use Rattle.board.specs.Days.{flat_verdict, flat_plan, ChecksInto, PlansInto};
ghost use Rattle.board.specs.Lamps.{ComparesInto, not_compared};
ghost use Rattle.board.specs.declared.lamps.Comparison.{Comparison};
ghost use Rattle.board.specs.Results.{writing_of, panel_changed_of, panel_sent_of};
ghost use Rattle.board.specs.declared.results.PanelChanged.{PanelChanged};
ghost use Rattle.board.specs.declared.results.PanelSent.{PanelSent};
ghost use Rattle.panel.specs.AnyPanel.{ours_panel};
ghost use Rattle.panel.specs.declared.types.Panel.{Panel};
ghost use Rattle.panel.specs.Refusals.{panel_refusal_number};
ghost use Rattle.panel.specs.declared.refusal.PanelRefusal.{PanelRefusal};
ghost use Rattle.record.specs.declared.types.Setting.{Setting};
ghost use Rattle.record.specs.Refusals.{refusal_number};
ghost use Rattle.record.specs.declared.refusal.Refusal.{Refusal};
ghost use Rattle.record.specs.declared.set_up_error.SetUpError.{SetUpError};
ghost use Rattle.stored.specs.Told.{load_error_number};
ghost use Rattle.stored.specs.declared.error.LoadError.{LoadError};
ghost use Rattle.board.specs.Which.{setting_number};
ghost use Rattle.board.specs.Header.{refusal_constant, panel_refusal_constant, set_up_error_constant};
ghost use Rattle.board.specs.Header.{load_error_constant, unwritten_constant, outcome_constant, setting_constant};
ghost use Rattle.panel.specs.Hearing.{HeardAs, heard_kind};
ghost use Rattle.board.specs.Header.{heard_constant, face};
ghost use Rattle.board.specs.Header.{rule_constant, limits, phases, powers_kept, awaited, has_its_number};
ghost use Rattle.board.specs.Writable.{is_writable_by};
ghost use Rattle.board.specs.Sessions.{is_session, session_rows, session_received, session_closed, are_none_of};
ghost use Rattle.board.specs.declared.writer.Written.{Written};
ghost use Rattle.text.specs.Words.{over};
ghost use Rattle.codes.specs.declared.readings.FlatReading.{FlatReading};
ghost use Rattle.codes.specs.declared.readings.FlatGreeting.{FlatGreeting};
ghost use Rattle.board.specs.declared.days.FlatVerdict.{FlatVerdict};
ghost use Rattle.board.specs.declared.days.FlatPlan.{FlatPlan};
ghost use Rattle.record.specs.Wanted.{Wanted};
ghost use Rattle.record.specs.OutOfRange.{setting_position};
ghost use Rattle.record.specs.SetUp.{first_out_of_range, set_up};
ghost use Rattle.record.specs.SetUpErrors.{set_up_error_number, setting_told};
ghost use Rattle.record.specs.declared.types.Setting.TheVariants.{Password};

/// No two verdicts, no two answers of the planner and no two settings have the same numbers.
pub fn numbers_tell_apart()
    ensures verdicts { (v w : Result (Unit {0}) CheckError) → flat_verdict v ≡ flat_verdict w → v ≡ w }
    ensures plans { (p q : Result (Unit {0}) PlanError) → flat_plan p ≡ flat_plan q → p ≡ q }
    ensures settings { (m n : Option Setting) → setting_number m ≡ setting_number n → m ≡ n }
{}

/// The version of the face, the numbers of refusals, settings, lines heard and a day's rules, the limits and the
/// numbers in a record are those of the constants of the header; codes and kinds are by `codes`
/// (`the_header_names_the_codes`).
pub fn the_header_names_the_numbers()
    ensures refusals { (r : Refusal) → refusal_number r ≡ (refusal_constant r).number }
    ensures panel_refusals { (r : PanelRefusal) → panel_refusal_number r ≡ (panel_refusal_constant r).number }
    ensures set_up_errors { (e : SetUpError) → set_up_error_number e ≡ (set_up_error_constant e).number }
    ensures load_errors { (e : LoadError) → load_error_number e ≡ (load_error_constant e).number }
    ensures unwritten { (r : Unwritten) → unwritten_number r ≡ (unwritten_constant r).number }
    ensures readings { (o : ReadingOutcome) → reading_outcome_number o ≡ (outcome_constant o).number }
    ensures no_greeting { greeting_number None ≡ (outcome_constant not_a_line).number }
    ensures settings { (m : Option Setting) → setting_number m ≡ (setting_constant m).number }
    ensures rules { (v : Result (Unit {0}) CheckError) → (flat_verdict v).rule ≡ (rule_constant v).number }
    ensures limits { list_all has_its_number limits ≡ true }
    ensures phases { list_all has_its_number phases ≡ true }
    ensures powers { list_all has_its_number powers_kept ≡ true }
    ensures awaited { list_all has_its_number awaited ≡ true }
    ensures heard { (h : Option HeardAs) → heard_kind h ≡ (heard_constant h).number }
    ensures face { has_its_number face ≡ true }
{}

/// The numbers of the writer and of the reader of a command by its code are the first row of the table that applies
/// (RULES, The numbers a call gives). What is no command is 3; if the number is not 0, nothing is written or meant.
pub fn a_refusal_has_its_number_only()
    ensures write_number { (m : Option Command) (secured : Bool) (random : ℕ) (password : List ℕ) (room : ℕ)
        → call_number unwritten_number (written_by m secured random password room)
        ≡ (if nat_lt room command_room then 2 else if not (is_writable_by m secured password) then 3 else 0) }
    ensures nothing_written { (m : Option Command) (secured : Bool) (random : ℕ) (password : List ℕ) (room : ℕ)
        → call_number unwritten_number (written_by m secured random password room) ≢ 0
        → (written_by m secured random password room).bytes ≡ [] }
    ensures no_command_written { (k : Coded) (secured : Bool) (random : ℕ) (password : List ℕ) (room : ℕ)
        → coded_command k ≡ None → command_room ≤ room
        → written_by (coded_command k) secured random password room ≡ refused_as tt OutOfRange }
    ensures read_number { (c : Command) (l : List ℕ)
        → (read_by (Some c) l).number ≡ reading_outcome_number (read_reply c l).outcome }
    ensures nothing_meant { (m : Option Command) (l : List ℕ)
        → (read_by m l).number ≢ 0 → read_by m l ≡ no_reading (read_by m l).number }
    ensures no_command_read { (k : Coded) (l : List ℕ)
        → coded_command k ≡ None → read_by (coded_command k) l ≡ no_reading 3 }
{}

/// The setting returned for a set-up is 0 exactly if set-up gives 0. If set-up gives 3, it is the first setting out of
/// its range; if set-up gives 8, the password.
pub fn the_setting_told_goes_with_the_number()
    ensures accepted_where_0 { (w : Wanted)
        → setting_number (setting_told (set_up w).says) ≡ 0 → call_number set_up_error_number (set_up w) ≡ 0 }
    ensures is_0_where_accepted { (w : Wanted)
        → call_number set_up_error_number (set_up w) ≡ 0 → setting_number (setting_told (set_up w).says) ≡ 0 }
    ensures first_out { (w : Wanted) → call_number set_up_error_number (set_up w) ≡ 3
        → setting_number (setting_told (set_up w).says) ≡ setting_number (first_out_of_range w) }
    ensures short_password { (w : Wanted) → call_number set_up_error_number (set_up w) ≡ 8
        → setting_number (setting_told (set_up w).says) ≡ setting_position Password }
{}

/// A later table of one place more than the earlier one is not compared, and nothing is written (RULES, Service).
#[tactic(auto, using(crate::proofs::OneOfLists::one_place_short))]
pub fn a_place_more_is_not_compared()
    ensures { (out : List ℤ) (r : Comparison) (m : List ℤ) → ComparesInto (1 ∷ []) (1 ∷ 2 ∷ []) out r m
        → (r ≡ not_compared) × (m ≡ out) }
{}

/// Two results that meet the promise of a call are equal, written bytes included.
pub fn one_result()
    ensures command_written { (k : Coded) (secured : Bool) (random : ℕ) (password out : List ℕ)
        (r s : Written) (m n : List ℕ)
        → let w = written_by (coded_command k) secured random password (length out) in
        (r ≡ writing_of unwritten_number (with_length w)) × (m ≡ over w.bytes out)
        → (s ≡ writing_of unwritten_number (with_length w)) × (n ≡ over w.bytes out) → (r ≡ s) × (m ≡ n) }
    ensures reply_read { (k : Coded) (l : List ℕ) (r s : FlatReading)
        → r ≡ read_by (coded_command k) l → s ≡ read_by (coded_command k) l → r ≡ s }
    ensures greeting_read { (l : List ℕ) (r s : FlatGreeting)
        → r ≡ flat_greeting (read_greeting l) → s ≡ flat_greeting (read_greeting l) → r ≡ s }
    ensures verdict { (l : Lists) (a : List ℕ) (r s : FlatVerdict)
        → ChecksInto l a r → ChecksInto l a s → r ≡ s }
    ensures plan { (l : Lists) (out : List ℕ) (r s : FlatPlan) (m n : List ℕ)
        → PlansInto l out r m → PlansInto l out s n → (r ≡ s) × (m ≡ n) }
    ensures comparison { (es ls : List ℕ) (out : List ℤ) (r s : Comparison) (m n : List ℤ)
        → ComparesInto es ls out r m → ComparesInto es ls out s n → (r ≡ s) × (m ≡ n) }
    ensures panel_made { (r s : PanelChanged)
        → r ≡ panel_changed_of ours_panel.none → s ≡ panel_changed_of ours_panel.none → r ≡ s }
    ensures projector_added { (p : Panel) (password : List ℕ) (r s : PanelChanged)
        → r ≡ panel_changed_of (ours_panel.add p password) → s ≡ panel_changed_of (ours_panel.add p password) → r ≡ s }
    ensures command_sent { (p : Panel) (i : ℕ) (k : Coded) (out : List ℕ) (r s : PanelSent) (m n : List ℕ)
        → let c = ours_panel.command p i k (length out) in
        (r ≡ panel_sent_of c) × (m ≡ over c.line out)
        → (s ≡ panel_sent_of c) × (n ≡ over c.line out) → (r ≡ s) × (m ≡ n) }
    ensures line_heard { (p : Panel) (i : ℕ) (l : List ℕ) (r s : PanelChanged)
        → r ≡ panel_changed_of (ours_panel.hear p i l) → s ≡ panel_changed_of (ours_panel.hear p i l) → r ≡ s }
    ensures connection_lost { (p : Panel) (i : ℕ) (r s : PanelChanged)
        → r ≡ panel_changed_of (ours_panel.lose p i) → s ≡ panel_changed_of (ours_panel.lose p i) → r ≡ s }
    ensures setting { (w : Wanted) (r s : ℕ)
        → r ≡ setting_number (setting_told (set_up w).says) → s ≡ setting_number (setting_told (set_up w).says)
        → r ≡ s }
{}

/// A session's own bytes get what receiving gives, and its closing what closing gives. A call that names another
/// session, or one where there is none, changes nothing, for any record and bytes: its number is the first row's, so 4
/// if the record is legal, the memory long enough, and the place exists (RULES, The C face).
#[tactic(auto, using(crate::proofs::SessionsTold::naming))]
pub fn a_session_is_served_alone()
    ensures own_bytes { (d : Device) (p r : ℕ) (bytes out : List ℕ) → is_session d p r ≡ true
        → session_received d p r bytes out ≡ ours.receive d p bytes out }
    ensures own_closing { (d : Device) (p r : ℕ) → is_session d p r ≡ true → session_closed d p r ≡ ours.closing d p }
    ensures number { (d : Device) (p r : ℕ) (bytes out : List ℕ)
        → (session_received d p r bytes out).number
        ≡ first_of (numbers_of refusal_number (session_rows d p r (length out))) }
    ensures others_bytes { (d : Device) (p r : ℕ) (bytes out : List ℕ) → is_session d p r ≡ false
        → let t = session_received d p r bytes out in
        (t.number ≢ 0) × (t.taken ≡ 0) × (t.length ≡ 0) × (t.memory ≡ out) × (t.device ≡ d) }
    ensures others_number { (d : Device) (p r : ℕ) (bytes out : List ℕ) → is_session d p r ≡ false
        → is_legal d ≡ true → reply_room ≤ length out → p < places_count
        → (session_received d p r bytes out).number ≡ 4 }
    ensures others_closing { (d : Device) (p r : ℕ) → is_session d p r ≡ false
        → ((session_closed d p r).number ≢ 0) × ((session_closed d p r).device ≡ d) }
{}

/// A session begins with its opening and lasts until its connection is closed, by time or by a call. Once it is over it
/// stays so over any calls of everybody, if none opens with its number: so bytes of an older session change nothing,
/// though its place was opened again (RULES, The C face).
#[tactic(auto, using(crate::proofs::SessionsTold::standing))]
pub fn an_older_session_is_over()
    ensures opened { (d : Device) (s r : ℕ) (out : List ℕ) → (ours.opening d s out).number ≡ 0
        → is_session (ours.opening d s out).device (ours.place_opened d s out) r ≡ (s == r) }
    ensures lasts { (d : Device) (p r : ℕ) (c : Call) → is_session d p r ≡ true
        → (is_closed (connection_at (after ours d c) p) ≡ true) ⊎ (is_session (after ours d c) p r ≡ true) }
    ensures closed { (d : Device) (p r : ℕ) → is_closed (connection_at d p) ≡ true → is_session d p r ≡ false }
    ensures over { (d : Device) (p r : ℕ) (calls : List Call) → is_session d p r ≡ false → are_none_of r calls ≡ true
        → is_session (run ours d calls) p r ≡ false }
    ensures older_bytes { (d : Device) (p r : ℕ) (calls : List Call) (bytes out : List ℕ)
        → is_session d p r ≡ false → are_none_of r calls ≡ true
        → let e = run ours d calls in
        let t = session_received e p r bytes out in
        (t.number ≢ 0) × (t.taken ≡ 0) × (t.length ≡ 0) × (t.memory ≡ out) × (t.device ≡ e) }
{}
