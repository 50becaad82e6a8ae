// What is proved beside the contracts of the functions. The functions here do nothing: their contracts are the
// theorems.
ghost use Rattle.std.specs.Prelude.{[], ◌≡◌, ◌≢◌, ◌≤◌, ◌<◌, ◌++◌, List, ℕ, Some, true, false, not, length, Result};
ghost use Rattle.std.specs.List.{list_all};
ghost use Rattle.text.specs.Flags.{is_raised};
ghost use Rattle.text.specs.Rows.{first_of, numbers_of};
ghost use Rattle.text.specs.Outcomes.{call_number, with_length};
ghost use Rattle.text.specs.Scans.{is_same_by, itself};
ghost use Rattle.text.specs.Words.{over};
ghost use Rattle.digest.specs.Hex.{leading_digest};
ghost use Rattle.pjlink.specs.Commands.{command_line, command_class};
ghost use Rattle.pjlink.specs.Forms.{erra_line, greeting_open, greeting_secured, is_reply_form};
ghost use Rattle.pjlink.specs.declared.command.Command.{Command};
ghost use Rattle.pjlink.specs.Said.{Said, okay, refused};
ghost use Rattle.controller.specs.Reading.{meaning, read_reply};
ghost use Rattle.controller.specs.Writing.{command_room, written_command};
ghost use Rattle.codes.specs.Commands.{coded_command};
ghost use Rattle.codes.specs.declared.command.Coded.{Coded};
ghost use Rattle.panel.specs.Entries.{Shown, talk_of, shown_of, password_in, leads_next, nothing_shown};
ghost use Rattle.panel.specs.Entries.{greeted_by, greeted_secured, greeted_open, fresh_entry, blank_entry, ungreeted};
ghost use Rattle.panel.specs.Showing.{showing};
ghost use Rattle.panel.specs.Stepping.{heard_line, with_talk, with_stray, answered_entry, lost_entry, sent_entry};
ghost use Rattle.panel.specs.Stepping.{command_sent};
ghost use Rattle.panel.specs.LegalPanels.{is_entry, is_panel};
ghost use Rattle.panel.specs.StepTable.{IsUnderWay, IsStray, StepTo};
ghost use Rattle.panel.specs.Talks.{Happens, is_first_led, led_in_talk};
ghost use Rattle.panel.specs.PanelCalls.{no_panel, entry_at, adding_rows, commanding_rows, projector_rows};
ghost use Rattle.panel.specs.PanelCalls.{added_to, command_at, stepped_at, lost_at};
ghost use Rattle.panel.specs.Hearing.{HeardAs};
ghost use Rattle.panel.specs.Refusals.{panel_refusal_number};
ghost use Rattle.panel.specs.declared.refusal.PanelRefusal.{PanelRefusal};
ghost use Rattle.panel.specs.declared.types.PanelEntry.{PanelEntry};
ghost use Rattle.panel.specs.declared.types.Panel.{Panel};

/// A legal entry changes by a line as the table says, and the table gives one entry.
pub fn a_line_steps_by_the_table()
    ensures steps_by_the_table { (e : PanelEntry) (l : List ℕ) → is_entry e ≡ true → StepTo e l (heard_line e l) }
    ensures row_steps { (e : PanelEntry) (l : List ℕ) (f : PanelEntry) → StepTo e l f → heard_line e l ≡ f }
    ensures one_step { (e : PanelEntry) (l : List ℕ) (f g : PanelEntry) → StepTo e l f → StepTo e l g → f ≡ g }
{}

/// Lines that RULES, Panel, does not list one by one change nothing but the count of strays: the ERRA line before a
/// greeting; the ERRA line and a second greeting while no command is under way; while one is, a line that is neither
/// the ERRA line nor of a reply's form, so a second greeting too, with any random number.
#[tactic(auto, using(crate::proofs::Examples::counted_strays))]
pub fn strays_are_counted()
    ensures erra_before_greeting { (e : PanelEntry) → e.greeting ≡ ungreeted → heard_line e erra_line ≡ with_stray e }
    ensures erra_late { (e : PanelEntry) → e.greeting ≢ ungreeted → is_raised e.under_way ≡ false
        → heard_line e erra_line ≡ with_stray e }
    ensures greeting_late { (e : PanelEntry) → e.greeting ≢ ungreeted → is_raised e.under_way ≡ false
        → heard_line e greeting_open ≡ with_stray e }
    ensures unformed { (e : PanelEntry) (c : Command) → IsUnderWay e c → (l : List ℕ)
        → is_same_by itself l erra_line ≡ false → is_reply_form (command_class c) l ≡ false
        → heard_line e l ≡ with_stray e }
    ensures greeting_malformed { (e : PanelEntry) (c : Command) → IsUnderWay e c
        → heard_line e greeting_open ≡ with_stray e }
    ensures secured_greeting_malformed { (e : PanelEntry) (c : Command) → IsUnderWay e c → (digits : List ℕ)
        → heard_line e (greeting_secured digits) ≡ with_stray e }
{}

/// The digest leads the first of the commands sent on a secured connection and no other, for any commands and any
/// lines. After a greeting without security it leads none.
pub fn the_digest_leads_the_first()
    ensures secured { (e : PanelEntry) (xs : List Happens) (random : ℕ)
        → is_first_led (led_in_talk (with_talk e (greeted_by greeted_secured random)) xs) ≡ true }
    ensures unsecured { (e : PanelEntry) (xs : List Happens)
        → list_all not (led_in_talk (with_talk e (greeted_by greeted_open 0)) xs) ≡ true }
{}

/// What is sent is what the controller's writer writes: the digest and the command's line if the digest leads it, else
/// the line.
pub fn the_line_is_the_writers()
    ensures by_the_writer { (e : PanelEntry) (c : Command) (room : ℕ) → command_sent e c room
        ≡ (written_command c (leads_next (talk_of e)) e.random (password_in e) room).bytes }
    ensures led { (e : PanelEntry) (k : Coded) (c : Command) (room : ℕ)
        → is_entry e ≡ true → coded_command k ≡ Some c → command_room ≤ room → leads_next (talk_of e) ≡ true
        → command_sent e c room ≡ leading_digest e.random (password_in e) ++ command_line c }
    ensures plain { (e : PanelEntry) (k : Coded) (c : Command) (room : ℕ)
        → is_entry e ≡ true → coded_command k ≡ Some c → command_room ≤ room → leads_next (talk_of e) ≡ false
        → command_sent e c room ≡ command_line c }
{}

/// What is shown changes by an accepted reply with a reading, and by ERRA. No stray, no OK, no error, no command and no
/// loss of the connection changes it. At first nothing is known.
pub fn only_a_reading_is_shown()
    ensures stray_keeps { (e : PanelEntry) (l : List ℕ) → IsStray e l
        → (talk_of (heard_line e l) ≡ talk_of e) × (shown_of (heard_line e l) ≡ shown_of e) }
    ensures reply_shows { (e : PanelEntry) (l : List ℕ) (c : Command) (m : Said)
        → IsUnderWay e c → read_reply c l ≡ meaning m → heard_line e l ≡ answered_entry e m }
    ensures okay_keeps { (s : Shown) → showing s okay ≡ s }
    ensures error_keeps { (s : Shown) (n : ℕ) → showing s (refused n) ≡ s }
    ensures loss_keeps { (e : PanelEntry) → shown_of (lost_entry e) ≡ shown_of e }
    ensures sending_keeps { (e : PanelEntry) (k : Coded) → shown_of (sent_entry e k) ≡ shown_of e }
    ensures unknown_at_first { (s : List ℕ) → shown_of (fresh_entry s) ≡ nothing_shown }
{}

/// A refused call leaves the panel as it was and sends nothing. The number of a call is that of the first row of its
/// table that applies (RULES, The numbers a call gives).
pub fn a_refusal_keeps_the_panel()
    ensures adding { (p : Panel) (s : List ℕ) → let a = added_to p s in
        call_number panel_refusal_number a ≢ 0 → (a.leaves ≡ p) × (a.bytes ≡ []) }
    ensures sending { (p : Panel) (i : ℕ) (k : Coded) (room : ℕ) → let c = command_at p i k room in
        call_number panel_refusal_number c ≢ 0 → (c.leaves ≡ p) × (c.bytes ≡ []) }
    ensures hearing { (p : Panel) (i : ℕ) (l : List ℕ) → let h = stepped_at p i l in
        call_number panel_refusal_number h ≢ 0 → (h.leaves ≡ p) × (h.bytes ≡ []) }
    ensures losing { (p : Panel) (i : ℕ) → let l = lost_at p i in
        call_number panel_refusal_number l ≢ 0 → (l.leaves ≡ p) × (l.bytes ≡ []) }
    ensures adding_number { (p : Panel) (s : List ℕ) → call_number panel_refusal_number (added_to p s)
        ≡ first_of (numbers_of panel_refusal_number (adding_rows p s)) }
    ensures sending_number { (p : Panel) (i : ℕ) (k : Coded) (room : ℕ)
        → call_number panel_refusal_number (command_at p i k room)
        ≡ first_of (numbers_of panel_refusal_number (commanding_rows p i k room)) }
    ensures hearing_number { (p : Panel) (i : ℕ) (l : List ℕ) → call_number panel_refusal_number (stepped_at p i l)
        ≡ first_of (numbers_of panel_refusal_number (projector_rows p i)) }
    ensures losing_number { (p : Panel) (i : ℕ) → call_number panel_refusal_number (lost_at p i)
        ≡ first_of (numbers_of panel_refusal_number (projector_rows p i)) }
{}

/// The panel without a projector is legal. Past its count a legal panel is blank. Adding a projector leaves the others
/// as they were.
pub fn a_panel_grows_by_one()
    ensures none_legal { is_panel no_panel ≡ true }
    ensures blank_past { (p : Panel) (i : ℕ) → is_panel p ≡ true → p.count ≤ i → i < length p.entries
        → entry_at p i ≡ blank_entry }
    ensures others_stay { (p : Panel) (s : List ℕ) (j : ℕ) → j ≢ p.count
        → entry_at (added_to p s).leaves j ≡ entry_at p j }
{}

/// Any two results that meet the contract of a call are equal: what it returns, the panel and the bytes written.
#[tactic(auto, using(text::proofs::OneResult::one_result))]
pub fn one_result()
    ensures added { (p : Panel) (password : List ℕ) (r s : Result (Unit {0}) PanelRefusal) (x y : Panel)
        → let a = added_to p password in
        (r ≡ a.says) × (x ≡ a.leaves) → (s ≡ a.says) × (y ≡ a.leaves) → (r ≡ s) × (x ≡ y) }
    ensures sent { (p : Panel) (i : ℕ) (k : Coded) (out : List ℕ) (r s : Result ℕ PanelRefusal) (x y : Panel)
        (m n : List ℕ)
        → let c = command_at p i k (length out) in
        (r ≡ with_length c) × (x ≡ c.leaves) × (m ≡ over c.bytes out)
        → (s ≡ with_length c) × (y ≡ c.leaves) × (n ≡ over c.bytes out)
        → (r ≡ s) × (x ≡ y) × (m ≡ n) }
    ensures heard { (p : Panel) (i : ℕ) (l : List ℕ) (r s : Result HeardAs PanelRefusal) (x y : Panel)
        → let h = stepped_at p i l in
        (r ≡ h.says) × (x ≡ h.leaves) → (s ≡ h.says) × (y ≡ h.leaves) → (r ≡ s) × (x ≡ y) }
    ensures lost { (p : Panel) (i : ℕ) (r s : Result (Unit {0}) PanelRefusal) (x y : Panel)
        → let l = lost_at p i in
        (r ≡ l.says) × (x ≡ l.leaves) → (s ≡ l.says) × (y ≡ l.leaves) → (r ≡ s) × (x ≡ y) }
{}
