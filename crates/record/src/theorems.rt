// What is proved beside the contracts of the functions. Nothing is done here: that these functions have their contracts
// is that the theorems stand.
ghost use Rattle.std.specs.Prelude.{◌≡◌, ◌≢◌, ◌+◌, ◌*◌, ◌<◌, ◌≤◌, Bool, IsTrue, true, false, List, ℕ, Option};
ghost use Rattle.std.specs.Prelude.{Some, None, Result, length, map, [], ◌∷◌, codes};
ghost use Rattle.text.specs.Flags.{is_flag, is_raised, flag_of};
ghost use Rattle.text.specs.Outcomes.{call_number};
ghost use Rattle.words.specs.Bytes.{◌at◌};
ghost use Rattle.words.specs.Texts.{password_most};
ghost use Rattle.record.specs.Limits.{age_end, errors_count, error_most, lamp_limit};
ghost use Rattle.record.specs.Rules.{is_long_enough};
ghost use Rattle.record.specs.Facts.{IsSettings, IsOwn, IsConnection, HasFlags};
ghost use Rattle.record.specs.declared.types.Settings.{Settings};
ghost use Rattle.record.specs.declared.types.Own.{Own};
ghost use Rattle.record.specs.declared.types.Connection.{Connection};
ghost use Rattle.record.specs.declared.types.Setting.{Setting};
ghost use Rattle.record.specs.OutOfRange.{SettingHolds};
ghost use Rattle.record.specs.SetUp.{settings_in_order, is_setting_in_range, is_in_range};
ghost use Rattle.record.specs.SetUp.{first_failing, first_out_of_range, set_up};
ghost use Rattle.record.specs.SetUpErrors.{set_up_error_number, setting_told};
ghost use Rattle.record.specs.Wanted.{Wanted, names_in};
ghost use Rattle.record.specs.Worked.{named_set_up, secured_set_up, class_2_set_up, whole_set_up, texts_set_up};
ghost use Rattle.record.specs.Worked.{AreNumbered, input_rows, most_input_rows, password_rows, class_2_set_up_rows};
ghost use Rattle.record.specs.Worked.{in_turn, nine_settings, set_up_refuses};
ghost use Rattle.record.specs.Record.{start_device};
ghost use Rattle.record.specs.declared.types.Setting.TheVariants.{Password, Cooling, Serial, Version, Names};
ghost use Rattle.record.specs.declared.refusal.Refusal.{Refusal};
ghost use Rattle.record.specs.declared.set_up_error.SetUpError.{SetUpError};
ghost use Rattle.record.specs.declared.types.Device.{Device};
ghost use Rattle.record.specs.Legal.{is_collecting, is_legal};
ghost use Rattle.record.specs.HostCalls.{fault_set, errors_set, mark_set};

/// The setting told is the first that is out of its range, or none where each is in it; and what holds is told.
pub fn the_setting_told_holds()
    ensures told_holds { (f : Setting → Bool) → SettingHolds f (first_failing f settings_in_order) }
    ensures holds_told { (f : Setting → Bool) (m : Option Setting)
        → SettingHolds f m → first_failing f settings_in_order ≡ m }
    ensures none_in_range { (w : Wanted) → first_out_of_range w ≡ None → is_in_range w ≡ true }
    ensures in_range_none { (w : Wanted) → is_in_range w ≡ true → first_out_of_range w ≡ None }
    ensures each_in_range { (w : Wanted) → is_in_range w ≡ true → (s : Setting) → is_setting_in_range w s ≡ true }
{}

/// Which setting set-up refused, by the number that a host is given: 3 where one is out of its range, 8 where none is
/// and the password is short.
pub fn the_number_tells_the_setting()
    ensures out { (w : Wanted) → call_number set_up_error_number (set_up w) ≡ 3 → is_in_range w ≡ false }
    ensures short { (w : Wanted) → call_number set_up_error_number (set_up w) ≡ 8
        → (is_in_range w ≡ true) × (is_long_enough (length w.password) ≡ false) }
    ensures out_of_range { (w : Wanted) → call_number set_up_error_number (set_up w) ≡ 3
        → setting_told (set_up w).says ≡ first_out_of_range w }
    ensures too_short { (w : Wanted) → call_number set_up_error_number (set_up w) ≡ 8
        → setting_told (set_up w).says ≡ Some Password }
    ensures none_where_accepted { (w : Wanted) → call_number set_up_error_number (set_up w) ≡ 0
        → setting_told (set_up w).says ≡ None }
    ensures accepted_where_none { (w : Wanted) → setting_told (set_up w).says ≡ None
        → call_number set_up_error_number (set_up w) ≡ 0 }
{}

/// Two results that meet the promise of a call are equal, the record that it leaves included.
pub fn one_result()
    ensures set_up { (w : Wanted) (r s : Result (Unit {0}) SetUpError) (x y : Device)
        → (r ≡ (set_up w).says) × (x ≡ (set_up w).leaves) → (s ≡ (set_up w).says) × (y ≡ (set_up w).leaves)
        → (r ≡ s) × (x ≡ y) }
    ensures setting { (w : Wanted) (r s : Option Setting)
        → r ≡ first_out_of_range w → s ≡ first_out_of_range w → r ≡ s }
    ensures legality { (d : Device) (r s : Bool) → r ≡ is_legal d → s ≡ is_legal d → r ≡ s }
    ensures fault { (d : Device) (mark : Bool) (r s : Result (Unit {0}) Refusal) (x y : Device)
        → (r ≡ (fault_set d mark).says) × (x ≡ (fault_set d mark).leaves)
        → (s ≡ (fault_set d mark).says) × (y ≡ (fault_set d mark).leaves)
        → (r ≡ s) × (x ≡ y) }
    ensures errors { (d : Device) (digits : List ℕ) (r s : Result (Unit {0}) Refusal) (x y : Device)
        → (r ≡ (errors_set d digits).says) × (x ≡ (errors_set d digits).leaves)
        → (s ≡ (errors_set d digits).says) × (y ≡ (errors_set d digits).leaves)
        → (r ≡ s) × (x ≡ y) }
    ensures mark { (d : Device) (lamp : ℕ) (mark : Bool) (r s : Result (Unit {0}) Refusal) (x y : Device)
        → (r ≡ (mark_set d lamp mark).says) × (x ≡ (mark_set d lamp mark).leaves)
        → (s ≡ (mark_set d lamp mark).says) × (y ≡ (mark_set d lamp mark).leaves)
        → (r ≡ s) × (x ≡ y) }
{}

/// What legality says, part by part, in numbers (RULES, The legal record).
pub fn legal_parts_keep_the_rules()
    ensures password { (s : Settings) → IsSettings s → s.password.len ≤ password_most }
    ensures inputs_differ { (s : Settings) (j k : ℕ) → IsSettings s → j < k → k < s.input_count
        → (s.inputs at (2 * k)) ≡ (s.inputs at (2 * j))
        → (s.inputs at (2 * k + 1)) ≢ (s.inputs at (2 * j + 1)) }
    ensures errors { (s : Settings) (o : Own) (k : ℕ) → IsOwn s o → k < errors_count
        → o.errors at k ≤ error_most }
    ensures age { (c : Connection) → IsConnection c → c.age < age_end }
    ensures overlong { (c : Connection) → IsConnection c → IsTrue (is_raised c.line.overlong)
        → IsTrue (is_collecting c.phase) }
{}

/// A record may have any byte for a flag. A legal one has 0 or 1 for each: then the flag is what it says, and what is
/// written is what is read (RULES, The legal record).
#[tactic(auto, using(crate::proofs::FlagsLegal::flags_told_of_legal))]
pub fn flags_are_bytes()
    ensures legal { (d : Device) → is_legal d ≡ true → HasFlags d }
    ensures said { (b : Bool) → is_raised (flag_of b) ≡ b }
    ensures back { (n : ℕ) → is_flag n ≡ true → flag_of (is_raised n) ≡ n }
{}

/// Set-ups worked out, by the number that each gives: inputs, their most, passwords and what Class 2 has more, on both
/// sides of their rules (RULES, Inputs, Passwords and Class 2); and records that are legal or not.
#[tactic(auto, using(crate::proofs::Samples::numbered_set_ups))]
pub fn set_ups_are_numbered()
    ensures inputs { AreNumbered input_rows }
    ensures most_inputs { AreNumbered most_input_rows }
    ensures passwords { AreNumbered password_rows }
    ensures class_2 { AreNumbered class_2_set_up_rows }
    ensures plain_legal { is_legal (start_device (named_set_up "" "11" 0)) ≡ true }
    ensures seven_illegal { is_legal (start_device (secured_set_up "abcdef7" "11")) ≡ false }
    ensures eight_legal { is_legal (start_device (secured_set_up "abcdefg8" "11")) ≡ true }
    ensures named_legal { is_legal (start_device (class_2_set_up "1A6Z" (codes "A" ∷ codes "Cast" ∷ []))) ≡ true }
{}

/// Which setting is refused, worked out: each in turn, also where cooling is out of its range too; none; the password,
/// where it is short and nothing else is wrong; those of Class 2. And how lent names are cut (RULES, The legal record).
#[tactic(auto, using(crate::proofs::Samples::told_settings))]
pub fn settings_are_told_in_order()
    ensures each { map set_up_refuses (in_turn 60) ≡ map Some nine_settings }
    ensures first_of_two { map set_up_refuses (in_turn 0) ≡ map Some nine_settings }
    ensures none { set_up_refuses (whole_set_up "ERR5" "" "" "" "password" "1159" lamp_limit 600 600) ≡ None }
    ensures short { set_up_refuses (whole_set_up "" "" "" "" "abcdef7" "11" 0 20 60) ≡ Some Password }
    ensures later { set_up_refuses (whole_set_up "" "" "" "" "abcdef7" "11" 0 20 0) ≡ Some Cooling }
    ensures class_2 { map set_up_refuses (texts_set_up "ERR1" "ERR1" [] ∷ texts_set_up "" "ERR1" []
        ∷ texts_set_up "" "" [] ∷ texts_set_up "" "" ([] ∷ []) ∷ [])
        ≡ Some Serial ∷ Some Version ∷ Some Names ∷ None ∷ [] }
    ensures cut { names_in (4 ∷ 0 ∷ 1 ∷ []) (codes "CastB") ≡ codes "Cast" ∷ [] ∷ codes "B" ∷ [] }
    ensures uneven { names_in (4 ∷ 2 ∷ []) (codes "CastB") ≡ [] }
{}
