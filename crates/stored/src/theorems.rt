// What is proved beside the contracts of the functions. Nothing is done here: that these functions have their contracts
// is that the theorems stand.
ghost use Rattle.std.specs.Prelude.{◌≡◌, ◌<◌, ◌≤◌, [], ◌∷◌, ◌++◌, true, List, Bool, ℕ, length, take, replicate, Result};
ghost use Rattle.std.specs.List.{list_all};
ghost use Rattle.words.specs.Bytes.{◌at◌};
ghost use Rattle.record.specs.Rules.{is_at_most};
ghost use Rattle.record.specs.Record.{start_device};
ghost use Rattle.record.specs.Updates.{with_own, with_marks};
ghost use Rattle.record.specs.Wanted.{Wanted};
ghost use Rattle.record.specs.SetUp.{is_set_up};
ghost use Rattle.text.specs.Words.{over};
ghost use Rattle.text.specs.Outcomes.{served_as, call_number, with_length, with_record};
ghost use Rattle.record.specs.declared.refusal.Refusal.{Refusal};
ghost use Rattle.stored.specs.Form.{form_of, marked_form_of, old_form_of, stored_form, form_most, stored_by};
ghost use Rattle.stored.specs.Form.{old_version, version_form, stored_of, marks_stored};
ghost use Rattle.stored.specs.Loading.{started_with, loaded_from};
ghost use Rattle.stored.specs.Printed.{cutting_room, class_room, only_first, printed_form, printed_class_2};
ghost use Rattle.stored.specs.Printed.{printed_marked, printed_old, widest_form};
ghost use Rattle.stored.specs.Printed.{AreLoadedAs, refused_rows, class_rows, old_rows, marks_rows};
ghost use Rattle.record.specs.declared.types.Device.{Device};
ghost use Rattle.record.specs.Legal.{is_legal};
ghost use Rattle.stored.specs.declared.error.LoadError.{LoadError};
ghost use Rattle.stored.specs.Told.{load_error_number};

/// A form of any version that is cut anywhere is 21, and one with more after it 22.
pub fn a_form_is_whole()
    ensures cut_short { (w : Wanted) → is_set_up w ≡ true → (ms : List Bool) (k : ℕ) → k < length (form_of w ms)
        → call_number load_error_number (loaded_from (take k (form_of w ms))) ≡ 21 }
    ensures cut_short_marked { (w : Wanted) → is_set_up w ≡ true → w.class ≡ 1 → (ms : List Bool) (k : ℕ)
        → k < length (marked_form_of w ms)
        → call_number load_error_number (loaded_from (take k (marked_form_of w ms))) ≡ 21 }
    ensures cut_short_old { (w : Wanted) → is_set_up w ≡ true → w.class ≡ 1 → (k : ℕ) → k < length (old_form_of w)
        → call_number load_error_number (loaded_from (take k (old_form_of w))) ≡ 21 }
    ensures left_over { (w : Wanted) → is_set_up w ≡ true → (ms : List Bool) (x : ℕ) (xs : List ℕ)
        → call_number load_error_number (loaded_from (form_of w ms ++ x ∷ xs)) ≡ 22 }
    ensures left_over_marked { (w : Wanted) → is_set_up w ≡ true → w.class ≡ 1 → (ms : List Bool) (x : ℕ) (xs : List ℕ)
        → call_number load_error_number (loaded_from (marked_form_of w ms ++ x ∷ xs)) ≡ 22 }
    ensures left_over_old { (w : Wanted) → is_set_up w ≡ true → w.class ≡ 1 → (x : ℕ) (xs : List ℕ)
        → call_number load_error_number (loaded_from (old_form_of w ++ x ∷ xs)) ≡ 22 }
{}

/// What a legal record stores loads as a fresh set-up of its settings, each lamp with its seconds and its mark.
#[tactic(auto, using(crate::proofs::FormsLoad::stored_loads_as))]
pub fn what_is_stored_loads()
    ensures { (d : Device) → is_legal d ≡ true → loaded_from (stored_form d)
        ≡ served_as tt []
        (with_own (start_device (stored_of d)) (with_marks (start_device (stored_of d)).own d.own.enabled)) }
{}

/// Bytes that load are their version's form of what they loaded, each lamp enabled in the oldest, and no others of that
/// version load as the same record.
pub fn a_form_is_one()
    ensures stored_again { (s : List ℕ) → list_all (is_at_most 255) s ≡ true
        → call_number load_error_number (loaded_from s) ≡ 0
        → version_form (s at 0) (stored_of (loaded_from s).leaves) (marks_stored (loaded_from s).leaves) ≡ s }
    ensures old_enabled { (s : List ℕ) → call_number load_error_number (loaded_from s) ≡ 0 → s at 0 ≡ old_version
        → marks_stored (loaded_from s).leaves ≡ replicate (length (stored_of (loaded_from s).leaves).lamps) true }
    ensures apart { (s t : List ℕ) → list_all (is_at_most 255) s ≡ true → list_all (is_at_most 255) t ≡ true
        → call_number load_error_number (loaded_from s) ≡ 0 → call_number load_error_number (loaded_from t) ≡ 0
        → s at 0 ≡ t at 0
        → (loaded_from s).leaves ≡ (loaded_from t).leaves → s ≡ t }
{}

/// Memory of this size is never too short for the form of a legal record.
#[tactic(auto, using(crate::proofs::FormMost::stored_most))]
pub fn a_form_is_short()
    ensures { (d : Device) → is_legal d ≡ true → length (stored_form d) ≤ form_most }
{}

/// Two results that meet the promise of a call are equal, lent memory included.
#[tactic(auto, using(text::proofs::OneResult::one_result))]
pub fn one_result()
    ensures storing { (d : Device) (out : List ℕ) (r s : Result ℕ Refusal) (m n : List ℕ)
        → let w = stored_by d (length out) in
        (r ≡ with_length w) × (m ≡ over w.bytes out)
        → (s ≡ with_length w) × (n ≡ over w.bytes out) → (r ≡ s) × (m ≡ n) }
    ensures loading_in_place { (bs : List ℕ) (r s : Result (Unit {0}) LoadError) (x y : Device)
        → let c = loaded_from bs in
        (r ≡ c.says) × (x ≡ c.leaves) → (s ≡ c.says) × (y ≡ c.leaves) → (r ≡ s) × (x ≡ y) }
    ensures loading { (bs : List ℕ) (r s : Result Device LoadError)
        → r ≡ with_record (loaded_from bs) → s ≡ with_record (loaded_from bs) → r ≡ s }
{}

/// Forms printed by hand (RULES, Stored form), one of each version and class: what is stored is these bytes, and they
/// load as what was stored. The longest form has as many bytes as a host may have to lend.
#[tactic(auto, using(crate::proofs::Samples::printed_forms))]
pub fn forms_are_as_printed()
    ensures stored { form_of cutting_room only_first ≡ printed_form }
    ensures loads { loaded_from printed_form ≡ served_as tt [] (started_with cutting_room only_first) }
    ensures class_2_stored { form_of class_room only_first ≡ printed_class_2 }
    ensures class_2_loads { loaded_from printed_class_2 ≡ served_as tt [] (started_with class_room only_first) }
    ensures marked { marked_form_of cutting_room only_first ≡ printed_marked }
    ensures marked_loads { loaded_from printed_marked ≡ served_as tt [] (started_with cutting_room only_first) }
    ensures old { old_form_of cutting_room ≡ printed_old }
    ensures old_loads { loaded_from printed_old ≡ served_as tt [] (start_device cutting_room) }
    ensures widest_loads { call_number load_error_number (loaded_from widest_form) ≡ 0 }
    ensures widest { length widest_form ≡ form_most }
{}

/// Bytes that do not load, each with its number (RULES, Stored form).
#[tactic(auto, using(crate::proofs::Samples::refused_bytes))]
pub fn other_bytes_are_refused()
    ensures refused { AreLoadedAs refused_rows }
    ensures class { AreLoadedAs class_rows }
    ensures old { AreLoadedAs old_rows }
    ensures marks { AreLoadedAs marks_rows }
{}
