// What is proved beside the contracts of the functions. Nothing is done here: that these functions have their contracts
// is that the theorems stand.
ghost use Rattle.std.specs.Prelude.{◌≡◌, ◌≤◌, List, [], Some, true, ℕ, map, take, length};
ghost use Rattle.history.specs.Entries.{LogEntry, IsTypedEntry, is_sayable_entry, entry_text, entry_in};
ghost use Rattle.textio.specs.Lines.{cut_end};
ghost use Rattle.history.specs.Logs.{Sayable, log_text, entries_in, begun_at, IsHistory};
ghost use Rattle.history.specs.Recording.{Asked, AreTyped, recorder_begun, entries_recorded, bytes_recorded};

/// A line says what it was written for; no two entries have one line, and no other line says an entry that can be said.
pub fn lines_say_what_they_were_written_for()
    ensures back { (e : LogEntry) → IsTypedEntry e → is_sayable_entry e ≡ true → entry_in (entry_text e) ≡ Some e }
    ensures one_line { (e f : LogEntry) → IsTypedEntry e → is_sayable_entry e ≡ true → IsTypedEntry f
        → is_sayable_entry f ≡ true
        → entry_text e ≡ entry_text f → e ≡ f }
    ensures only { (l : List ℕ) (e : LogEntry) → entry_in l ≡ Some e
        → (l ≡ entry_text e) × (is_sayable_entry e ≡ true) }
{}

/// A log says the entries that it was written for, and the rest of one that was cut, at any byte, says a prefix of
/// them.
pub fn a_log_says_its_entries()
    ensures said { (es : List LogEntry) → Sayable es → entries_in (log_text es) ≡ map Some es }
    ensures whole { (es : List LogEntry) → Sayable es → cut_end [] (log_text es) ≡ [] }
    ensures cut { (es : List LogEntry) → Sayable es → (n : ℕ)
        → (k : ℕ) × (k ≤ length es) × (entries_in (take n (log_text es)) ≡ map Some (take k es)) }
{}

/// What the recorder writes, for any requests and any buffers, is a history of the form: files in a chain, each with
/// the sum of all before it. And it says what was recorded.
pub fn what_is_recorded_is_a_history(form: &[u8])
    ensures history { (asked : List (Asked × ℕ)) → AreTyped asked
        → IsHistory (begun_at form.now) (entries_recorded (recorder_begun form.now) asked) }
    ensures said { (asked : List (Asked × ℕ)) → AreTyped asked
        → entries_in (bytes_recorded (recorder_begun form.now) asked)
        ≡ map Some (entries_recorded (recorder_begun form.now) asked) }
{}
