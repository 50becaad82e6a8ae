// What is proved of recorded calls. Nothing is done here: that these functions have their contracts is that the
// theorems stand.
ghost use Rattle.std.specs.Prelude.{◌≡◌, ◌≤◌, ◌<◌, ◌+◌, ◌^◌, ℕ, true, List, [], ◌∷◌, Option, Some, map, length, take};
ghost use Rattle.std.specs.Result.{is_ok};
ghost use Rattle.record.specs.declared.types.Device.{Device};
ghost use Rattle.ours.specs.Board.{ours};
ghost use Rattle.demands.specs.Calls.{Call, run, gave_by};
ghost use Rattle.demands.specs.History.{Streams, history};
ghost use Rattle.history.specs.Calls.{received_most};
ghost use Rattle.history.specs.Lines.{number_most};
ghost use Rattle.textio.specs.Lines.{lines_ended};
ghost use Rattle.history.specs.Entries.{LogEntry, call, entry_in, entry_text, is_time_if_any};
ghost use Rattle.history.specs.Logs.{Sayable, begun_at, IsHistory};
ghost use Rattle.history.specs.Recording.{log_line_room, recorded_by};
ghost use Rattle.history.specs.declared.recorder.Recorder.{Recorder};
ghost use Rattle.history.specs.Recording.{Asked, AreTyped, recorder_begun, entries_recorded, bytes_recorded};
ghost use Rattle.recorded.specs.Recorded.{is_served, recorded_call, recorded, replies_of, AreTypedCalls, TakeFew};
ghost use Rattle.recorded.specs.Playing.{played_call, played, replies_played, entry_calls, PlaysAs};
ghost use Rattle.recorded.specs.Chain.{Followed, followed, AllHold};
ghost use Rattle.recorded.specs.Hosts.{HostStep, begins, host_log, step_calls, host_left, AreKept, HaveRoom};
ghost use Rattle.recorded.specs.Hosts.{AreTypedSteps};

/// What is recorded of any calls from any record on, replayed from that record, gives the record that the calls gave,
/// the replies that they got, and demand 3's history of the calls.
pub fn recorded_calls_play_back()
    ensures device { (d : Device) (cs : List Call) → played d (recorded d cs) ≡ Some (run ours d cs) }
    ensures replied { (d : Device) (cs : List Call) → replies_played d (recorded d cs) ≡ replies_of d cs }
    ensures history { (d : Device) (w : Streams) (cs : List Call)
        → history ours d w (map played_call (recorded d cs)) ≡ history ours d w cs }
{}

/// A receive that gets only the bytes that it takes gives the very same, so that these are all that is recorded of it.
pub fn what_is_taken_is_enough()
    ensures { (d : Device) (p : ℕ) (bs m : List ℕ) → (ours.receive d p bs m).number ≡ 0
        → ours.receive d p (take (ours.receive d p bs m).taken bs) m ≡ ours.receive d p bs m }
{}

/// A line can say each served call that takes 2,046 bytes at most. So the recorder records each, given room for a line,
/// while lines can be counted, from the header of a file on.
pub fn served_calls_can_be_said()
    ensures said { (d : Device) (cs : List Call) → AreTypedCalls cs → TakeFew d cs
        → Sayable (map call (recorded d cs)) }
    ensures one_recorded { (d : Device) (c : Call) → is_served d c ≡ true → (gave_by ours d c).taken ≤ received_most
        → (r : Recorder) → 1 ≤ r.file → r.lines < number_most
        → (n : ℕ) → log_line_room ≤ n → is_ok (recorded_by r (call (recorded_call d c)) n).says ≡ true }
    ensures all_recorded { (d : Device) (ss : List (HostStep × ℕ)) → HaveRoom ss → TakeFew d (step_calls ss)
        → (r : Recorder) → 1 ≤ r.file → r.lines + length ss < number_most → AreKept r d ss }
    ensures all_from_a_header { (d : Device) (ss : List (HostStep × ℕ)) (t : Option (List ℕ)) (n : ℕ)
        → is_time_if_any t ≡ true → HaveRoom ((begins t, n) ∷ ss) → TakeFew d (step_calls ss)
        → (r : Recorder) → r.file < number_most → length ss < number_most → AreKept r d ((begins t, n) ∷ ss) }
{}

/// What the recorder writes of these calls, with any headers and stated lines between them, replays as they were: its
/// bytes say them, and give the same record, replies and history. The rest of it, cut at any byte, replays as a prefix
/// of the calls.
pub fn what_is_written_plays_back(form: &[u8])
    ensures whole { (asked : List (Asked × ℕ)) → AreTyped asked → (d : Device) (cs : List Call)
        → entry_calls (entries_recorded (recorder_begun form.now) asked) ≡ recorded d cs
        → PlaysAs d cs (bytes_recorded (recorder_begun form.now) asked) }
    ensures cut { (asked : List (Asked × ℕ)) → AreTyped asked → (d : Device) (cs : List Call)
        → entry_calls (entries_recorded (recorder_begun form.now) asked) ≡ recorded d cs
        → (n : ℕ)
        → (k : ℕ) × (k ≤ length cs)
        × PlaysAs d (take k cs) (take n (bytes_recorded (recorder_begun form.now) asked)) }
{}

/// A reader accepts what a host records to its end. The host makes any calls, on any record, and records each served
/// one; it begins files and states what the record shows at any time; and the recorder has refused none of the calls.
/// Then each line that it wrote belongs, and a reader who began where the host began has its three numbers, its record
/// and its replies; and the log replays as the calls were. Cut at any byte, so does a prefix of the steps.
pub fn what_a_host_records_is_believed()
    ensures whole { (r : Recorder) (d : Device) (ss : List (HostStep × ℕ)) → r.lines < 2 ^ 32 → r.sum < 2 ^ 32
        → AreTypedSteps ss → AreKept r d ss
        → (followed r d (lines_ended [] (host_log r d ss)) ≡ Some (host_left r d ss))
        × PlaysAs d (step_calls ss) (host_log r d ss) }
    ensures cut { (r : Recorder) (d : Device) (ss : List (HostStep × ℕ)) → r.lines < 2 ^ 32 → r.sum < 2 ^ 32
        → AreTypedSteps ss → AreKept r d ss
        → (n : ℕ)
        → (k : ℕ) × (k ≤ length ss)
        × (followed r d (lines_ended [] (take n (host_log r d ss))) ≡ Some (host_left r d (take k ss)))
        × PlaysAs d (step_calls (take k ss)) (take n (host_log r d ss)) }
{}

/// What a reader accepts of a chain, from a form on, is a history of that form that holds for the record: each line
/// says an entry, which fits where those before it leave the log, calls belong, and what is stated is shown. And each
/// such history is accepted.
pub fn what_is_accepted_is_a_history()
    ensures accepted { (form : List ℕ) (d : Device) (ls : List (List ℕ)) (f : Followed)
        → followed (recorder_begun form) d ls ≡ Some f
        → (es : List LogEntry) × (map entry_in ls ≡ map Some es) × IsHistory (begun_at form) es
        × AllHold (begun_at form) d es }
    ensures each { (form : List ℕ) (d : Device) (es : List LogEntry) → Sayable es → IsHistory (begun_at form) es
        → AllHold (begun_at form) d es
        → (f : Followed) × (followed (recorder_begun form) d (map entry_text es) ≡ Some f) }
{}
