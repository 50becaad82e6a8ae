// What is proved beside the contracts of the functions. Nothing is done here: that these functions have their contracts
// is that the theorems stand.
ghost use Rattle.std.specs.Prelude.{◌≡◌, ◌+◌, ◌<◌, ◌≤◌, ◌++◌, true, false, ℕ, List, [], length, codes, Result};
ghost use Rattle.std.specs.List.{list_all};
ghost use Rattle.words.specs.Bytes.{is_not_cr};
ghost use Rattle.pjlink.specs.Forms.{greeting_open, greeting_secured};
ghost use Rattle.digest.specs.Hex.{hex_digits};
ghost use Rattle.record.specs.Limits.{places_count, phase_awaiting, phase_open, phase_failed};
ghost use Rattle.record.specs.Legal.{is_legal};
ghost use Rattle.record.specs.Places.{connection_at};
ghost use Rattle.record.specs.declared.types.Settings.{Settings};
ghost use Rattle.record.specs.declared.types.Own.{Own};
ghost use Rattle.record.specs.declared.types.Connection.{Connection};
ghost use Rattle.record.specs.declared.types.Device.{Device};
ghost use Rattle.stream.specs.Collecting.{empty_line};
ghost use Rattle.device.specs.Receiving.{begun_in, phase_start, no_reply, taken_in};
ghost use Rattle.device.specs.Calls.{has_password, greeting, new_connection, reply_room};
ghost use Rattle.device.specs.Calls.{opened_by, closed_by, received_at};
ghost use Rattle.device.specs.Outcomes.{received_said, opened_said};
ghost use Rattle.device.specs.declared.calls.Received.{Received};
ghost use Rattle.device.specs.declared.calls.Opened.{Opened};
ghost use Rattle.record.specs.declared.refusal.Refusal.{Refusal};
ghost use Rattle.text.specs.Words.{over};

/// Two results that meet the promise of a call are equal: what is returned, the record and the reply memory.
pub fn one_result()
    ensures opening { (d : Device) (random : ℕ) (out : List ℕ) (r s : Result Opened Refusal) (x y : Device)
        (m n : List ℕ)
        → let o = opened_by d random (length out) in
        (r ≡ opened_said o) × (x ≡ o.leaves) × (m ≡ over o.bytes out)
        → (s ≡ opened_said o) × (y ≡ o.leaves) × (n ≡ over o.bytes out) → (r ≡ s) × (x ≡ y) × (m ≡ n) }
    ensures closing { (d : Device) (p : ℕ) (r s : Result (Unit {0}) Refusal) (x y : Device)
        → (r ≡ (closed_by d p).says) × (x ≡ (closed_by d p).leaves)
        → (s ≡ (closed_by d p).says) × (y ≡ (closed_by d p).leaves) → (r ≡ s) × (x ≡ y) }
    ensures receiving { (d : Device) (p : ℕ) (bs out : List ℕ) (r s : Result Received Refusal) (x y : Device)
        (m n : List ℕ)
        → let t = received_at d p bs (length out) in
        (r ≡ received_said t) × (x ≡ t.leaves) × (m ≡ over t.bytes out)
        → (s ≡ received_said t) × (y ≡ t.leaves) × (n ≡ over t.bytes out) → (r ≡ s) × (x ≡ y) × (m ≡ n) }
{}

/// The greeting and the connection that it opens, with a password and without (RULES, Passwords).
#[tactic(auto, using(crate::proofs::Cases::greetings))]
pub fn a_password_is_asked_for()
    ensures secured { (s : Settings) (random : ℕ) → has_password s ≡ true
        → (greeting s random ≡ greeting_secured (hex_digits 8 random))
        × (new_connection s random ≡ begun_in phase_awaiting random) }
    ensures unsecured { (s : Settings) (random : ℕ) → has_password s ≡ false
        → (greeting s random ≡ greeting_open) × (new_connection s random ≡ begun_in phase_open random) }
{}

/// A call takes the bytes up to and including the first CR, or all of them if there is none, in every phase; of no
/// bytes it takes none and changes nothing (RULES, Connection).
#[tactic(auto, using(crate::proofs::Counts::counts))]
pub fn a_call_takes_one_line()
    ensures part { (s : Settings) (o : Own) (c : Connection) (bytes : List ℕ) → list_all is_not_cr bytes ≡ true
        → (taken_in s o c bytes).taken ≡ length bytes }
    ensures line { (s : Settings) (o : Own) (c : Connection) (bytes more : List ℕ) → list_all is_not_cr bytes ≡ true
        → (taken_in s o c (bytes ++ (codes "\r" ++ more))).taken ≡ length bytes + 1 }
    ensures none { (s : Settings) (o : Own) (c : Connection)
        → taken_in s o c [] ≡ record { ended = no_reply o c; taken = 0 } }
{}

/// What receiving never touches, an open connection between lines, and a failed one, which ignores what it takes
/// (RULES, Connection).
pub fn what_receiving_keeps()
    ensures own { (d : Device) (p : ℕ) (bytes : List ℕ) (room : ℕ)
        → let o = (received_at d p bytes room).leaves.own in
        (o.lamps ≡ d.own.lamps) × (o.enabled ≡ d.own.enabled) × (o.fault ≡ d.own.fault) × (o.errors ≡ d.own.errors) }
    ensures open_between_lines { (d : Device) (p : ℕ) → p < places_count → is_legal d ≡ true
        → let c = connection_at d p in
        c.phase ≡ phase_open → c.line ≡ empty_line → phase_start c phase_open ≡ c }
    ensures failed_record { (d : Device) (p : ℕ) (bytes : List ℕ) (room : ℕ)
        → (connection_at d p).phase ≡ phase_failed → (received_at d p bytes room).leaves ≡ d }
    ensures failed_reply { (d : Device) (p : ℕ) (bytes : List ℕ) (room : ℕ)
        → (connection_at d p).phase ≡ phase_failed → (received_at d p bytes room).bytes ≡ [] }
{}

/// More lent memory than a call asks for changes nothing of what it does.
#[tactic(auto, using(crate::proofs::EnoughRoom::enough_room))]
pub fn more_memory_changes_nothing()
    ensures opening { (d : Device) (random room : ℕ) → reply_room ≤ room
        → opened_by d random reply_room ≡ opened_by d random room }
    ensures receiving { (d : Device) (p : ℕ) (bytes : List ℕ) (room : ℕ) → reply_room ≤ room
        → received_at d p bytes reply_room ≡ received_at d p bytes room }
{}
