// What is proved beside the contracts of the functions. The functions here do nothing: their contracts are the
// theorems.
ghost use Rattle.std.specs.Prelude.{◌≡◌, ◌≢◌, ◌<◌, List, ℕ, true, false};
ghost use Rattle.text.specs.Outcomes.{refused_as, number_answered};
ghost use Rattle.record.specs.Legal.{is_legal};
ghost use Rattle.record.specs.Limits.{places_count};
ghost use Rattle.record.specs.Places.{connection_at, is_closed};
ghost use Rattle.record.specs.Record.{closed};
ghost use Rattle.record.specs.declared.types.Device.{Device};
ghost use Rattle.device.specs.Calls.{reply_room, opened_by};
ghost use Rattle.floorlog.specs.Events.{events};
ghost use Rattle.floorlog.specs.Doing.{log_place, opened_in_log};
ghost use Rattle.floorlog.specs.Playing.{sample_device, state_after};
ghost use Rattle.floorlog.specs.Settled.{ArePrinted, log_rows};

/// A log's events happen at place 0 only (RULES, Floor log): if it is closed, an `O` takes it; if not, the `O` is
/// refused with 5; and after any log on the sample set-up every other place is closed.
pub fn a_log_drives_one_place()
    ensures taken { (d : Device) → is_legal d ≡ true → is_closed (connection_at d log_place) ≡ true
        → (random : ℕ) → number_answered (opened_by d random reply_room) ≡ log_place }
    ensures again { (d : Device) (random : ℕ) → is_legal d ≡ true → is_closed (connection_at d log_place) ≡ false
        → opened_in_log d random ≡ refused_as d 5 }
    ensures elsewhere { (p : ℕ) → p ≢ log_place → (log : List ℕ) → p < places_count
        → connection_at (state_after sample_device (events log)) p ≡ closed }
{}

/// The output of worked logs (RULES, Floor log): the log of that page, one of no line, refusals and no reply, lines of
/// no form.
#[tactic(auto, using(crate::proofs::Settled::logs_printed))]
pub fn logs_print_so()
    ensures { ArePrinted log_rows }
{}
