// What is proved beside the contracts of the functions. Nothing is done here: that these functions have their contracts
// is that the theorems stand.
ghost use Rattle.std.specs.Prelude.{◌≡◌, ◌∷◌, [], true, Bool, ℕ, Result};
ghost use Rattle.record.specs.HostCalls.{fault_set};
ghost use Rattle.record.specs.Legal.{is_timed};
ghost use Rattle.record.specs.Limits.{on, warming};
ghost use Rattle.record.specs.Record.{closed};
ghost use Rattle.record.specs.Updates.{with_age};
ghost use Rattle.record.specs.Views.{power_seen, IsPowerOf};
ghost use Rattle.record.specs.declared.types.Connection.{Connection};
ghost use Rattle.record.specs.declared.types.Device.{Device};
ghost use Rattle.record.specs.declared.types.Own.{Own};
ghost use Rattle.record.specs.declared.types.Settings.{Settings};
ghost use Rattle.record.specs.declared.views.Power.TheVariants.{WarmUp, On};
ghost use Rattle.record.specs.declared.refusal.Refusal.{Refusal};
ghost use Rattle.clock.specs.Passing.{seconds_most, time_passed};
ghost use Rattle.clock.specs.Second.{times, one_more, own_second, connection_second};
ghost use Rattle.clock.specs.Worked.{passed_figures};

/// Two results that meet the promise of the call are equal, the record that stands in its place included.
pub fn one_result()
    ensures { (d : Device) (seconds : ℕ) (r s : Result (Unit {0}) Refusal) (x y : Device)
        → (r ≡ (time_passed d seconds).says) × (x ≡ (time_passed d seconds).leaves)
        → (s ≡ (time_passed d seconds).says) × (y ≡ (time_passed d seconds).leaves)
        → (r ≡ s) × (x ≡ y) }
{}

/// The fault mark changes nothing that time does: to set it and let n seconds pass is to let them pass and set it.
#[tactic(auto, using(crate::proofs::FaultMark::fault_and_time))]
pub fn the_fault_flag_leaves_time()
    ensures { (d : Device) (n : ℕ) (m : Bool)
        → time_passed (fault_set d m).leaves n ≡ fault_set (time_passed d n).leaves m }
{}

/// Seconds worked out (RULES, Time): a warm-up with 20 seconds left is not over after 19 and is on after 20; a lamp
/// stops at 359,999,999 seconds; an awaiting or failed connection closes at 30 seconds. The last three are the call
/// itself: its number, the power, the seconds left and the lamp's seconds.
#[tactic(auto, using(crate::proofs::Samples::worked_seconds))]
pub fn seconds_are_worked_out()
    ensures warms_after_19 { (s : Settings) (o : Own) → IsPowerOf s.warm s.cool o.power o.left
        → power_seen o ≡ WarmUp 20 → power_seen (times (own_second s) 19 o) ≡ WarmUp 1 }
    ensures on_after_20 { (s : Settings) (o : Own) → IsPowerOf s.warm s.cool o.power o.left
        → power_seen o ≡ WarmUp 20 → power_seen (times (own_second s) 20 o) ≡ On }
    ensures lamp_reaches { times one_more 1 359999998 ≡ 359999999 }
    ensures lamp_stops { times one_more seconds_most 0 ≡ 359999999 }
    ensures older_at_28 { (c : Connection) → is_timed c.phase ≡ true → c.age ≡ 28
        → times connection_second 1 c ≡ with_age c 29 }
    ensures closes_at_29 { (c : Connection) → is_timed c.phase ≡ true → c.age ≡ 29
        → times connection_second 1 c ≡ closed }
    ensures passed_19 { passed_figures 19 ≡ 0 ∷ warming ∷ 1 ∷ 19 ∷ [] }
    ensures passed_20 { passed_figures 20 ≡ 0 ∷ on ∷ 0 ∷ 20 ∷ [] }
    ensures passed_3600 { passed_figures 3600 ≡ 0 ∷ on ∷ 0 ∷ 3600 ∷ [] }
{}
