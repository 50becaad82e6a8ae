// What is proved beside the contracts of the functions. The function here does nothing: its contract is the theorem.
ghost use Rattle.std.specs.Prelude.{◌≡◌, Result};
ghost use Rattle.record.specs.Wanted.{Wanted};
ghost use Rattle.record.specs.SetUp.{set_up};
ghost use Rattle.record.specs.declared.set_up_error.SetUpError.{SetUpError};

/// Any two results that meet the contract of the check are equal. For set-up, `record` says it.
pub fn one_result()
    ensures { (w : Wanted) (r s : Result (Unit {0}) SetUpError)
        → r ≡ (set_up w).says → s ≡ (set_up w).says → r ≡ s }
{}
