// Why a call is refused, and the number that a host gets for it (RULES, The numbers a call gives).
ghost use Rattle.std.specs.Prelude.{◌≡◌, ◌≢◌, ℕ, IfErr};
ghost use Rattle.text.specs.Outcomes.{outcome_number};

/// A reason for which a call is refused.
pub trait Numbered: Copy {
    ghost number: { Self → ℕ };

    /// Its number.
    fn number(self) -> u32
        ensures { result ≡ number self };

    /// It is never 0, the number of a served call.
    ghost refuses: { (why : Self) → number why ≢ 0 };
}

/// Returns the number of a call that returns nothing else: 0 exactly if it is served.
pub fn number_of<E: Numbered>(outcome: Result<(), E>) -> u32
    ensures number { result ≡ outcome_number E.number outcome }
    ensures refused { IfErr outcome (λ why. result ≢ 0) }
{
    match outcome {
        Ok(()) => 0,
        Err(why) => why.number(),
    }
}
