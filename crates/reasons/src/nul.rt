// A text as C has it, with a NUL after it.
ghost use Rattle.std.specs.Prelude.{◌≡◌, ℕ, List};
ghost use Rattle.reasons.specs.Reasons.{in_c};

/// Returns the text before the NUL.
pub fn before_nul(text: &'static str) -> &'static str
    ensures { (s : List ℕ) → text.now ≡ in_c s → result.now ≡ s }
{
    match text.strip_suffix('\0') {
        Some(before) => before,
        None => text,
    }
}
