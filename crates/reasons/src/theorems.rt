// What is proved beside the contracts of the functions. The functions here do nothing: their contracts are the
// theorems.
ghost use Rattle.std.specs.Prelude.{◌≡◌, ℕ, true};
ghost use Rattle.reasons.specs.Reasons.{number_text, setting_text, is_printed};
ghost use Rattle.reasons.specs.About.{about_text};

/// Each text is of printable ASCII characters, so that C finds its end at the NUL after it and not before.
pub fn texts_are_printed()
    ensures numbers { (n : ℕ) → is_printed (number_text n) ≡ true }
    ensures settings { (n : ℕ) → is_printed (setting_text n) ≡ true }
    ensures about { is_printed about_text ≡ true }
{}
