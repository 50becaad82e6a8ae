// The version and the kit of archive and programs.
ghost use Rattle.std.specs.Prelude.{◌≡◌};
ghost use Rattle.reasons.specs.Reasons.{in_c};
ghost use Rattle.reasons.specs.About.{face_number, about_text, version_line};

/// Returns the version of the C face (`CEILING_FACE` of include/ceiling.h).
pub fn face_number() -> u32
    ensures { result ≡ face_number }
{
    13
}

/// Returns the archive's description of itself, with a NUL after it: its name, the version of the face, and the kit
/// that proved it.
pub fn about_text_in_c() -> &'static str
    ensures { result.now ≡ in_c about_text }
{
    "ceiling 13 of 2026-11-27 and later (rattle-kit-13f logic dac8208d650f15bf)\0"
}

/// Returns the version of the face and the kit with LF, which the programs write after their names.
pub fn version_line() -> &'static str
    ensures { result.now ≡ version_line }
{
    "13 of 2026-11-27 and later (rattle-kit-13f logic dac8208d650f15bf)\n"
}
