// The version and the kit of the archive, and its numbers and settings in words (RULES, The C face). A text stays in
// the archive, with a NUL after it: an exported call returns no pointer, so each call fills one.
ghost use Rattle.std.specs.Prelude.{◌≡◌};
ghost use Rattle.reasons.specs.Reasons.{number_text, setting_text, in_c};
ghost use Rattle.reasons.specs.About.{face_number, about_text};

use reasons::{about, numbers, settings};

/// Returns the version of the face.
#[unsafe(no_mangle)]
pub extern "C" fn pj_face() -> u32
    ensures { result ≡ face_number }
{
    about::face_number()
}

/// Returns the version of the face. The name of this call has the version in it, and the header makes each host need
/// the name: so a host compiled with the header of another version does not link.
#[unsafe(no_mangle)]
pub extern "C" fn pj_face_13() -> u32
    ensures { result ≡ face_number }
{
    about::face_number()
}

/// Points `words` to the archive's description of itself: the version of the face, and the kit that proved it.
#[unsafe(no_mangle)]
pub extern "C" fn pj_face_words(words: &mut &'static [u8])
    ensures { words.new.now ≡ in_c about_text }
{
    *words = about::about_text_in_c().as_bytes();
}

/// Points `words` to the meaning of a number that a call gives.
#[unsafe(no_mangle)]
pub extern "C" fn pj_number_words(number: u32, words: &mut &'static [u8])
    ensures { words.new.now ≡ in_c (number_text number) }
{
    *words = numbers::number_text_in_c(number).as_bytes();
}

/// Points `words` to the name of a setting of a set-up, by its number (`pj_which_setting`).
#[unsafe(no_mangle)]
pub extern "C" fn pj_setting_words(setting: u32, words: &mut &'static [u8])
    ensures { words.new.now ≡ in_c (setting_text setting) }
{
    *words = settings::setting_text_in_c(setting).as_bytes();
}
