// The names of the settings of a set-up.
ghost use Rattle.std.specs.Prelude.{◌≡◌};
ghost use Rattle.reasons.specs.Reasons.{setting_text, in_c};

use crate::nul;

/// Returns the name of the setting with a number, with a NUL after it: a few words of ASCII with no full stop and no
/// LF.
pub fn setting_text_in_c(setting: u32) -> &'static str
    ensures { result.now ≡ in_c (setting_text setting) }
{
    match setting {
        0 => "no setting\0",
        1 => "the name\0",
        2 => "the maker\0",
        3 => "the model\0",
        4 => "the other information\0",
        5 => "the password\0",
        6 => "the inputs\0",
        7 => "the lamps' seconds\0",
        8 => "the warm-up\0",
        9 => "the cooling\0",
        10 => "the serial number\0",
        11 => "the software version\0",
        12 => "the inputs' names\0",
        _ => "a setting that there is not\0",
    }
}

/// Returns the name of the setting with a number.
pub fn setting_text(setting: u32) -> &'static str
    ensures { result.now ≡ setting_text setting }
{
    nul::before_nul(setting_text_in_c(setting))
}
