// The meaning of a number that a call gives.
ghost use Rattle.std.specs.Prelude.{◌≡◌};
ghost use Rattle.reasons.specs.Reasons.{number_text, in_c};

use crate::nul;

/// Returns the meaning of a number, with a NUL after it: a few words of ASCII with no full stop and no LF.
pub fn number_text_in_c(number: u32) -> &'static str
    ensures { result.now ≡ in_c (number_text number) }
{
    match number {
        0 => "served\0",
        1 => "not a legal record\0",
        2 => "the lent memory is too small\0",
        3 => "an argument is out of its range\0",
        4 => "the connection at that place is closed\0",
        5 => "place 0 is not closed\0",
        6 => "no place is closed\0",
        7 => "the power is not off\0",
        8 => "a password of 1 to 7 characters\0",
        9 => "no greeting yet, or a command under way\0",
        10 => "no greeting, or no reply of the command's class\0",
        11 => "a reply to another command\0",
        12 => "a reply with a parameter that is not allowed there\0",
        20 => "not a stored form of a version that this program knows\0",
        21 => "a stored form that is cut short\0",
        22 => "bytes are left over after the stored form\0",
        23 => "a stored form with contents that no set-up has\0",
        _ => "a number that no call gives\0",
    }
}

/// Returns the meaning of a number.
pub fn number_text(number: u32) -> &'static str
    ensures { result.now ≡ number_text number }
{
    nul::before_nul(number_text_in_c(number))
}
