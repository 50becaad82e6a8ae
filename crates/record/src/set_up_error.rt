// Why a set-up is refused (RULES, The numbers a call gives and Passwords).
ghost use Rattle.std.proofs.Common.{arith};
ghost use Rattle.std.specs.Prelude.{◌≡◌};
ghost use Rattle.record.specs.SetUpErrors.{set_up_error_number, setting_of};

use crate::types::Setting;
use reasons::numbers;
use std::error::Error;
use std::fmt;
use text::numbered::Numbered;

/// Why a set-up is refused: the first that holds.
#[derive(Clone, Copy, Debug, PartialEq, Eq)]
pub enum SetUpError {
    /// 3: this setting is out of its range, and each before it is in its own.
    OutOfRange(Setting),
    /// 8: each setting is in its range, and the password has 1 to 7 characters.
    ShortPassword,
}

impl Numbered for SetUpError {
    ghost number = { set_up_error_number };

    ghost refuses = { λ why. Prim.grind arith };

    fn number(self) -> u32 {
        match self {
            SetUpError::OutOfRange(_) => 3,
            SetUpError::ShortPassword => 8,
        }
    }
}

/// What its number says.
impl fmt::Display for SetUpError {
    fn fmt<W: fmt::Write>(&self, f: &mut fmt::Formatter<W>) -> fmt::Result {
        f.write_str(numbers::number_text(self.number()))
    }
}

impl Error for SetUpError {}

impl SetUpError {
    /// The setting that is to be changed.
    pub fn setting(self) -> Setting
        ensures { result ≡ setting_of self }
    {
        match self {
            SetUpError::OutOfRange(setting) => setting,
            SetUpError::ShortPassword => Setting::Password,
        }
    }
}
