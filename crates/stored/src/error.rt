// Why a stored form does not load (RULES, Stored form).
ghost use Rattle.std.proofs.Common.{arith};
ghost use Rattle.stored.specs.Told.{load_error_number};

use reasons::numbers;
use std::error::Error;
use std::fmt;
use text::numbered::Numbered;

/// Why a stored form does not load: the first that holds. Nothing of it is then kept.
#[derive(Clone, Copy, Debug, PartialEq, Eq)]
pub enum LoadError {
    /// 20: the first byte is no version that is known.
    OtherVersion,
    /// 21: the bytes end before the form does.
    CutShort,
    /// 22: bytes are left over after the form.
    LeftOver,
    /// 23: what the form says cannot be set up, or its marks are not legal.
    NotLegal,
}

impl Numbered for LoadError {
    ghost number = { load_error_number };

    ghost refuses = { λ why. Prim.grind arith };

    fn number(self) -> u32 {
        match self {
            LoadError::OtherVersion => 20,
            LoadError::CutShort => 21,
            LoadError::LeftOver => 22,
            LoadError::NotLegal => 23,
        }
    }
}

/// What its number says.
impl fmt::Display for LoadError {
    fn fmt<W: fmt::Write>(&self, f: &mut fmt::Formatter<W>) -> fmt::Result {
        f.write_str(numbers::number_text(self.number()))
    }
}

impl Error for LoadError {}
