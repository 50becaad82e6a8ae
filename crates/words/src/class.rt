// The class of a projector (RULES, Commands and Class 2; PJLink 1.04, 4.14).
ghost use Rattle.std.specs.Prelude.{◌≡◌, true};
ghost use Rattle.words.specs.Codec.{Plain};
ghost use Rattle.words.specs.Classes.{class_as_number, class_code, class_named, class_text, class_read};
ghost use Rattle.words.specs.Laws.{class_codec};

use crate::codec::{self, LineBytes, Wire};

/// The class of a projector, of a body, and of a line.
#[derive(Clone, Copy, Debug, PartialEq, Eq)]
pub enum ClassNumber {
    /// Class 1.
    One,
    /// Class 2.
    Two,
}

impl ClassNumber {
    /// Returns 1 or 2.
    pub fn number(self) -> u8
        ensures { result ≡ class_as_number self }
    {
        match self {
            ClassNumber::One => 1,
            ClassNumber::Two => 2,
        }
    }

    /// Returns its character in a line.
    pub fn code(self) -> u8
        ensures { result ≡ class_code self }
    {
        b'0' + self.number()
    }
}

fn class_named(b: u8) -> Option<ClassNumber>
    ensures { result ≡ class_named b }
{
    match b {
        b'1' => Some(ClassNumber::One),
        b'2' => Some(ClassNumber::Two),
        _ => None,
    }
}

impl Wire for ClassNumber {
    ghost legal = { λ _. true };

    ghost text = { class_text };

    ghost writes = { Plain (λ _. true) class_text };

    ghost read = { class_read };

    fn put(self, out: &mut LineBytes) {
        out.push(self.code());
    }

    fn take(bytes: &[u8]) -> Option<(ClassNumber, &[u8])> {
        codec::letter(bytes, class_named)
    }

    ghost codec = { class_codec };
}
