// The six digits of the error status (RULES, Commands; PJLink 1.04, 4.7).
ghost use Rattle.std.specs.Prelude.{◌≡◌};
ghost use Rattle.words.specs.Codec.{Plain};
ghost use Rattle.words.specs.ErrorDigits.{error_named, is_errors, errors_text, status_read};
ghost use Rattle.words.specs.Laws.{status_codec};

use crate::codec::{self, LineBytes, Wire};
use crate::input;

/// The error status of a projector, as ERST gives it.
#[derive(Clone, Copy, Debug, PartialEq, Eq)]
pub struct ErrorStatus {
    /// The digits of fan, lamp, temperature, cover, filter and other: 0 no error or not known, 1 a warning, 2 an error.
    pub digits: [u8; 6],
}

fn error_named(b: u8) -> Option<u8>
    ensures { result ≡ error_named b }
{
    match b {
        b'0'..=b'2' => Some(b - b'0'),
        _ => None,
    }
}

impl Wire for ErrorStatus {
    ghost legal = { λ e. is_errors e.digits };

    ghost text = { λ e. errors_text e.digits };

    ghost writes = { Plain (λ e. is_errors e.digits) (λ e. errors_text e.digits) };

    ghost read = { status_read };

    fn put(self, out: &mut LineBytes) {
        for digit in self.digits {
            out.push(input::number_digit(digit));
        }
    }

    fn take(bytes: &[u8]) -> Option<(ErrorStatus, &[u8])> {
        let (fan, bytes) = codec::letter(bytes, error_named)?;
        let (lamp, bytes) = codec::letter(bytes, error_named)?;
        let (temperature, bytes) = codec::letter(bytes, error_named)?;
        let (cover, bytes) = codec::letter(bytes, error_named)?;
        let (filter, bytes) = codec::letter(bytes, error_named)?;
        let (other, bytes) = codec::letter(bytes, error_named)?;
        let digits = [fan, lamp, temperature, cover, filter, other];
        Some((ErrorStatus { digits }, bytes))
    }

    ghost codec = { status_codec };
}
