// The four error replies: ERR and a digit (PJLink 1.04, 2.4; RULES, Commands).
ghost use Rattle.std.specs.Prelude.{◌≡◌, true};
ghost use Rattle.words.specs.Codec.{Plain};
ghost use Rattle.words.specs.Refusing.{error_reply_digit, refusal_named, error_reply_text, error_reply_read};
ghost use Rattle.words.specs.Laws.{refusal_codec};

use crate::codec::{self, LineBytes, Wire};
use crate::input;
use std::error::Error;
use std::fmt;

/// Why a projector refuses a command.
#[derive(Clone, Copy, Debug, PartialEq, Eq)]
pub enum ErrorReply {
    /// ERR1: an undefined command.
    Undefined,
    /// ERR2: out of parameter.
    OutOfParameter,
    /// ERR3: unavailable time.
    Unavailable,
    /// ERR4: a failure of the projector.
    Failure,
}

impl ErrorReply {
    /// Returns the digit after ERR, 1 to 4.
    pub fn number(self) -> u8
        ensures { result ≡ error_reply_digit self }
    {
        match self {
            ErrorReply::Undefined => 1,
            ErrorReply::OutOfParameter => 2,
            ErrorReply::Unavailable => 3,
            ErrorReply::Failure => 4,
        }
    }
}

/// PJLink's words for it.
impl fmt::Display for ErrorReply {
    fn fmt<W: fmt::Write>(&self, f: &mut fmt::Formatter<W>) -> fmt::Result {
        f.write_str(match self {
            ErrorReply::Undefined => "ERR1: undefined command",
            ErrorReply::OutOfParameter => "ERR2: out of parameter",
            ErrorReply::Unavailable => "ERR3: unavailable time",
            ErrorReply::Failure => "ERR4: projector failure",
        })
    }
}

impl Error for ErrorReply {}

fn refusal_named(b: u8) -> Option<ErrorReply>
    ensures { result ≡ refusal_named b }
{
    match b {
        b'1' => Some(ErrorReply::Undefined),
        b'2' => Some(ErrorReply::OutOfParameter),
        b'3' => Some(ErrorReply::Unavailable),
        b'4' => Some(ErrorReply::Failure),
        _ => None,
    }
}

impl Wire for ErrorReply {
    ghost legal = { λ _. true };

    ghost text = { error_reply_text };

    ghost writes = { Plain (λ _. true) error_reply_text };

    ghost read = { error_reply_read };

    fn put(self, out: &mut LineBytes) {
        out.push(b'E');
        out.push(b'R');
        out.push(b'R');
        out.push(input::number_digit(self.number()));
    }

    fn take(bytes: &[u8]) -> Option<(ErrorReply, &[u8])> {
        let [b'E', b'R', b'R', rest @ ..] = bytes else {
            return None;
        };
        codec::letter(rest, refusal_named)
    }

    ghost codec = { refusal_codec };
}
