//! Reading the reply to a given command.
ghost use Rattle.std.proofs.Common.{arith};
ghost use Rattle.std.specs.Prelude.{◌≡◌};
ghost use Rattle.controller.specs.Reading.{outcome_of, reading_outcome_number, read_reply, read_as};

use pjlink::answer::Reply;
use pjlink::command::Command;
use pjlink::{form, greeting, reply};
use reasons::numbers;
use std::error::Error;
use std::fmt;
use text::numbered::Numbered;

/// What a line says.
#[derive(Drop)]
pub enum Reading<'a> {
    /// The reply to the command.
    Means(Reply<'a>),
    /// The ERRA line: the digest was refused.
    Erra,
}

/// Why a line says nothing to a command (RULES, The numbers a call gives).
#[derive(Clone, Copy, Debug, PartialEq, Eq)]
pub enum Misread {
    /// 10: it does not have the form of a reply of the command's class.
    NotALine,
    /// 11: it answers another command.
    OtherCommand,
    /// 12: its parameter is not allowed for the command.
    NotAllowed,
}

impl Numbered for Misread {
    ghost number = { λ why. reading_outcome_number (outcome_of why) };

    ghost refuses = { λ why. Prim.grind arith };

    fn number(self) -> u32 {
        match self {
            Misread::NotALine => 10,
            Misread::OtherCommand => 11,
            Misread::NotAllowed => 12,
        }
    }
}

/// What its number says.
impl fmt::Display for Misread {
    fn fmt<W: fmt::Write>(&self, f: &mut fmt::Formatter<W>) -> fmt::Result {
        f.write_str(numbers::number_text(self.number()))
    }
}

impl Error for Misread {}

/// Reads what a line, with its CR, says to the command. Tests, in this order: the ERRA line; the form, else `NotALine`;
/// the body, else `OtherCommand`; the parameter, else `NotAllowed` (RULES, Controller).
pub fn read_reply(command: Command, line: &[u8]) -> Result<Reading<'_>, Misread>
    ensures { read_as result ≡ read_reply command line.now }
{
    if text::is_same(line, &greeting::ERRA) {
        return Ok(Reading::Erra);
    }
    let Some(line) = form::reply(command.class(), line) else {
        return Err(Misread::NotALine);
    };
    if !command.body().is_named(command.class(), line.letters) {
        return Err(Misread::OtherCommand);
    }
    let Some(said) = reply::read_parameter(command, line.parameter) else {
        return Err(Misread::NotAllowed);
    };
    Ok(Reading::Means(said))
}
