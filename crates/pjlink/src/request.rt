// What a received class, four letters and a parameter ask for (RULES, Commands and Class 2).
ghost use Rattle.std.specs.Prelude.{◌≡◌};
ghost use Rattle.words.specs.Classes.{class_as_number};
ghost use Rattle.pjlink.specs.Requests.{mute_of, name_query_of, set_of, command_of, request_of};

use crate::body::{Body, Sets};
use crate::command::{Command, Half, Volume};
use std::error::Error;
use std::fmt;
use words::class::ClassNumber;
use words::codec::Wire;
use words::{codec, input};

/// Why a line of the form asks for no command.
#[derive(Clone, Copy, Debug, PartialEq, Eq)]
pub enum Unasked {
    /// A body, with a parameter that is neither its query nor one that it knows: ERR2, or ERR1 if the body knows none.
    Unlisted(Body),
    /// No body of the line's class has these letters: ERR1.
    UnknownBody,
}

impl fmt::Display for Unasked {
    fn fmt<W: fmt::Write>(&self, f: &mut fmt::Formatter<W>) -> fmt::Result {
        f.write_str(match self {
            Unasked::Unlisted(_) => "the body does not know the parameter",
            Unasked::UnknownBody => "no body of the class has these letters",
        })
    }
}

impl Error for Unasked {}

// Reads a parameter of AVMT: what is muted or unmuted.
fn mute_of(p: &[u8]) -> Option<Command>
    ensures { result ≡ mute_of p.now }
{
    let (half, on) = Half::take(p)?;
    Some(Command::MuteSet(half, codec::parse(on)?))
}

// Reads a parameter of INNM: `?` and the input whose name is asked.
#[tactic(auto, unfolding(crate::specs::Requests::name_query_of))]
fn name_query_of(p: &[u8]) -> Option<Command>
    ensures { result ≡ name_query_of p.now }
{
    match p {
        [b'?', named @ ..] => Some(Command::NameQuery(input::input_of(named)?)),
        _ => None,
    }
}

// Reads a parameter other than `?` of a body of the class that sets this.
fn set_of(class: ClassNumber, set: Sets, p: &[u8]) -> Option<Command>
    ensures { result ≡ set_of class set p.now }
{
    match set {
        Sets::SetsPower => Some(Command::PowerSet(codec::parse(p)?)),
        Sets::SetsInput => Some(Command::InputSet(class, input::input_of(p)?)),
        Sets::SetsMute => mute_of(p),
        Sets::SetsFreeze => Some(Command::FreezeSet(codec::parse(p)?)),
        Sets::StepsSpeaker => Some(Command::VolumeStep(Volume::Speaker, codec::parse(p)?)),
        Sets::StepsMicrophone => Some(Command::VolumeStep(Volume::Microphone, codec::parse(p)?)),
        Sets::NamesInput => name_query_of(p),
        Sets::QueryOnly => None,
    }
}

fn command_of(b: Body, p: &[u8]) -> Option<Command>
    ensures { result ≡ command_of b p.now }
{
    if b.has_query() && matches!(p, [b'?']) {
        return Some(Command::Query(b));
    }
    let row = b.row();
    set_of(row.class, row.set, p)
}

/// Returns the command that four letters, in any case, and exactly this parameter ask for in a line of the class.
/// Errors, in this order: `UnknownBody`, `Unlisted`.
#[tactic(auto, unfolding(crate::specs::Requests::request_of, crate::specs::Requests::asked_of))]
pub fn request(class: ClassNumber, letters: [u8; 4], parameter: &[u8]) -> Result<Command, Unasked>
    ensures { result ≡ request_of (class_as_number class) letters parameter.now }
{
    let body = Body::named(class, letters).ok_or(Unasked::UnknownBody)?;
    command_of(body, parameter).ok_or(Unasked::Unlisted(body))
}
