// A command as a host passes it, a code and two numbers, and the command that it stands for (RULES, Commands).
ghost use Rattle.std.specs.Prelude.{◌≡◌};
ghost use Rattle.codes.specs.Commands.{switch_at, source_at, input_at, half_at, coded_command};

use pjlink::body::Body;
use pjlink::command::{Command, Half, Volume};
use words::class::ClassNumber::{One, Two};
use words::input::{Input, Source};

/// A command as a code and two numbers (`pj_command`). A number that the code does not use is ignored.
#[repr(C)]
#[derive(Clone, Copy)]
pub struct Coded {
    /// 0 to 23, by `enum pj_code`; any other code is no command (RULES, The C face).
    pub code: u8,
    /// By the code: 0 or 1, a half 1 to 3, or an input's type 1 to 6.
    pub first: u8,
    /// By the code: 0 or 1, or an input's number 1 to 35.
    pub second: u8,
}

// Returns what a switch says: 0 off or down, 1 on or up. `None` for any other number.
#[tactic(auto, unfolding(crate::specs::Commands::switch_at))]
fn switch_at(n: u8) -> Option<bool>
    ensures { result ≡ switch_at n }
{
    match n {
        0 => Some(false),
        1 => Some(true),
        _ => None,
    }
}

// Returns the type of inputs that has this number in the table of types, 1 to 6.
#[tactic(auto, unfolding(crate::specs::Commands::source_at))]
fn source_at(n: u8) -> Option<Source>
    ensures { result ≡ source_at n }
{
    match n {
        1 => Some(Source::Rgb),
        2 => Some(Source::Video),
        3 => Some(Source::Digital),
        4 => Some(Source::Storage),
        5 => Some(Source::Network),
        6 => Some(Source::Internal),
        _ => None,
    }
}

// Returns the input of a type 1 to 6 and a number 1 to 35.
#[tactic(auto, unfolding(crate::specs::Commands::input_at))]
fn input_at(source: u8, number: u8) -> Option<Input>
    ensures { result ≡ input_at source number }
{
    if number < 1 || 35 < number {
        return None;
    }
    let source = source_at(source)?;
    Some(Input { source, number })
}

// Returns what AVMT mutes: 1 video, 2 audio, 3 both.
#[tactic(auto, unfolding(crate::specs::Commands::half_at))]
fn half_at(n: u8) -> Option<Half>
    ensures { result ≡ half_at n }
{
    match n {
        1 => Some(Half::VideoHalf),
        2 => Some(Half::AudioHalf),
        3 => Some(Half::BothHalves),
        _ => None,
    }
}

impl Coded {
    /// Returns the command that the code stands for, or `None`.
    #[tactic(auto, unfolding(crate::specs::Commands::coded_command))]
    pub fn command(self) -> Option<Command>
        ensures { result ≡ coded_command self }
    {
        let Coded {
            code,
            first,
            second,
        } = self;
        let command = match code {
            0 => Command::Query(Body::Powr),
            1 => Command::PowerSet(switch_at(first)?),
            2 => Command::Query(Body::Inpt(One)),
            3 => Command::InputSet(One, input_at(first, second)?),
            4 => Command::Query(Body::Avmt),
            5 => Command::MuteSet(half_at(first)?, switch_at(second)?),
            6 => Command::Query(Body::Erst),
            7 => Command::Query(Body::Lamp),
            8 => Command::Query(Body::Inst(One)),
            9 => Command::Query(Body::Name),
            10 => Command::Query(Body::Inf1),
            11 => Command::Query(Body::Inf2),
            12 => Command::Query(Body::Info),
            13 => Command::Query(Body::Clss),
            14 => Command::Query(Body::Frez),
            15 => Command::FreezeSet(switch_at(first)?),
            16 => Command::VolumeStep(Volume::Speaker, switch_at(first)?),
            17 => Command::VolumeStep(Volume::Microphone, switch_at(first)?),
            18 => Command::Query(Body::Snum),
            19 => Command::Query(Body::Sver),
            20 => Command::NameQuery(input_at(first, second)?),
            21 => Command::Query(Body::Inpt(Two)),
            22 => Command::InputSet(Two, input_at(first, second)?),
            23 => Command::Query(Body::Inst(Two)),
            _ => return None,
        };
        Some(command)
    }
}
