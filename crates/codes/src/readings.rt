//! What the readers return, as numbers and arrays, since an exported call returns no enum. What a kind does not use is
//! zero (RULES, Controller).
ghost use Rattle.std.specs.Prelude.{◌≡◌, ◌≤◌, length};
ghost use Rattle.pjlink.specs.Said.{said_bytes, parameter_most};
ghost use Rattle.pjlink.specs.Carried.{answer_said};
ghost use Rattle.controller.specs.Reading.{read_as};
ghost use Rattle.codes.specs.Commands.{bit, source_number};
ghost use Rattle.codes.specs.Readings.{flat_greeting, no_reading, plain_reading, power_at_face, said_flat};
ghost use Rattle.codes.specs.Readings.{flat_reading};

use controller::reading::{Misread, Reading};
use pjlink::answer::Answer;
use pjlink::greeting::Greeting;
use text::numbered::Numbered;
use words::input::{INPUTS_MOST, Source};
use words::lamp::LAMPS_MOST;
use words::power::PowerStatus;

/// How many characters a reading has for inputs: two for each.
pub const CHARACTERS: usize = 2 * INPUTS_MOST;

/// How many bytes a reading has for a text: as many as a parameter of a reply has at most.
pub const TEXT_MOST: usize = 128;

/// What was read of a greeting (`pj_greeting`).
#[repr(C)]
#[derive(Clone, Copy)]
pub struct FlatGreeting {
    /// 0, or 10 if the line is no greeting (RULES, The numbers a call gives).
    pub number: u32,
    /// By `enum pj_greeting_kind`: 1 `PJLINK 0`, 2 `PJLINK 1`, 3 `PJLINK ERRA`; 0 if the number is 10.
    pub kind: u8,
    /// The random number of `PJLINK 1`; 0 for any other line.
    pub random: u32,
}

/// What was read of a reply (`pj_reading`).
#[repr(C)]
#[derive(Clone, Copy)]
pub struct FlatReading {
    /// 0, or 3, 10, 11 or 12 if the line says nothing (RULES, The numbers a call gives).
    pub number: u32,
    /// What is said, 1 to 12, by `enum pj_reading_kind`; 0 if nothing is said.
    pub kind: u8,
    /// By the kind: n of ERRn, a power 0 to 3, an input's type 1 to 6, the video mute, a class or a freeze.
    pub first: u8,
    /// By the kind: an input's number 1 to 35, or the audio mute, 0 or 1.
    pub second: u8,
    /// By the kind: how many lamps, inputs, bytes of a text or error digits there are.
    pub count: usize,
    /// The whole hours of each lamp, at most 99,999; 0 past the lamps.
    pub hours: [u32; LAMPS_MOST],
    /// Whether each lamp is lit; false past the lamps.
    pub lit: [bool; LAMPS_MOST],
    /// Two ASCII characters an input; zero past the inputs.
    pub inputs: [u8; CHARACTERS],
    /// The bytes of a text, or six error digits as numbers 0 to 2; zero past the count.
    pub text: [u8; TEXT_MOST],
}

/// Returns the number of a power status, 0 to 3, as a reply has it.
pub fn power_number(power: PowerStatus) -> u8
    ensures { result ≡ power_at_face power }
{
    match power {
        PowerStatus::Off => 0,
        PowerStatus::On => 1,
        PowerStatus::Cooling => 2,
        PowerStatus::WarmUp => 3,
    }
}

/// Returns the number of a type of inputs, 1 to 6.
pub fn source_number(source: Source) -> u8
    ensures { result ≡ source_number source }
{
    match source {
        Source::Rgb => 1,
        Source::Video => 2,
        Source::Digital => 3,
        Source::Storage => 4,
        Source::Network => 5,
        Source::Internal => 6,
    }
}

fn bit(on: bool) -> u8
    ensures { result ≡ bit on }
{
    if on { 1 } else { 0 }
}

/// A greeting by its kind: 1 open, 2 secured with its random number, 3 the ERRA line. Without a greeting the number is
/// 10.
impl From<Option<Greeting>> for FlatGreeting {
    ghost from_gives = { λ greeting flat. flat ≡ flat_greeting greeting };

    fn from(greeting: Option<Greeting>) -> FlatGreeting {
        let (number, kind, random) = match greeting {
            Some(Greeting::Open) => (0, 1, 0),
            Some(Greeting::Secured(random)) => (0, 2, random),
            Some(Greeting::Refused) => (0, 3, 0),
            None => (10, 0, 0),
        };
        FlatGreeting {
            number,
            kind,
            random,
        }
    }
}

impl FlatReading {
    /// Returns a reading that says nothing. The number says why.
    pub fn meaningless(number: u32) -> FlatReading
        ensures { result ≡ no_reading number }
    {
        FlatReading {
            number,
            kind: 0,
            first: 0,
            second: 0,
            count: 0,
            hours: [0; LAMPS_MOST],
            lit: [false; LAMPS_MOST],
            inputs: [0; CHARACTERS],
            text: [0; TEXT_MOST],
        }
    }

    /// Returns a reading of a kind with its two values.
    pub(crate) fn plain(kind: u8, first: u8, second: u8) -> FlatReading
        ensures { result ≡ plain_reading kind first second }
    {
        let mut flat = FlatReading::meaningless(0);
        flat.kind = kind;
        flat.first = first;
        flat.second = second;
        flat
    }

    #[tactic(auto, using(pjlink::proofs::SaidRows::said_row))]
    fn said(a: &Answer<'_>) -> FlatReading
        requires { length (said_bytes (answer_said a.now)) ≤ parameter_most }
        ensures { result ≡ said_flat (answer_said a.now) }
    {
        match a {
            Answer::Done => FlatReading::plain(1, 0, 0),
            Answer::Power(p) => FlatReading::plain(3, power_number(*p), 0),
            Answer::Input(i) => FlatReading::plain(4, source_number(i.source), i.number),
            Answer::Mutes(mutes) => FlatReading::plain(5, bit(mutes.video), bit(mutes.audio)),
            Answer::Errors(status) => FlatReading::with_text(6, &status.digits),
            Answer::Lamps(lamps) => FlatReading::with_lamps(lamps.as_slice()),
            Answer::Inputs(inputs) => FlatReading::with_inputs(inputs.as_slice()),
            Answer::Text(text) => FlatReading::with_text(9, text),
            Answer::Class(class) => FlatReading::plain(10, class.number(), 0),
            Answer::Freeze(on) => FlatReading::plain(12, bit(*on), 0),
        }
    }

    /// Returns what the reply reader returned as a reading: what the reply says, the ERRA line (kind 11), or the number
    /// 10, 11 or 12 for a line that says nothing.
    pub fn of(reading: &Result<Reading<'_>, Misread>) -> FlatReading
        requires { length (said_bytes (read_as reading.now).said) ≤ parameter_most }
        ensures { result ≡ flat_reading (read_as reading.now) }
    {
        match reading {
            Ok(Reading::Means(Ok(answer))) => FlatReading::said(answer),
            Ok(Reading::Means(Err(refusal))) => FlatReading::plain(2, refusal.number(), 0),
            Ok(Reading::Erra) => FlatReading::plain(11, 0, 0),
            Err(misread) => FlatReading::meaningless(misread.number()),
        }
    }
}
