// Inputs and their two characters (RULES, The legal record; PJLink 1.04, 4.3; RULES, Class 2).
ghost use Rattle.std.specs.Prelude.{◌≡◌, true};
ghost use Rattle.words.specs.Sources.{is_number_character, number_for, number_character};
ghost use Rattle.words.specs.Inputs.{is_input_text, source_named, read_input, input_of, is_input, source_digit};
ghost use Rattle.words.specs.Inputs.{number_digit, input_text, input_read};
ghost use Rattle.words.specs.Codec.{Plain};
ghost use Rattle.words.specs.Laws.{input_codec};

use crate::codec::{self, LineBytes, Wire};

/// How many inputs a projector has at most: as many as PJLink allows (RULES, Inputs).
pub const INPUTS_MOST: usize = 32;

/// The type of an input, 1 to 6 in this order; 6 is of Class 2 only (RULES, Inputs).
#[derive(Clone, Copy, Default)]
pub enum Source {
    /// 1, RGB (PJLink 1.04, 4.3).
    #[default]
    Rgb,
    /// 2, VIDEO.
    Video,
    /// 3, DIGITAL.
    Digital,
    /// 4, STORAGE.
    Storage,
    /// 5, NETWORK.
    Network,
    /// 6, INTERNAL (RULES, Class 2).
    Internal,
}

/// An input: its type and its number. The number is 1 to 9, or 10 to 35 for A to Z.
#[derive(Clone, Copy, Default)]
pub struct Input {
    /// The type, its first character.
    pub source: Source,
    /// The number, its second character: 1 to 9, or 10 to 35 for A to Z (Class 2 only).
    pub number: u8,
}

// Returns whether a character numbers an input. Each test is made, as in `is_input_text`, so that a scan of pairs takes
// eight at once.
fn is_number_character(b: u8) -> bool
    ensures { result ≡ is_number_character b }
{
    ((b'1' <= b) & (b <= b'9')) | ((b'A' <= b) & (b <= b'Z'))
}

/// Returns whether two characters name an input of class `class`: 11 and 59 do; 10 and 20 do not; 61 and 1A do in Class
/// 2 only. Every `class` other than 1 is read as Class 2.
pub fn is_input_text(class: u8, source_byte: u8, number_byte: u8) -> bool
    ensures { result ≡ is_input_text class source_byte number_byte }
{
    if class == 1 {
        return ((b'1' <= source_byte) & (source_byte <= b'5'))
            & ((b'1' <= number_byte) & (number_byte <= b'9'));
    }
    ((b'1' <= source_byte) & (source_byte <= b'6')) & is_number_character(number_byte)
}

#[tactic(auto, unfolding(crate::specs::Inputs::source_named))]
fn source_named(a: u8) -> Source
    ensures { result ≡ source_named a }
{
    match a {
        b'1' => Source::Rgb,
        b'2' => Source::Video,
        b'3' => Source::Digital,
        b'4' => Source::Storage,
        b'5' => Source::Network,
        _ => Source::Internal,
    }
}

#[tactic(auto, unfolding(crate::specs::Sources::number_for))]
fn number_for(b: u8) -> u8
    requires { is_number_character b ≡ true }
    ensures { result ≡ number_for b }
{
    if b <= b'9' {
        return b - b'0';
    }
    10 + (b - b'A')
}

/// Returns the input of either class that two characters name, or `None`.
#[tactic(auto, unfolding(crate::specs::Inputs::read_input))]
pub fn read_input(source_byte: u8, number_byte: u8) -> Option<Input>
    ensures { result ≡ read_input source_byte number_byte }
{
    if !is_input_text(2, source_byte, number_byte) {
        return None;
    }
    let source = source_named(source_byte);
    let number = number_for(number_byte);
    Some(Input { source, number })
}

/// Returns the input that two bytes name, or `None`.
#[tactic(auto, unfolding(crate::specs::Inputs::input_of))]
pub fn input_of(bytes: &[u8]) -> Option<Input>
    ensures { result ≡ input_of bytes.now }
{
    codec::parse(bytes)
}

/// Returns whether two characters can name the input.
pub fn is_input(input: Input) -> bool
    ensures { result ≡ is_input input }
{
    1 <= input.number && input.number <= 35
}

/// Returns the digit of a source: its type, 1 to 6, as a character.
pub fn source_digit(source: Source) -> u8
    ensures { result ≡ source_digit source }
{
    match source {
        Source::Rgb => b'1',
        Source::Video => b'2',
        Source::Digital => b'3',
        Source::Storage => b'4',
        Source::Network => b'5',
        Source::Internal => b'6',
    }
}

/// Returns the character of a number of 1 to 35: a digit up to 9, a letter from 10 on.
#[tactic(auto, unfolding(crate::specs::Sources::number_character))]
pub fn number_character(number: u8) -> u8
    ensures { result ≡ number_character number }
{
    if number <= 9 {
        return b'0' + number;
    }
    b'A' + (number - 10) % 26
}

/// Returns the two characters of an input, the type's first.
pub fn input_text(input: Input) -> [u8; 2]
    ensures { result ≡ input_text input }
{
    [source_digit(input.source), number_character(input.number)]
}

/// Returns the last decimal digit of a number, as a character.
pub fn number_digit(number: u8) -> u8
    ensures { result ≡ number_digit number }
{
    b'0' + number % 10
}

impl Wire for Input {
    ghost legal = { is_input };

    ghost text = { input_text };

    ghost writes = { Plain is_input input_text };

    ghost read = { input_read };

    fn put(self, out: &mut LineBytes) {
        codec::put_all(&input_text(self), out);
    }

    fn take(bytes: &[u8]) -> Option<(Input, &[u8])> {
        let [a, b, rest @ ..] = bytes else {
            return None;
        };
        Some((read_input(*a, *b)?, rest))
    }

    ghost codec = { input_codec };
}
