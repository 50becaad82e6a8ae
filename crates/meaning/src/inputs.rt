//! The inputs of a set-up, which keeps them as pairs of characters (RULES, The legal record).
ghost use Rattle.std.specs.Prelude.{◌≡◌, ◌≤◌, length, map, slice_index_or};
ghost use Rattle.words.specs.Sources.{is_same_input};
ghost use Rattle.meaning.specs.SetUpInputs.{no_input, input_of_pair, pair_input, inputs_of};
ghost use Rattle.meaning.specs.SetUpInputs.{listed_index, is_listed};

use arrayvec::ArrayVec;
use record::types::Settings;
use text::rooms;
use words::input;
use words::input::{INPUTS_MOST, Input, Source};

const NO_INPUT: Input = Input {
    source: Source::Rgb,
    number: 0,
};

// Returns the input for which a pair stands. No legal set-up has a pair that stands for no input.
#[tactic(auto, using(words::proofs::SourcesFollowed::reader_follows))]
fn input_of_pair(a: u8, b: u8) -> Input
    ensures { result ≡ input_of_pair a b }
{
    input::read_input(a, b).unwrap_or(NO_INPUT)
}

fn is_same_input(i: Input, j: Input) -> bool
    ensures { result ≡ is_same_input i j }
{
    input::source_digit(i.source) == input::source_digit(j.source) && i.number == j.number
}

// Returns the pairs in use.
fn pairs_of(s: &Settings) -> &[[u8; 2]]
    ensures inputs { map pair_input result.now ≡ inputs_of s.now }
    ensures few { length result.now ≤ INPUTS_MOST }
{
    let used = rooms::first(&s.inputs, 2 * s.input_count.min(INPUTS_MOST));
    let (pairs, _) = used.as_chunks::<2>();
    pairs
}

/// Returns the inputs, in set-up order.
pub fn inputs_of(settings: &Settings) -> ArrayVec<Input, INPUTS_MOST>
    ensures { result.items ≡ inputs_of settings.now }
{
    let mut inputs = ArrayVec::new();
    let pairs = pairs_of(settings);
    for [a, b] in pairs {
        inputs.push(input_of_pair(*a, *b));
    }
    inputs
}

/// Returns the first index of the input in the set-up. If it is not there, returns the number of inputs.
pub fn listed_index(settings: &Settings, input: Input) -> usize
    ensures { result ≡ listed_index settings.now input }
{
    let pairs = pairs_of(settings);
    pairs
        .iter()
        .position(|[a, b]| is_same_input(input_of_pair(*a, *b), input))
        .unwrap_or(pairs.len())
}

/// Returns whether the input is in the set-up.
pub fn is_listed(settings: &Settings, input: Input) -> bool
    ensures { result ≡ is_listed settings.now input }
{
    listed_index(settings, input) < settings.input_count
}

/// Returns the input at an index of the set-up, from 0. Past the last there is `no_input`.
#[tactic(auto, using(crate::proofs::InputsByPlace::paired_at))]
pub fn input_at(settings: &Settings, place: usize) -> Input
    ensures { result ≡ slice_index_or (inputs_of settings.now) place no_input }
{
    match pairs_of(settings).get(place) {
        Some([a, b]) => input_of_pair(*a, *b),
        None => NO_INPUT,
    }
}
