//! Texts, lamps and inputs as a reading has them: a count, and a room in which all past the count is zero.
ghost use Rattle.std.specs.Prelude.{◌≡◌, ◌≤◌, length};
ghost use Rattle.pjlink.specs.Said.{parameter_most};
ghost use Rattle.pjlink.specs.Carried.{lamps_carried, inputs_carried};
ghost use Rattle.codes.specs.Readings.{with_text, flat_lamps, with_lamps, with_inputs};

use crate::readings::{CHARACTERS, FlatReading};
use text::rooms;
use words::input;
use words::input::Input;
use words::lamp::{LAMPS_MOST, LampHours};

/// Lamps, by their hours and by whether they are lit, each in a room of eight.
#[derive(Clone, Copy)]
pub struct FlatLamps {
    /// How many lamps there are, at most 8.
    pub count: usize,
    /// The whole hours of each lamp, as the reply says them; 0 past the count.
    pub hours: [u32; LAMPS_MOST],
    /// Whether each lamp is lit; false past the count.
    pub lit: [bool; LAMPS_MOST],
}

impl FlatLamps {
    /// Returns at most eight lamps in their rooms.
    pub fn of(lamps: &[LampHours]) -> FlatLamps
        requires { length lamps.now ≤ lamps_carried }
        ensures { result ≡ flat_lamps lamps.now }
    {
        let mut hours = [0u32; LAMPS_MOST];
        let mut lit = [false; LAMPS_MOST];
        for k in 0..lamps.len() {
            hours[k] = lamps[k].hours;
            lit[k] = lamps[k].lit;
        }
        FlatLamps {
            count: lamps.len(),
            hours,
            lit,
        }
    }
}

impl FlatReading {
    /// Returns a reading that says a text, of this kind.
    pub(crate) fn with_text(kind: u8, bytes: &[u8]) -> FlatReading
        requires { length bytes.now ≤ parameter_most }
        ensures { result ≡ with_text kind bytes.now }
    {
        let mut flat = FlatReading::plain(kind, 0, 0);
        flat.count = bytes.len();
        flat.text = rooms::kept(bytes, 0);
        flat
    }

    /// Returns a reading that says at most eight lamps.
    pub(crate) fn with_lamps(lamps: &[LampHours]) -> FlatReading
        requires { length lamps.now ≤ lamps_carried }
        ensures { result ≡ with_lamps lamps.now }
    {
        let FlatLamps { count, hours, lit } = FlatLamps::of(lamps);
        let mut flat = FlatReading::plain(7, 0, 0);
        flat.count = count;
        flat.hours = hours;
        flat.lit = lit;
        flat
    }

    /// Returns a reading that says at most 32 inputs, two characters each.
    #[tactic(auto, using(crate::proofs::Flattening::one_more_input))]
    pub(crate) fn with_inputs(inputs: &[Input]) -> FlatReading
        requires { length inputs.now ≤ inputs_carried }
        ensures { result ≡ with_inputs inputs.now }
    {
        let mut pairs = [0u8; CHARACTERS];
        for k in 0..inputs.len() {
            let i = inputs[k];
            pairs[2 * k] = input::source_digit(i.source);
            pairs[2 * k + 1] = input::number_character(i.number);
        }
        let mut flat = FlatReading::plain(8, 0, 0);
        flat.count = inputs.len();
        flat.inputs = pairs;
        flat
    }
}
