// Values of one byte: the power status, and what is on or off (RULES, Commands).
ghost use Rattle.std.specs.Prelude.{◌≡◌, true};
ghost use Rattle.words.specs.Codec.{Plain};
ghost use Rattle.words.specs.Powers.{power_code, power_named, power_text, power_read};
ghost use Rattle.words.specs.Powers.{switch_code, switch_named, switch_text, switch_read};
ghost use Rattle.words.specs.Laws.{power_codec, switch_codec};

use crate::codec::{self, LineBytes, Wire};

/// The power as a projector answers it.
#[derive(Clone, Copy)]
pub enum PowerStatus {
    /// The lamps are off.
    Off,
    /// The lamps are lit.
    On,
    /// The lamps are off and cooling.
    Cooling,
    /// The lamps are lit and warm up.
    WarmUp,
}

fn power_code(p: PowerStatus) -> u8
    ensures { result ≡ power_code p }
{
    match p {
        PowerStatus::Off => b'0',
        PowerStatus::On => b'1',
        PowerStatus::Cooling => b'2',
        PowerStatus::WarmUp => b'3',
    }
}

fn power_named(b: u8) -> Option<PowerStatus>
    ensures { result ≡ power_named b }
{
    match b {
        b'0' => Some(PowerStatus::Off),
        b'1' => Some(PowerStatus::On),
        b'2' => Some(PowerStatus::Cooling),
        b'3' => Some(PowerStatus::WarmUp),
        _ => None,
    }
}

impl Wire for PowerStatus {
    ghost legal = { λ _. true };

    ghost text = { power_text };

    ghost writes = { Plain (λ _. true) power_text };

    ghost read = { power_read };

    fn put(self, out: &mut LineBytes) {
        out.push(power_code(self));
    }

    fn take(bytes: &[u8]) -> Option<(PowerStatus, &[u8])> {
        codec::letter(bytes, power_named)
    }

    ghost codec = { power_codec };
}

/// Returns the digit of a switch: 1 on, 0 off.
pub fn switch_code(on: bool) -> u8
    ensures { result ≡ switch_code on }
{
    if on { b'1' } else { b'0' }
}

fn switch_named(b: u8) -> Option<bool>
    ensures { result ≡ switch_named b }
{
    match b {
        b'0' => Some(false),
        b'1' => Some(true),
        _ => None,
    }
}

impl Wire for bool {
    ghost legal = { λ _. true };

    ghost text = { switch_text };

    ghost writes = { Plain (λ _. true) switch_text };

    ghost read = { switch_read };

    fn put(self, out: &mut LineBytes) {
        out.push(switch_code(self));
    }

    fn take(bytes: &[u8]) -> Option<(bool, &[u8])> {
        codec::letter(bytes, switch_named)
    }

    ghost codec = { switch_codec };
}
