// The record that a refused set-up or load leaves, and the places of a fresh one (RULES, The legal record and Places).
ghost use Rattle.std.specs.Prelude.{◌≡◌};
ghost use Rattle.record.specs.Record.{blank, all_closed};

use crate::types::{Connection, Device, InputName, Own, PLACES, Text};

/// The blank record, all zero: what a refused set-up, or a refused load, leaves. It is not legal. Not inlined: else its
/// caller has room for it twice on the stack.
#[inline(never)]
#[tactic(auto, unfolding(crate::specs::Record::blank, crate::specs::Record::closed))]
pub fn blank() -> Device
    ensures { result ≡ blank }
{
    Device::BLANK
}

/// Makes a record the blank one where it lies, field by field, so that none is put together on the stack.
#[tactic(auto, unfolding(crate::specs::Record::blank, crate::specs::Record::closed))]
pub fn clear(device: &mut Device)
    ensures { device.new ≡ blank }
{
    let settings = &mut device.settings;
    settings.name = Text::EMPTY;
    settings.maker = Text::EMPTY;
    settings.model = Text::EMPTY;
    settings.other = Text::EMPTY;
    settings.password = Text::EMPTY;
    settings.input_count = 0;
    settings.inputs.fill(0);
    settings.lamp_count = 0;
    settings.warm = 0;
    settings.cool = 0;
    settings.class_number = 0;
    settings.serial = Text::EMPTY;
    settings.version = Text::EMPTY;
    settings.names.fill(InputName::EMPTY);
    device.own = Own::BLANK;
    device.connections.fill(Connection::CLOSED);
}

/// Every place closed.
#[tactic(auto, unfolding(crate::specs::Record::closed))]
pub fn all_closed() -> [Connection; PLACES]
    ensures { result ≡ all_closed }
{
    [Connection::CLOSED; PLACES]
}
