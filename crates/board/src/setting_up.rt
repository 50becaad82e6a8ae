// Set-up of either class, in place and by value. C passes each setting by itself; here they are one value (`Wanted`).
ghost use Rattle.std.specs.Prelude.{◌≡◌};
ghost use Rattle.record.specs.Wanted.{wanted_of, wanted_of_2, names_in};
ghost use Rattle.setup.specs.Lent.{wanted_settings};
ghost use Rattle.ours.specs.Board.{ours};
ghost use Rattle.board.specs.Results.{changed_of};

use crate::results::Changed;
use record::fresh;
use record::types::Device;
use setup::wanted::Wanted;
use text::numbered;

/// Sets up a Class 1 projector in the record. Errors, in this order, with the blank record: 3, 8.
#[unsafe(no_mangle)]
pub extern "C" fn pj_set_up_in_place<'a>(
    device: &mut Device,
    name: &'a [u8],
    maker: &'a [u8],
    model: &'a [u8],
    other: &'a [u8],
    password: &'a [u8],
    inputs: &'a [u8],
    lamps: &'a [u32],
    warm: u32,
    cool: u32,
) -> u32
    ensures number { result ≡ (ours.set_up (wanted_of name.now maker.now model.now other.now password.now inputs.now
        lamps.now warm cool)).number }
    ensures device { device.new ≡ (ours.set_up (wanted_of name.now maker.now model.now other.now password.now
        inputs.now lamps.now warm cool)).device }
{
    let wanted = Wanted::for_class_1(
        name, maker, model, other, password, inputs, lamps, warm, cool,
    );
    numbered::number_of(setup::set_up_in(device, &wanted))
}

/// Sets up a Class 2 projector in the record. The inputs' names come one after the other, each of its length. Errors,
/// in this order, with the blank record: 3, 8.
#[unsafe(no_mangle)]
pub extern "C" fn pj_set_up_2_in_place<'a>(
    device: &mut Device,
    name: &'a [u8],
    maker: &'a [u8],
    model: &'a [u8],
    other: &'a [u8],
    password: &'a [u8],
    inputs: &'a [u8],
    lamps: &'a [u32],
    warm: u32,
    cool: u32,
    serial: &'a [u8],
    version: &'a [u8],
    names: &'a [u8],
    lengths: &'a [usize],
) -> u32
    ensures number { result ≡ (ours.set_up (wanted_of_2 name.now maker.now model.now other.now password.now inputs.now
        lamps.now warm cool serial.now version.now (names_in lengths.now names.now))).number }
    ensures device { device.new ≡ (ours.set_up (wanted_of_2 name.now maker.now model.now other.now password.now
        inputs.now lamps.now warm cool serial.now version.now (names_in lengths.now names.now))).device }
{
    let wanted = Wanted::for_class_1(
        name, maker, model, other, password, inputs, lamps, warm, cool,
    )
    .for_class_2(serial, version, names, lengths);
    numbered::number_of(setup::set_up_in(device, &wanted))
}

// The record that the settings are set up in, and the number.
fn set_up(wanted: &Wanted<'_>) -> Changed
    ensures { result ≡ changed_of (ours.set_up (wanted_settings wanted.now)) }
{
    let mut changed = Changed {
        number: 0,
        device: fresh::blank(),
    };
    changed.number = numbered::number_of(setup::set_up_in(&mut changed.device, wanted));
    changed
}

/// Sets up a Class 1 projector, by value. Returns 0 and the record. Errors, in this order, with the blank record: 3, 8.
#[unsafe(no_mangle)]
pub extern "C" fn pj_set_up<'a>(
    name: &'a [u8],
    maker: &'a [u8],
    model: &'a [u8],
    other: &'a [u8],
    password: &'a [u8],
    inputs: &'a [u8],
    lamps: &'a [u32],
    warm: u32,
    cool: u32,
) -> Changed
    ensures { result ≡ changed_of (ours.set_up (wanted_of name.now maker.now model.now other.now
        password.now inputs.now lamps.now warm cool)) }
{
    let wanted = Wanted::for_class_1(
        name, maker, model, other, password, inputs, lamps, warm, cool,
    );
    set_up(&wanted)
}

/// Sets up a Class 2 projector, by value. The inputs' names come one after the other, each of its length. Returns 0 and
/// the record. Errors, in this order, with the blank record: 3, 8.
#[unsafe(no_mangle)]
pub extern "C" fn pj_set_up_2<'a>(
    name: &'a [u8],
    maker: &'a [u8],
    model: &'a [u8],
    other: &'a [u8],
    password: &'a [u8],
    inputs: &'a [u8],
    lamps: &'a [u32],
    warm: u32,
    cool: u32,
    serial: &'a [u8],
    version: &'a [u8],
    names: &'a [u8],
    lengths: &'a [usize],
) -> Changed
    ensures { result ≡ changed_of (ours.set_up (wanted_of_2 name.now maker.now model.now other.now
        password.now inputs.now lamps.now warm cool serial.now
        version.now (names_in lengths.now names.now))) }
{
    let wanted = Wanted::for_class_1(
        name, maker, model, other, password, inputs, lamps, warm, cool,
    )
    .for_class_2(serial, version, names, lengths);
    set_up(&wanted)
}
