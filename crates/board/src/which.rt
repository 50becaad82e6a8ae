// Which setting set-up refuses, as a number, since an exported call returns no enum.
ghost use Rattle.std.specs.Prelude.{◌≡◌};
ghost use Rattle.record.specs.Wanted.{wanted_of, wanted_of_2, names_in};
ghost use Rattle.record.specs.SetUp.{set_up};
ghost use Rattle.record.specs.SetUpErrors.{setting_told};
ghost use Rattle.board.specs.Which.{setting_number};

use record::set_up_error::SetUpError;
use setup::wanted::Wanted;

// The setting for which it refuses, or 0.
fn number_of(checked: Result<(), SetUpError>) -> u32
    ensures { result ≡ setting_number (setting_told checked) }
{
    match checked {
        Ok(()) => 0,
        Err(error) => error.setting().place(),
    }
}

/// Returns which setting a Class 1 set-up refuses: 0 if it gives 0; the place, 1 to 9, of the first setting out of its
/// range if it gives 3; the password's if it gives 8 (RULES, The legal record).
#[unsafe(no_mangle)]
pub extern "C" fn pj_which_setting<'a>(
    name: &'a [u8],
    maker: &'a [u8],
    model: &'a [u8],
    other: &'a [u8],
    password: &'a [u8],
    inputs: &'a [u8],
    lamps: &'a [u32],
    warm: u32,
    cool: u32,
) -> u32
    ensures { result ≡ setting_number (setting_told (set_up (wanted_of name.now maker.now model.now
        other.now password.now inputs.now lamps.now warm cool)).says) }
{
    let wanted = Wanted::for_class_1(
        name, maker, model, other, password, inputs, lamps, warm, cool,
    );
    number_of(wanted.check())
}

/// Returns which setting a Class 2 set-up refuses: 0 if it gives 0; the place, 1 to 12, of the first setting out of its
/// range if it gives 3; the password's if it gives 8.
#[unsafe(no_mangle)]
pub extern "C" fn pj_which_setting_2<'a>(
    name: &'a [u8],
    maker: &'a [u8],
    model: &'a [u8],
    other: &'a [u8],
    password: &'a [u8],
    inputs: &'a [u8],
    lamps: &'a [u32],
    warm: u32,
    cool: u32,
    serial: &'a [u8],
    version: &'a [u8],
    names: &'a [u8],
    lengths: &'a [usize],
) -> u32
    ensures { result ≡ setting_number (setting_told (set_up (wanted_of_2 name.now maker.now model.now
        other.now password.now inputs.now lamps.now warm cool serial.now
        version.now (names_in lengths.now names.now))).says) }
{
    let wanted = Wanted::for_class_1(
        name, maker, model, other, password, inputs, lamps, warm, cool,
    )
    .for_class_2(serial, version, names, lengths);
    number_of(wanted.check())
}
