// Set-up (RULES, The legal record): each setting is tested, then kept.
#![tactic(auto)]

pub mod fill;
pub mod names;
pub mod theorems;
pub mod wanted;

ghost use Rattle.std.specs.Prelude.{◌≡◌, true, []};
ghost use Rattle.text.specs.Outcomes.{served_as, with_record};
ghost use Rattle.record.specs.Record.{settings_of};
ghost use Rattle.record.specs.SetUp.{is_set_up, set_up};
ghost use Rattle.setup.specs.Lent.{wanted_settings};

use crate::wanted::Wanted;
use record::set_up_error::SetUpError;
use record::types::{Device, Settings};
use record::{class, fresh};

// Writes the settings, each where it is in the record.
#[tactic(auto, using(crate::proofs::Fits::fits))]
fn keep_settings(settings: &mut Settings, wanted: &Wanted<'_>)
    requires { is_set_up (wanted_settings wanted.now) ≡ true }
    ensures { settings.new ≡ settings_of (wanted_settings wanted.now) }
{
    let class = wanted.class.number();
    let input_count = wanted.inputs.len() / 2;
    settings.name = fill::text_of(wanted.name);
    settings.maker = fill::text_of(wanted.maker);
    settings.model = fill::text_of(wanted.model);
    settings.other = fill::text_of(wanted.other);
    settings.password = fill::text_of(wanted.password);
    settings.input_count = input_count;
    settings.inputs = fill::input_room(wanted.inputs);
    settings.lamp_count = wanted.lamps.len();
    settings.warm = wanted.warm;
    settings.cool = wanted.cool;
    settings.class_number = class;
    settings.serial = fill::text_of(wanted.class.serial());
    settings.version = fill::text_of(wanted.class.version());
    fill::keep_names(
        &mut settings.names,
        &wanted.class.names(),
        class::only_in_2(class, input_count),
    );
}

/// Sets up the record with settings that can be set up (`Wanted::check`): off, each lamp enabled, every place closed.
#[tactic(auto, using(crate::proofs::Fits::lamps_fit, record::proofs::Calls::set_up_made))]
pub fn start_in(device: &mut Device, wanted: &Wanted<'_>)
    requires { is_set_up (wanted_settings wanted.now) ≡ true }
    ensures { served_as tt [] device.new ≡ set_up (wanted_settings wanted.now) }
{
    keep_settings(&mut device.settings, wanted);
    device.own = fill::start_own(wanted.lamps);
    device.connections = fresh::all_closed();
}

/// Sets up the record: off, each lamp enabled, every place closed. Errors, in this order: a setting is out of its
/// range; the password is too short. Then the record is the blank one (RULES, The numbers a call gives and Passwords).
#[tactic(auto, using(crate::proofs::Refusals::outcomes))]
pub fn set_up_in(device: &mut Device, wanted: &Wanted<'_>) -> Result<(), SetUpError>
    ensures says { result ≡ (set_up (wanted_settings wanted.now)).says }
    ensures device { device.new ≡ (set_up (wanted_settings wanted.now)).leaves }
{
    if let Err(error) = wanted.check() {
        fresh::clear(device);
        return Err(error);
    }
    start_in(device, wanted);
    Ok(())
}

/// Returns a new record that is set up. Errors as for `set_up_in`.
pub fn set_up(wanted: &Wanted<'_>) -> Result<Device, SetUpError>
    ensures { result ≡ with_record (set_up (wanted_settings wanted.now)) }
{
    let mut device = fresh::blank();
    set_up_in(&mut device, wanted)?;
    Ok(device)
}
