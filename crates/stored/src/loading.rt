// Loading a stored form (RULES, Stored form and Lamps): the version, then whether the bytes end with the form, then
// what it says. The record is made where it lies, so that no copy of it is on the stack.
ghost use Rattle.std.specs.Prelude.{◌≡◌, ◌/◌, ◌==◌, ◌&&◌, ◌≤◌, true, map, length, IfErr, OnOk};
ghost use Rattle.std.specs.List.{list_all};
ghost use Rattle.std.specs.Result.{is_ok};
ghost use Rattle.text.specs.Flags.{is_flag, is_raised};
ghost use Rattle.text.specs.Outcomes.{with_record};
ghost use Rattle.record.specs.Limits.{lamps_most};
ghost use Rattle.record.specs.Record.{in_room, start_device};
ghost use Rattle.record.specs.Updates.{with_own, with_marks};
ghost use Rattle.record.specs.Facts.{IsLegal};
ghost use Rattle.record.specs.SetUp.{is_set_up};
ghost use Rattle.stored.specs.Sections.{seconds_in};
ghost use Rattle.stored.specs.Loading.{is_other_version, mark_room, are_marks};
ghost use Rattle.stored.specs.Loading.{contents, loaded_from};
ghost use Rattle.stored.specs.Views.{said_of};
ghost use Rattle.stored.specs.declared.error.LoadError.TheVariants.{NotLegal};

use crate::error::LoadError;
use crate::form::{Form, MARKED_VERSION, OLD_VERSION};
use crate::reader::FormReader;
use crate::storing::VERSION;
use numbers::highest;
use record::fresh;
use record::types::Device;
use setup::wanted::Wanted;
use text::{flag, rooms};
use words::lamp::LAMPS_MOST;

fn is_other_version(bytes: &[u8]) -> bool
    ensures { result ≡ is_other_version bytes.now }
{
    match bytes {
        [] => false,
        [version, ..] => *version != VERSION
            && *version != MARKED_VERSION
            && *version != OLD_VERSION,
    }
}

// The seconds of lamps, four bytes each, in their room.
#[tactic(auto, using(crate::proofs::Fields::seconds_copied))]
fn seconds_of(bytes: &[u8]) -> [u32; LAMPS_MOST]
    requires { length bytes.now / 4 ≤ lamps_most }
    ensures { result ≡ in_room lamps_most (seconds_in (length bytes.now / 4) bytes.now) }
{
    let mut list = [0u32; LAMPS_MOST];
    for (i, four) in bytes.as_chunks::<4>().0.iter().enumerate() {
        list[i] = highest::four_of(four);
    }
    list
}

// The marks that the bytes are, in their room.
#[tactic(auto, using(crate::proofs::Marks::flags_in_room))]
fn marks_of(bytes: &[u8]) -> [u8; LAMPS_MOST]
    requires few { length bytes.now ≤ lamps_most }
    requires flags { list_all is_flag bytes.now ≡ true }
    ensures { result ≡ mark_room (map is_raised bytes.now) }
{
    rooms::kept(bytes, 0)
}

// A flag for each of so many lamps.
fn are_mark_bytes(count: usize, bytes: &[u8]) -> bool
    ensures { result ≡ (length bytes.now == count && list_all is_flag bytes.now) }
{
    bytes.len() == count && flag::are_flags(bytes)
}

// The marks that the bytes are, if they are marks of its lamps, and whether they are: the record's own test says which
// marks are legal.
#[tactic(auto, using(crate::proofs::Marks::marks_are, record::proofs::FactsTold::own_is))]
fn enable(device: &mut Device, bytes: &[u8]) -> bool
    requires { IsLegal device.old }
    ensures legal { result ≡ are_marks device.old.settings.lamp_count bytes.now }
    ensures device { result ≡ true
        → device.new ≡ with_own device.old (with_marks device.old.own (mark_room (map is_raised bytes.now))) }
{
    if !are_mark_bytes(device.settings.lamp_count, bytes) {
        return false;
    }
    device.own.enabled = marks_of(bytes);
    device.own.is_legal(&device.settings)
}

impl<'a> Form<'a> {
    // The device that a set-up of what the form says gives. Lamps that are too many are not copied.
    #[tactic(auto, using(crate::proofs::Cases::not_set_up))]
    fn start(&self, device: &mut Device) -> Result<(), LoadError>
        ensures taken { is_ok result ≡ is_set_up (said_of self.now).settings }
        ensures made { OnOk result (device.new ≡ start_device (said_of self.now).settings) }
        ensures refused { IfErr result (λ e. e ≡ NotLegal) }
    {
        let Some(class) = self.class() else {
            return Err(LoadError::NotLegal);
        };
        let n = self.lamps.len() / 4;
        if LAMPS_MOST < n {
            return Err(LoadError::NotLegal);
        }
        let seconds = seconds_of(self.lamps);
        let wanted = Wanted {
            name: self.name,
            maker: self.maker,
            model: self.model,
            other: self.other,
            password: self.password,
            inputs: self.inputs,
            lamps: &seconds[0..n],
            warm: self.warm,
            cool: self.cool,
            class,
        };
        setup::set_up_in(device, &wanted).map_err(|_| LoadError::NotLegal)
    }

    // And with its marks: all set where it has none.
    #[tactic(auto, using(crate::proofs::Cases::said_contents))]
    fn load_in(&self, device: &mut Device) -> Result<(), LoadError>
        ensures says { result ≡ (contents (said_of self.now)).says }
        ensures device { OnOk result (device.new ≡ (contents (said_of self.now)).leaves) }
    {
        self.start(device)?;
        let Some(marks) = self.marks else {
            return Ok(());
        };
        if !enable(device, marks) {
            return Err(LoadError::NotLegal);
        }
        Ok(())
    }
}

// Where it is refused, what the record is then is not said.
#[tactic(auto, using(crate::proofs::Cases::loaded_early))]
fn read_in(device: &mut Device, bytes: &[u8]) -> Result<(), LoadError>
    ensures says { result ≡ (loaded_from bytes.now).says }
    ensures device { OnOk result (device.new ≡ (loaded_from bytes.now).leaves) }
{
    if is_other_version(bytes) {
        return Err(LoadError::OtherVersion);
    }
    let mut reader = FormReader::new(bytes);
    let form = reader.form()?;
    reader.end()?;
    form.load_in(device)
}

/// The record as a stored form has it, freshly set up: its lamps' seconds and marks are those of the form. The version
/// is tested first, then what is cut short, then what is left over, then the contents; where it is refused, the record
/// is the blank one (RULES, Stored form).
#[tactic(auto, using(crate::proofs::Results::load_refused))]
pub fn load_in(device: &mut Device, bytes: &[u8]) -> Result<(), LoadError>
    ensures says { result ≡ (loaded_from bytes.now).says }
    ensures device { device.new ≡ (loaded_from bytes.now).leaves }
{
    let Err(error) = read_in(device, bytes) else {
        return Ok(());
    };
    fresh::clear(device);
    Err(error)
}

/// The same, of a record of its own.
pub fn load(bytes: &[u8]) -> Result<Device, LoadError>
    ensures { result ≡ with_record (loaded_from bytes.now) }
{
    let mut device = fresh::blank();
    load_in(&mut device, bytes)?;
    Ok(device)
}
