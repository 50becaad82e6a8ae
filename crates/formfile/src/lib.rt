// The device that a log begins with, and the checksum that its history begins with (RULES, History of a board): those
// of the sample set-up, or of a stored form in a file (RULES, Stored form).
#![tactic(auto)]

#[cfg(test)]
mod tests;

ghost use Rattle.std.specs.Prelude.{◌≡◌, ℕ, List, take, IfSome, true};
ghost use Rattle.record.specs.Legal.{is_legal};
ghost use Rattle.record.specs.declared.types.Device.{Device};
ghost use Rattle.crc32.specs.Crc.{crc32_of};
ghost use Rattle.stored.specs.Form.{stored_form};
ghost use Rattle.floorlog.specs.Playing.{sample_device};
ghost use Rattle.formfile.specs.Begun.{IsBegun, form_room, IsBegunBy, IsReadBy};

use crc32::crc32;
use record::types::Device;
use std::alloc::Global;
use std::fmt;
use std::fs::File;
use std::io::{Error, Read};
use stored::error::LoadError;
use stored::storing::FORM_MOST;
use stored::{loading, storing};

// One byte more than the longest form that its counts, a byte each, can ask for, legal or not: a file that fills this
// has bytes left over.
const FILE_ROOM: u64 = 68867;

/// What a log begins with.
#[derive(Drop)]
pub struct Begun {
    /// The device.
    pub device: Device,
    /// The CRC-32 of its stored form.
    pub sum: u32,
}

/// Why there is no device to begin with.
#[derive(Debug, Drop)]
pub enum NotBegun {
    /// The form could not be read to its end.
    Unread(Error),
    /// The form does not load.
    Refused(LoadError),
}

impl fmt::Display for NotBegun {
    fn fmt<W: fmt::Write>(&self, f: &mut fmt::Formatter<W>) -> fmt::Result {
        match self {
            NotBegun::Unread(error) => write!(f, "the form is not read: {error}"),
            NotBegun::Refused(error) => write!(f, "{error}"),
        }
    }
}

impl std::error::Error for NotBegun {}

impl From<Error> for NotBegun {
    ghost use Rattle.formfile.specs.declared.NotBegun.TheVariants.{Unread};

    ghost from_gives = { λ error why. why ≡ Unread error };

    fn from(error: Error) -> NotBegun {
        NotBegun::Unread(error)
    }
}

// Returns the CRC-32 of the stored form of a legal record.
#[tactic(auto, using(stored::proofs::FormMost::stored_fits, crate::proofs::FormSum::form_first))]
fn form_sum(device: &Device) -> u32
    requires { is_legal device.now ≡ true }
    ensures { result ≡ crc32_of (stored_form device.now) }
{
    let mut form = [0u8; FORM_MOST];
    let length = storing::put_form(device, &mut form);
    crc32(&form[..length])
}

/// Returns the sample set-up, and the sum of its stored form.
pub fn sample() -> Begun
    ensures device { result.device ≡ sample_device }
    ensures legal { is_legal result.device ≡ true }
    ensures sum { result.sum ≡ crc32_of (stored_form sample_device) }
{
    let device = floorlog::sample();
    let sum = form_sum(&device);
    Begun { device, sum }
}

// Loads the bytes that were read of a form.
#[tactic(auto, using(crate::proofs::FormBegun::loaded_is_legal))]
fn loaded(bytes: &[u8]) -> Result<Begun, NotBegun>
    ensures begun { IsBegun result }
    ensures by_form { (form : List ℕ) → bytes.now ≡ take form_room form → IsBegunBy form result }
{
    match loading::load(bytes) {
        Ok(device) => Ok(Begun {
            device,
            sum: crc32(bytes),
        }),
        Err(error) => Err(NotBegun::Refused(error)),
    }
}

/// Returns the device of the form that is left in a reader. Errors: `Unread` with the reader's error, after any bytes;
/// `Refused` with why the form does not load.
pub fn read_from<R: Read + Drop>(mut from: R, alloc: Global) -> Result<Begun, NotBegun>
    ensures begun { IsBegun result }
    ensures by_form { IfSome (R.remaining from) (λ form. IsReadBy form result) }
{
    let mut bytes = Vec::new(alloc);
    (&mut from).take(FILE_ROOM).read_to_end(&mut bytes)?;
    // a read that fails after these bytes is reported too
    let mut more = [0u8; 1];
    from.read(&mut more)?;
    loaded(&bytes)
}

/// Returns the device of the form in the file with that name; without a name the sample set-up. Errors as for
/// [`read_from`].
pub fn begin_by(rt: &HostRuntime, name: Option<&str>) -> Result<Begun, NotBegun>
    ensures { IsBegun result }
{
    match name {
        None => Ok(sample()),
        Some(name) => read_from(File::open(rt, name)?, rt.alloc()),
    }
}
