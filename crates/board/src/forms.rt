// The stored form: settings that survive a board swap (RULES, Stored form).
ghost use Rattle.std.specs.Prelude.{◌≡◌};
ghost use Rattle.ours.specs.Board.{ours};
ghost use Rattle.board.specs.Results.{changed_of, wrote_of};

use crate::results::Changed;
use crate::writer::Written;
use record::fresh;
use record::types::Device;
use stored::{loading, storing};
use text::numbered;

/// Writes the stored form of the record to the start of `out`. Errors, in this order: 1, 2.
#[unsafe(no_mangle)]
pub extern "C" fn pj_store_in_place(device: &Device, out: &mut [u8]) -> Written
    ensures says { result ≡ wrote_of (ours.store device.now out.old) }
    ensures written { out.new ≡ (ours.store device.now out.old).memory }
{
    Written::from(storing::store(device, out))
}

/// Writes the stored form of the record to the start of `out`, by value. Errors, in this order: 1, 2.
#[unsafe(no_mangle)]
pub extern "C" fn pj_store(device: Device, out: &mut [u8]) -> Written
    ensures says { result ≡ wrote_of (ours.store device out.old) }
    ensures written { out.new ≡ (ours.store device out.old).memory }
{
    Written::from(storing::store(&device, out))
}

/// Fills the record with the device of a stored form; with the blank record if the form is refused. Errors, in this
/// order: 20, 21, 22, 23.
#[unsafe(no_mangle)]
pub extern "C" fn pj_load_in_place(device: &mut Device, bytes: &[u8]) -> u32
    ensures number { result ≡ (ours.load bytes.now).number }
    ensures device { device.new ≡ (ours.load bytes.now).device }
{
    numbered::number_of(loading::load_in(device, bytes))
}

/// Returns the device of a stored form, by value; the blank record if the form is refused. Errors, in this order: 20,
/// 21, 22, 23.
#[unsafe(no_mangle)]
pub extern "C" fn pj_load(bytes: &[u8]) -> Changed
    ensures { result ≡ changed_of (ours.load bytes.now) }
{
    let mut changed = Changed {
        number: 0,
        device: fresh::blank(),
    };
    changed.number = pj_load_in_place(&mut changed.device, bytes);
    changed
}
