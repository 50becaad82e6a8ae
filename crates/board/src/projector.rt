// The projector's calls in place: each changes the host's record, and returns the rest of its result. A
// refused call leaves the record as it was.
ghost use Rattle.std.specs.Prelude.{◌≡◌};
ghost use Rattle.record.specs.Legal.{is_legal};
ghost use Rattle.ours.specs.Board.{ours};
ghost use Rattle.board.specs.Results.{receiving_of, opening_of};

use crate::results::{Opening, Receiving};
use ours::projector;
use record::types::Device;
use text::numbered;

/// Returns whether the record is legal. Refuses nothing.
#[unsafe(no_mangle)]
pub extern "C" fn pj_legal_in_place(device: &Device) -> bool
    ensures { result ≡ is_legal device.now }
{
    device.is_legal()
}

/// Opens a connection at the lowest closed place and writes the greeting to the start of `out`. Errors, in this order:
/// 1, 2, 6.
#[unsafe(no_mangle)]
pub extern "C" fn pj_open_in_place(device: &mut Device, random: u32, out: &mut [u8]) -> Opening
    ensures says { result ≡ opening_of (ours.opening device.old random out.old)
        (ours.place_opened device.old random out.old) }
    ensures device { device.new ≡ (ours.opening device.old random out.old).device }
    ensures reply { out.new ≡ (ours.opening device.old random out.old).memory }
{
    Opening::from(projector::open(device, random, out))
}

/// Closes the connection at a place. Errors, in this order: 1, 3, 4.
#[unsafe(no_mangle)]
pub extern "C" fn pj_close_in_place(device: &mut Device, place: usize) -> u32
    ensures number { result ≡ (ours.closing device.old place).number }
    ensures device { device.new ≡ (ours.closing device.old place).device }
{
    numbered::number_of(projector::close(device, place))
}

/// Takes bytes from the network at a place, up to and including the first CR, and writes the reply to the start of
/// `out`. Errors, in this order, also for no bytes: 1, 2, 3, 4.
#[unsafe(no_mangle)]
pub extern "C" fn pj_receive_in_place(
    device: &mut Device,
    place: usize,
    bytes: &[u8],
    out: &mut [u8],
) -> Receiving
    ensures says { result ≡ receiving_of (ours.receive device.old place bytes.now out.old) }
    ensures device { device.new ≡ (ours.receive device.old place bytes.now out.old).device }
    ensures reply { out.new ≡ (ours.receive device.old place bytes.now out.old).memory }
{
    Receiving::from(projector::receive(device, place, bytes, out))
}

/// Sets or clears the fault mark. Returns 0, or 1 (`PJ_NOT_LEGAL`).
#[unsafe(no_mangle)]
pub extern "C" fn pj_set_fault_in_place(device: &mut Device, mark: bool) -> u32
    ensures number { result ≡ (ours.set_fault device.old mark).number }
    ensures device { device.new ≡ (ours.set_fault device.old mark).device }
{
    numbered::number_of(projector::set_fault(device, mark))
}

/// Sets the six error digits, each 0 to 2. Errors, in this order: 1, 3.
#[unsafe(no_mangle)]
pub extern "C" fn pj_set_errors_in_place(device: &mut Device, digits: &[u8]) -> u32
    ensures number { result ≡ (ours.set_errors device.old digits.now).number }
    ensures device { device.new ≡ (ours.set_errors device.old digits.now).device }
{
    numbered::number_of(projector::set_errors(device, digits))
}

/// Sets or clears the enabled mark of a lamp, numbered from 0. Errors, in this order: 1, 3, 7.
#[unsafe(no_mangle)]
pub extern "C" fn pj_set_mark_in_place(device: &mut Device, lamp: usize, enabled: bool) -> u32
    ensures number { result ≡ (ours.set_mark device.old lamp enabled).number }
    ensures device { device.new ≡ (ours.set_mark device.old lamp enabled).device }
{
    numbered::number_of(projector::set_mark(device, lamp, enabled))
}

/// Lets `seconds` seconds pass. Returns 0, or 1 (`PJ_NOT_LEGAL`).
#[unsafe(no_mangle)]
pub extern "C" fn pj_pass_in_place(device: &mut Device, seconds: u32) -> u32
    ensures number { result ≡ (ours.pass device.old seconds).number }
    ensures device { device.new ≡ (ours.pass device.old seconds).device }
{
    numbered::number_of(projector::pass(device, seconds))
}
