// The same calls by value, for a host that keeps its record by copying: the record is given, and the changed one comes
// back. Each is its call in place on a copy.
ghost use Rattle.std.specs.Prelude.{◌≡◌};
ghost use Rattle.record.specs.Legal.{is_legal};
ghost use Rattle.ours.specs.Board.{ours};
ghost use Rattle.board.specs.Results.{received_of, opened_of, changed_of};

use crate::projector;
use crate::results::{Changed, OpenedByValue, Opening, ReceivedByValue, Receiving};
use record::types::Device;

/// Returns whether the record is legal, by value. Refuses nothing.
#[unsafe(no_mangle)]
pub extern "C" fn pj_legal(device: Device) -> bool
    ensures { result ≡ is_legal device }
{
    device.is_legal()
}

/// Opens a connection at the lowest closed place and writes the greeting to the start of `out`, by value. Errors, in
/// this order: 1, 2, 6.
#[unsafe(no_mangle)]
pub extern "C" fn pj_open(copy: Device, random: u32, out: &mut [u8]) -> OpenedByValue
    ensures says { result ≡ opened_of (ours.opening copy random out.old) (ours.place_opened copy random out.old) }
    ensures written { out.new ≡ (ours.opening copy random out.old).memory }
{
    let mut device = copy;
    let Opening {
        number,
        length,
        place,
    } = projector::pj_open_in_place(&mut device, random, out);
    OpenedByValue {
        number,
        length,
        place,
        device,
    }
}

/// Closes the connection at a place, by value. Errors, in this order: 1, 3, 4.
#[unsafe(no_mangle)]
pub extern "C" fn pj_close(copy: Device, place: usize) -> Changed
    ensures { result ≡ changed_of (ours.closing copy place) }
{
    let mut device = copy;
    let number = projector::pj_close_in_place(&mut device, place);
    Changed { number, device }
}

/// Takes bytes from the network at a place, up to and including the first CR, and writes the reply to the start of
/// `out`, by value. Errors, in this order, also for no bytes: 1, 2, 3, 4.
#[unsafe(no_mangle)]
pub extern "C" fn pj_receive(
    copy: Device,
    place: usize,
    bytes: &[u8],
    out: &mut [u8],
) -> ReceivedByValue
    ensures says { result ≡ received_of (ours.receive copy place bytes.now out.old) }
    ensures written { out.new ≡ (ours.receive copy place bytes.now out.old).memory }
{
    let mut device = copy;
    let Receiving {
        number,
        taken,
        length,
    } = projector::pj_receive_in_place(&mut device, place, bytes, out);
    ReceivedByValue {
        number,
        taken,
        length,
        device,
    }
}

/// Sets or clears the fault mark, by value. Error: 1 (`PJ_NOT_LEGAL`).
#[unsafe(no_mangle)]
pub extern "C" fn pj_set_fault(copy: Device, mark: bool) -> Changed
    ensures { result ≡ changed_of (ours.set_fault copy mark) }
{
    let mut device = copy;
    let number = projector::pj_set_fault_in_place(&mut device, mark);
    Changed { number, device }
}

/// Sets the six error digits, each 0 to 2, by value. Errors, in this order: 1, 3.
#[unsafe(no_mangle)]
pub extern "C" fn pj_set_errors(copy: Device, digits: &[u8]) -> Changed
    ensures { result ≡ changed_of (ours.set_errors copy digits.now) }
{
    let mut device = copy;
    let number = projector::pj_set_errors_in_place(&mut device, digits);
    Changed { number, device }
}

/// Sets or clears the enabled mark of a lamp, numbered from 0, by value. Errors, in this order: 1, 3, 7.
#[unsafe(no_mangle)]
pub extern "C" fn pj_set_mark(copy: Device, lamp: usize, enabled: bool) -> Changed
    ensures { result ≡ changed_of (ours.set_mark copy lamp enabled) }
{
    let mut device = copy;
    let number = projector::pj_set_mark_in_place(&mut device, lamp, enabled);
    Changed { number, device }
}

/// Lets `seconds` seconds pass, by value. Error: 1 (`PJ_NOT_LEGAL`).
#[unsafe(no_mangle)]
pub extern "C" fn pj_pass(copy: Device, seconds: u32) -> Changed
    ensures { result ≡ changed_of (ours.pass copy seconds) }
{
    let mut device = copy;
    let number = projector::pj_pass_in_place(&mut device, seconds);
    Changed { number, device }
}
