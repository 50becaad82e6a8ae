// `ours`'s set-up, and the calls on any record that is lent: each tests it, and makes the call on the legal one. Of a
// record that is lent: what the call says, what lies there afterwards, and the memory.
ghost use Rattle.std.specs.Prelude.{◌≡◌};
ghost use Rattle.text.specs.Outcomes.{answer_number};
ghost use Rattle.record.specs.Refusals.{refusal_number};
ghost use Rattle.setup.specs.Lent.{wanted_settings};
ghost use Rattle.record.specs.SetUpErrors.{set_up_error_number};
ghost use Rattle.ours.specs.Board.{ours};
ghost use Rattle.ours.specs.Tied.{given_as, made_as, received_as, opened_as};

use clock::pass;
use device::calls;
use device::calls::{Opened, Received};
use record::legality::Legal;
use record::refusal::Refusal;
use record::set_up_error::SetUpError;
use record::types::Device;
use setup::wanted::Wanted;

/// Sets a projector up: what `ours.set_up` says. Refused as `setup::set_up` does.
#[tactic(auto, using(crate::proofs::Returned::set_up_returned))]
pub fn set_up(wanted: &Wanted<'_>) -> Result<Device, SetUpError>
    ensures { made_as set_up_error_number result ≡ ours.set_up (wanted_settings wanted.now) }
{
    setup::set_up(wanted)
}

/// Opens a connection at the lowest closed place: what `ours.opening` says, at the place of `ours.place_opened`.
/// Refused: `NotLegal`, then as `calls::open` does.
#[tactic(auto, using(device::proofs::Illegal::opened_illegal, crate::proofs::Returned::returned))]
pub fn open(device: &mut Device, random: u32, out: &mut [u8]) -> Result<Opened, Refusal>
    ensures lent { opened_as result device.new out.new ≡ ours.opening device.old random out.old }
    ensures place { answer_number (λ o. o.place) result ≡ ours.place_opened device.old random out.old }
{
    calls::open(&mut Legal::of(device)?, random, out)
}

/// Closes the connection at a place: what `ours.closing` says. Refused: `NotLegal`, then as `calls::close` does.
#[tactic(auto, using(device::proofs::Illegal::closed_illegal))]
pub fn close(device: &mut Device, place: usize) -> Result<(), Refusal>
    ensures { given_as refusal_number result device.new ≡ ours.closing device.old place }
{
    calls::close(&mut Legal::of(device)?, place)
}

/// Takes bytes from the network at a place: what `ours.receive` says. Refused: `NotLegal`, then as `calls::receive`
/// does.
#[tactic(auto, using(device::proofs::Illegal::received_illegal, crate::proofs::Returned::returned))]
pub fn receive(
    device: &mut Device,
    place: usize,
    bytes: &[u8],
    out: &mut [u8],
) -> Result<Received, Refusal>
    ensures { received_as result device.new out.new ≡ ours.receive device.old place bytes.now out.old }
{
    calls::receive(&mut Legal::of(device)?, place, bytes, out)
}

/// Lets so many seconds pass: what `ours.pass` says. Refused: `NotLegal`.
#[tactic(auto, using(clock::proofs::Cases::passed_illegal))]
pub fn pass(device: &mut Device, seconds: u32) -> Result<(), Refusal>
    ensures { given_as refusal_number result device.new ≡ ours.pass device.old seconds }
{
    pass::pass(&mut Legal::of(device)?, seconds);
    Ok(())
}

/// Sets the fault mark: what `ours.set_fault` says. Refused: `NotLegal`.
#[tactic(auto, using(record::proofs::Calls::fault_illegal))]
pub fn set_fault(device: &mut Device, mark: bool) -> Result<(), Refusal>
    ensures { given_as refusal_number result device.new ≡ ours.set_fault device.old mark }
{
    Legal::of(device)?.set_fault(mark);
    Ok(())
}

/// Sets the error status: what `ours.set_errors` says. Refused: `NotLegal`, then as `Legal::set_errors` does.
#[tactic(auto, using(record::proofs::Calls::errors_illegal))]
pub fn set_errors(device: &mut Device, digits: &[u8]) -> Result<(), Refusal>
    ensures { given_as refusal_number result device.new ≡ ours.set_errors device.old digits.now }
{
    Legal::of(device)?.set_errors(digits)
}

/// Sets a lamp's enabled mark: what `ours.set_mark` says. Refused: `NotLegal`, then as `Legal::set_mark` does.
#[tactic(auto, using(record::proofs::Calls::mark_not_legal))]
pub fn set_mark(device: &mut Device, lamp: usize, mark: bool) -> Result<(), Refusal>
    ensures { given_as refusal_number result device.new ≡ ours.set_mark device.old lamp mark }
{
    Legal::of(device)?.set_mark(lamp, mark)
}
