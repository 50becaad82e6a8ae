// The calls of a host that names the connection, and not its place alone (RULES, The C face): a place is closed by time
// and opened again, and bytes of its old socket do not belong to the new connection.
ghost use Rattle.std.specs.Prelude.{◌≡◌, ◌<◌, ◌&&◌};
ghost use Rattle.record.specs.Limits.{places_count};
ghost use Rattle.record.specs.Places.{connection_at, is_closed};
ghost use Rattle.record.specs.Refusals.{refusal_number};
ghost use Rattle.ours.specs.Board.{ours};
ghost use Rattle.ours.specs.Tied.{given_as, received_as};
ghost use Rattle.board.specs.Results.{receiving_of};
ghost use Rattle.board.specs.Sessions.{is_session, session_received};
ghost use Rattle.board.specs.Sessions.{session_closed, bit_where, is_live, passing_of};

use crate::projector;
use crate::results::Receiving;
use device::calls;
use device::calls::{REPLY_ROOM, Received};
use record::connection::PHASE_CLOSED;
use record::legality::Legal;
use record::refusal::Refusal;
use record::types::{Device, PLACES};
use text::numbered;

/// What passing time returns besides the record: its number, and the places that it closed.
#[repr(C)]
#[derive(Clone, Copy)]
pub struct Passing {
    /// 0, or the number of the refusal: 1 (RULES, The numbers a call gives).
    pub number: u32,
    /// Bit p, of value 2 to the p: this call closed the connection at place p. 0 with a refusal.
    pub closed: u32,
}

// Whether the connection at a place that there is is not closed.
fn is_live(device: &Device, place: usize) -> bool
    requires { place < places_count }
    ensures { result ≡ is_live (connection_at device.now place) }
{
    device.connections[place].phase != PHASE_CLOSED
}

// Whether the connection at a place that there is was opened with that number, and is not closed since.
fn is_session(device: &Device, place: usize, random: u32) -> bool
    requires { place < places_count }
    ensures { result ≡ is_session device.now place random }
{
    is_live(device, place) && device.connections[place].random == random
}

// Receiving in a session.
#[tactic(auto, using(ours::proofs::Returned::returned))]
fn receive(
    device: &mut Device,
    place: usize,
    random: u32,
    bytes: &[u8],
    out: &mut [u8],
) -> Result<Received, Refusal>
    ensures { received_as result device.new out.new ≡ session_received device.old place random bytes.now out.old }
{
    let legal = &mut Legal::of(device)?;
    if out.len() < REPLY_ROOM {
        return Err(Refusal::NoRoom);
    }
    if PLACES <= place {
        return Err(Refusal::OutOfRange);
    }
    if !is_session(legal.device, place, random) {
        return Err(Refusal::Closed);
    }
    calls::receive(legal, place, bytes, out)
}

// Closing a session.
fn close(device: &mut Device, place: usize, random: u32) -> Result<(), Refusal>
    ensures { given_as refusal_number result device.new ≡ session_closed device.old place random }
{
    let legal = &mut Legal::of(device)?;
    if PLACES <= place {
        return Err(Refusal::OutOfRange);
    }
    if !is_session(legal.device, place, random) {
        return Err(Refusal::Closed);
    }
    calls::close(legal, place)
}

/// Takes bytes from the network for the connection at this place that was opened with this random number, as
/// `pj_receive_in_place` does. Errors, in this order, also for no bytes: 1, 2, 3; 4 if the connection there is closed,
/// or was opened with another number.
#[unsafe(no_mangle)]
pub extern "C" fn pj_receive_session_in_place(
    device: &mut Device,
    place: usize,
    random: u32,
    bytes: &[u8],
    out: &mut [u8],
) -> Receiving
    ensures says { result ≡ receiving_of (session_received device.old place random bytes.now out.old) }
    ensures device { device.new ≡ (session_received device.old place random bytes.now out.old).device }
    ensures reply { out.new ≡ (session_received device.old place random bytes.now out.old).memory }
{
    Receiving::from(receive(device, place, random, bytes, out))
}

/// Closes the connection at this place that was opened with this random number. Errors, in this order: 1, 3; 4 if the
/// connection there is closed, or was opened with another number.
#[unsafe(no_mangle)]
pub extern "C" fn pj_close_session_in_place(device: &mut Device, place: usize, random: u32) -> u32
    ensures number { result ≡ (session_closed device.old place random).number }
    ensures device { device.new ≡ (session_closed device.old place random).device }
{
    numbered::number_of(close(device, place, random))
}

// The bit of a place that is closed now, if it was live.
fn bit_of(was: bool, device: &Device, place: usize, bit: u32) -> u32
    requires { place < places_count }
    ensures { result ≡ bit_where (was && is_closed (connection_at device.now place)) bit }
{
    if was && !is_live(device, place) {
        bit
    } else {
        0
    }
}

/// Lets `seconds` seconds pass, as `pj_pass_in_place` does, and returns the places whose connection this closed. Error:
/// 1.
#[unsafe(no_mangle)]
pub extern "C" fn pj_pass_telling_in_place(device: &mut Device, seconds: u32) -> Passing
    ensures says { result ≡ passing_of device.old (ours.pass device.old seconds) }
    ensures device { device.new ≡ (ours.pass device.old seconds).device }
{
    let first = is_live(device, 0);
    let second = is_live(device, 1);
    let third = is_live(device, 2);
    let fourth = is_live(device, 3);
    let number = projector::pj_pass_in_place(device, seconds);
    let closed = bit_of(first, device, 0, 1)
        + bit_of(second, device, 1, 2)
        + bit_of(third, device, 2, 4)
        + bit_of(fourth, device, 3, 8);
    Passing { number, closed }
}
