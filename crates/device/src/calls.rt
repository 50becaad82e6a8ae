// The calls on a legal record (RULES, Connection): each changes it where it lies, and leaves it and the reply memory as
// they were where it refuses.
ghost use Rattle.std.specs.Prelude.{◌≡◌, ◌≤◌, length};
ghost use Rattle.text.specs.Words.{over};
ghost use Rattle.device.specs.Calls.{received_at, opened_by, closed_by, greeting, new_connection};
ghost use Rattle.device.specs.Outcomes.{received_said, opened_said};

use crate::{places, receiving};
use pjlink::greeting::Greeting;
use record::legality::Legal;
use record::refusal::Refusal;
use record::types::{Connection, PLACES, Settings};
use record::views::Phase;
use words::codec::LineBytes;

/// Room for the longest reply that the standard allows.
pub const REPLY_ROOM: usize = 136;

/// What receiving took of the bytes, and the length of the reply: it fills the start of the lent memory.
#[derive(Clone, Copy)]
pub struct Received {
    /// Bytes taken: up to and including the first CR, or all where there is none.
    pub taken: usize,
    /// Bytes of the reply; 0 where none is due.
    pub length: usize,
}

/// The place that a new connection has, and the length of the greeting.
#[derive(Clone, Copy)]
pub struct Opened {
    /// The lowest place that was closed, 0 to 3 (RULES, Places).
    pub place: usize,
    /// Bytes of the greeting, which fills the start of the lent memory.
    pub length: usize,
}

/// Takes bytes from the network at a place: up to and including the first CR, or all. Refused, even for no bytes:
/// `NoRoom` for less than 136 bytes of memory, `OutOfRange` for no such place, `Closed`, in that order.
#[tactic(auto, unfolding(crate::specs::Calls::received_at))]
pub fn receive(
    legal: &mut Legal<'_>,
    place: usize,
    bytes: &[u8],
    out: &mut [u8],
) -> Result<Received, Refusal>
    ensures same_reference { legal.new.device.ghost_name ≡ legal.old.device.ghost_name }
    ensures says { result ≡ received_said (received_at legal.old.device.now place bytes.now (length out.old)) }
    ensures device { legal.new.device.now ≡ (received_at legal.old.device.now place bytes.now (length out.old)).leaves }
    ensures reply { out.new ≡ over (received_at legal.old.device.now place bytes.now (length out.old)).bytes
        out.old }
{
    let device = &mut *legal.device;
    if out.len() < REPLY_ROOM {
        return Err(Refusal::NoRoom);
    }
    if PLACES <= place {
        return Err(Refusal::OutOfRange);
    }
    if places::is_closed(&device.connections[place]) {
        return Err(Refusal::Closed);
    }
    let mut reply = LineBytes::new();
    let taken = receiving::take_in(
        &device.settings,
        &mut device.own,
        &mut device.connections[place],
        bytes,
        &mut reply,
    );
    Ok(Received {
        taken,
        length: lend(&reply, out),
    })
}

// The line from the start of the lent memory; its length.
#[tactic(auto, using(text::proofs::Stores::sets_over))]
fn lend(line: &LineBytes, out: &mut [u8]) -> usize
    requires { REPLY_ROOM ≤ length out.old }
    ensures length { result ≡ length line.now.items }
    ensures memory { out.new ≡ over line.now.items out.old }
{
    text::put(out, 0, line.as_slice());
    line.len()
}

#[tactic(auto, unfolding(crate::specs::Calls::greeting))]
fn greeting(s: &Settings, random: u32) -> LineBytes
    ensures { result.items ≡ greeting s.now random }
{
    let greeting = if s.password.len == 0 {
        Greeting::Open
    } else {
        Greeting::Secured(random)
    };
    let mut line = LineBytes::new();
    greeting.put(&mut line);
    line
}

// The connection as a greeting leaves it: open where there is no password, else awaiting the digest.
#[tactic(auto, unfolding(crate::specs::Calls::new_connection))]
fn greet(s: &Settings, random: u32, c: &mut Connection)
    ensures { c.new ≡ new_connection s.now random }
{
    let phase = if s.password.len == 0 {
        Phase::Open { random }
    } else {
        Phase::Awaiting { age: 0, random }
    };
    receiving::turn(c, phase);
}

/// Opens a connection at the lowest closed place, with the random number that the host lends. Refused: `NoRoom` for
/// less than 136 bytes of memory, `NoPlace` where none is closed, in that order.
#[tactic(auto, unfolding(crate::specs::Calls::opened_by))]
pub fn open(legal: &mut Legal<'_>, random: u32, out: &mut [u8]) -> Result<Opened, Refusal>
    ensures same_reference { legal.new.device.ghost_name ≡ legal.old.device.ghost_name }
    ensures says { result ≡ opened_said (opened_by legal.old.device.now random (length out.old)) }
    ensures device { legal.new.device.now ≡ (opened_by legal.old.device.now random (length out.old)).leaves }
    ensures reply { out.new ≡ over (opened_by legal.old.device.now random (length out.old)).bytes out.old }
{
    let device = &mut *legal.device;
    if out.len() < REPLY_ROOM {
        return Err(Refusal::NoRoom);
    }
    let place = places::lowest_closed(&device.connections);
    if PLACES <= place {
        return Err(Refusal::NoPlace);
    }
    let length = lend(&greeting(&device.settings, random), out);
    greet(&device.settings, random, &mut device.connections[place]);
    Ok(Opened { place, length })
}

/// Closes the connection at a place. Refused: `OutOfRange` for no such place, `Closed`, in that order.
#[tactic(auto, unfolding(crate::specs::Calls::closed_by))]
pub fn close(legal: &mut Legal<'_>, place: usize) -> Result<(), Refusal>
    ensures same_reference { legal.new.device.ghost_name ≡ legal.old.device.ghost_name }
    ensures says { result ≡ (closed_by legal.old.device.now place).says }
    ensures device { legal.new.device.now ≡ (closed_by legal.old.device.now place).leaves }
{
    let device = &mut *legal.device;
    if PLACES <= place {
        return Err(Refusal::OutOfRange);
    }
    if places::is_closed(&device.connections[place]) {
        return Err(Refusal::Closed);
    }
    device.connections[place] = Connection::CLOSED;
    Ok(())
}
