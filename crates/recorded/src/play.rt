// One call of a history, made again. The record comes with the result of its one test, and no record is tested here.
ghost use Rattle.std.specs.Prelude.{◌≡◌, ◌==◌};
ghost use Rattle.text.specs.Words.{over};
ghost use Rattle.device.specs.Calls.{reply_room, received_at, opened_by};
ghost use Rattle.ours.specs.Board.{ours};
ghost use Rattle.demands.specs.Calls.{after};
ghost use Rattle.history.specs.Calls.{call_seen, opens, receives};
ghost use Rattle.recorded.specs.Recorded.{replied_by};
ghost use Rattle.recorded.specs.Playing.{played_call};
ghost use Rattle.recorded.specs.Played.{call_told, play_told, quiet_told};

use clock::pass;
use device::calls;
use device::calls::REPLY_ROOM;
use history::call::RecordedCall;
use record::legality::{Legal, Tested};
use record::refusal::Refusal;
use std::error::Error;
use std::fmt;

/// Why a call of a history does not belong to a record.
#[derive(Clone, Copy, Debug, PartialEq, Eq)]
pub enum Stray {
    /// It is refused.
    Refused(Refusal),
    /// It is an opening that got another place than was recorded, and has it now.
    OtherPlace,
}

// The words for an opening that got another place.
pub(crate) const OTHER_PLACE: &str = "another place was opened";

impl fmt::Display for Stray {
    fn fmt<W: fmt::Write>(&self, f: &mut fmt::Formatter<W>) -> fmt::Result {
        match self {
            Stray::Refused(refusal) => write!(f, "{refusal}"),
            Stray::OtherPlace => f.write_str(OTHER_PLACE),
        }
    }
}

impl Error for Stray {}

fn is_recorded(got: usize, place: u8) -> bool
    ensures { result ≡ (got == place) }
{
    got == place as usize
}

fn open(
    legal: &mut Legal<'_>,
    place: u8,
    random: u32,
    reply: &mut [u8; REPLY_ROOM],
) -> Result<usize, Stray>
    ensures same_reference { legal.new.device.ghost_name ≡ legal.old.device.ghost_name }
    ensures told { play_told result ≡ call_told legal.old.device.now (opens place random) }
    ensures device { legal.new.device.now ≡ (opened_by legal.old.device.now random reply_room).leaves }
    ensures reply { reply.new ≡ over (opened_by legal.old.device.now random reply_room).bytes reply.old }
{
    match calls::open(legal, random, reply) {
        Ok(opened) if is_recorded(opened.place, place) => Ok(opened.length),
        Ok(_) => Err(Stray::OtherPlace),
        Err(refusal) => Err(Stray::Refused(refusal)),
    }
}

fn receive(
    legal: &mut Legal<'_>,
    place: u8,
    bytes: &[u8],
    reply: &mut [u8; REPLY_ROOM],
) -> Result<usize, Stray>
    ensures same_reference { legal.new.device.ghost_name ≡ legal.old.device.ghost_name }
    ensures told { play_told result ≡ call_told legal.old.device.now (receives place bytes.now) }
    ensures device { legal.new.device.now ≡ (received_at legal.old.device.now place bytes.now reply_room).leaves }
    ensures reply { reply.new ≡ over (received_at legal.old.device.now place bytes.now reply_room).bytes reply.old }
{
    match calls::receive(legal, place as usize, bytes, reply) {
        Ok(received) => Ok(received.length),
        Err(refusal) => Err(Stray::Refused(refusal)),
    }
}

// A call that replies nothing.
fn quiet(told: Result<(), Refusal>) -> Result<usize, Stray>
    ensures { play_told result ≡ quiet_told told }
{
    match told {
        Ok(()) => Ok(0),
        Err(refusal) => Err(Stray::Refused(refusal)),
    }
}

fn play_legal(
    legal: &mut Legal<'_>,
    call: &RecordedCall<'_>,
    reply: &mut [u8; REPLY_ROOM],
) -> Result<usize, Stray>
    ensures same_reference { legal.new.device.ghost_name ≡ legal.old.device.ghost_name }
    ensures told { play_told result ≡ call_told legal.old.device.now (call_seen call.now) }
    ensures device { legal.new.device.now ≡ after ours legal.old.device.now (played_call (call_seen call.now)) }
    ensures reply { reply.new ≡ over (replied_by legal.old.device.now (played_call (call_seen call.now))) reply.old }
{
    match call {
        RecordedCall::Opens(place, random) => open(legal, *place, *random, reply),
        RecordedCall::Receives(place, bytes) => receive(legal, *place, bytes, reply),
        RecordedCall::Passes(seconds) => {
            pass::pass(legal, *seconds);
            Ok(0)
        }
        RecordedCall::Closes(place) => quiet(calls::close(legal, *place as usize)),
        RecordedCall::Fault(mark) => {
            legal.set_fault(*mark);
            Ok(0)
        }
        RecordedCall::Errors(status) => quiet(legal.set_errors(&status.digits)),
        RecordedCall::Mark(lamp, mark) => quiet(legal.set_mark(*lamp as usize, *mark)),
    }
}

/// Makes a call of a history again. Returns the length of its reply, which fills the start of `reply`. Errors:
/// `Refused` with why the call is refused, which leaves record and memory as they were; `OtherPlace` for an opening
/// that gets another place than its line says: the record is then as the opening left it.
pub fn play(
    tested: &mut Tested,
    call: &RecordedCall<'_>,
    reply: &mut [u8; REPLY_ROOM],
) -> Result<usize, Stray>
    ensures told { play_told result ≡ call_told tested.old.device (call_seen call.now) }
    ensures device { tested.new.device ≡ after ours tested.old.device (played_call (call_seen call.now)) }
    ensures reply { reply.new ≡ over (replied_by tested.old.device (played_call (call_seen call.now))) reply.old }
{
    if tested.legal {
        let mut legal = Legal {
            device: &mut tested.device,
        };
        return play_legal(&mut legal, call, reply);
    }
    Err(Stray::Refused(Refusal::NotLegal))
}
