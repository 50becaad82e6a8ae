// One event of a log: what it does, and what is printed for it. The record was tested where the log began; no record is
// tested here.
ghost use Rattle.std.specs.Prelude.{◌≡◌, List, [], ℕ, Some};
ghost use Rattle.text.specs.Words.{over};
ghost use Rattle.text.specs.Outcomes.{call_number};
ghost use Rattle.record.specs.Refusals.{refusal_number};
ghost use Rattle.device.specs.Calls.{reply_room, received_at, closed_by};
ghost use Rattle.floorlog.specs.Outcomes.{outcome_text, answer_of, IsReplyWithin};
ghost use Rattle.floorlog.specs.Events.{event_said};
ghost use Rattle.floorlog.specs.Doing.{log_place, with_numbers, opened_in_log, event_result, outcome, event_number};
ghost use Rattle.floorlog.specs.Doing.{result_text, event_answer, printed_line};
ghost use Rattle.floorlog.specs.Told.{seconds_of, Drives};

use crate::outcome::{EventOutcome, Printed};
use clock::pass;
use device::calls;
use device::calls::REPLY_ROOM;
use record::connection::PHASE_CLOSED;
use record::legality::{Legal, Tested};
use record::refusal::Refusal;

/// An event of a log, one a line.
#[derive(Clone, Copy)]
pub enum Event<'a> {
    /// A connection opens, with this random number.
    Opens(u32),
    /// These bytes are received.
    Receives(&'a [u8]),
    /// This many seconds pass.
    Passes(u32),
    /// The connection closes.
    Closes,
    /// The line has none of these forms. Nothing happens.
    NoSuch,
}

/// The place at which a log's events happen (RULES, Floor log).
pub const LOG_PLACE: usize = 0;

// Opens a connection at that place, if it is closed: then it is the lowest closed place, which the device takes.
#[tactic(auto, using(crate::proofs::LogOpenings::log_opened_again, crate::proofs::LogOpenings::log_opened_closed))]
fn open(legal: &mut Legal<'_>, random: u32, reply: &mut [u8; REPLY_ROOM]) -> EventOutcome
    ensures same_reference { legal.new.device.ghost_name ≡ legal.old.device.ghost_name }
    ensures within { IsReplyWithin result reply_room }
    ensures text { outcome_text result reply.new ≡ outcome (opened_in_log legal.old.device.now random) }
    ensures answer { answer_of result ≡ Some (event_number (opened_in_log legal.old.device.now random)) }
    ensures device { legal.new.device.now ≡ (opened_in_log legal.old.device.now random).leaves }
    ensures reply { reply.new ≡ over (opened_in_log legal.old.device.now random).bytes reply.old }
{
    if legal.device.connections[LOG_PLACE].phase != PHASE_CLOSED {
        return EventOutcome::AlreadyOpen;
    }
    match calls::open(legal, random, reply) {
        Ok(opened) => EventOutcome::Served(opened.length),
        Err(refusal) => EventOutcome::Refused(refusal),
    }
}

fn receive(legal: &mut Legal<'_>, bytes: &[u8], reply: &mut [u8; REPLY_ROOM]) -> EventOutcome
    ensures same_reference { legal.new.device.ghost_name ≡ legal.old.device.ghost_name }
    ensures within { IsReplyWithin result reply_room }
    ensures text { outcome_text result reply.new
        ≡ outcome (with_numbers (received_at legal.old.device.now log_place bytes.now reply_room)) }
    ensures answer { answer_of result
        ≡ Some (call_number refusal_number (received_at legal.old.device.now log_place bytes.now reply_room)) }
    ensures device { legal.new.device.now ≡ (received_at legal.old.device.now log_place bytes.now reply_room).leaves }
    ensures reply { reply.new ≡ over (received_at legal.old.device.now log_place bytes.now reply_room).bytes reply.old }
{
    match calls::receive(legal, LOG_PLACE, bytes, reply) {
        Ok(received) => EventOutcome::Served(received.length),
        Err(refusal) => EventOutcome::Refused(refusal),
    }
}

#[tactic(auto, using(device::proofs::EnoughRoom::closing_quiet, crate::proofs::Outcomes::served_text))]
fn close(legal: &mut Legal<'_>) -> EventOutcome
    ensures same_reference { legal.new.device.ghost_name ≡ legal.old.device.ghost_name }
    ensures within { IsReplyWithin result reply_room }
    ensures text { (m : List ℕ) → outcome_text result m
        ≡ outcome (with_numbers (closed_by legal.old.device.now log_place)) }
    ensures answer { answer_of result ≡ Some (call_number refusal_number (closed_by legal.old.device.now log_place)) }
    ensures device { legal.new.device.now ≡ (closed_by legal.old.device.now log_place).leaves }
{
    match calls::close(legal, LOG_PLACE) {
        Ok(()) => EventOutcome::Served(0),
        Err(refusal) => EventOutcome::Refused(refusal),
    }
}

// Makes an event's call on a legal record.
#[tactic(auto, unfolding(crate::specs::Doing::event_result), using(device::proofs::EnoughRoom::closing_quiet))]
fn call_legal(
    legal: &mut Legal<'_>,
    event: &Event<'_>,
    reply: &mut [u8; REPLY_ROOM],
) -> EventOutcome
    ensures same_reference { legal.new.device.ghost_name ≡ legal.old.device.ghost_name }
    ensures within { IsReplyWithin result reply_room }
    ensures text { outcome_text result reply.new
        ≡ result_text (event_said event.now) (event_result legal.old.device.now (event_said event.now)) }
    ensures answer { answer_of result
        ≡ event_answer (event_said event.now) (event_result legal.old.device.now (event_said event.now)) }
    ensures device { legal.new.device.now ≡ (event_result legal.old.device.now (event_said event.now)).leaves }
    ensures reply { reply.new ≡ over (event_result legal.old.device.now (event_said event.now)).bytes reply.old }
{
    match event {
        Event::Opens(random) => open(legal, *random, reply),
        Event::Receives(bytes) => receive(legal, bytes, reply),
        Event::Passes(seconds) => {
            pass::pass(legal, *seconds);
            EventOutcome::Served(0)
        }
        Event::Closes => close(legal),
        Event::NoSuch => EventOutcome::NoSuch,
    }
}

/// Makes an event's call on any record. Its reply is at the start of `reply`. On a record that is not legal, each event
/// but `NoSuch` is refused with `NotLegal`.
pub fn call(tested: &mut Tested, event: &Event<'_>, reply: &mut [u8; REPLY_ROOM]) -> EventOutcome
    ensures within { IsReplyWithin result reply_room }
    ensures text { outcome_text result reply.new
        ≡ result_text (event_said event.now) (event_result tested.old.device (event_said event.now)) }
    ensures answer { answer_of result
        ≡ event_answer (event_said event.now) (event_result tested.old.device (event_said event.now)) }
    ensures device { tested.new.device ≡ (event_result tested.old.device (event_said event.now)).leaves }
    ensures reply { reply.new ≡ over (event_result tested.old.device (event_said event.now)).bytes reply.old }
    ensures places { Drives (seconds_of (event_said event.now)) tested.old.device tested.new.device }
{
    if tested.legal {
        let mut legal = Legal {
            device: &mut tested.device,
        };
        return call_legal(&mut legal, event, reply);
    }
    match event {
        Event::NoSuch => EventOutcome::NoSuch,
        _ => EventOutcome::Refused(Refusal::NotLegal),
    }
}

/// Returns the seconds that an event lets pass.
pub fn seconds_of(event: &Event<'_>) -> u32
    ensures { result ≡ seconds_of (event_said event.now) }
{
    match event {
        Event::Passes(seconds) => *seconds,
        _ => 0,
    }
}

/// Makes an event's call, and puts its printed line, which begins with `number`, in `out`. Returns the call's number, 0
/// if it was served; `None` if the line has no form.
#[tactic(auto, unfolding(crate::specs::Doing::printed_line))]
pub fn print(tested: &mut Tested, number: u64, event: &Event<'_>, out: &mut Printed) -> Option<u32>
    requires { out.old.items ≡ [] }
    ensures printed { out.new.items
        ≡ printed_line number (event_said event.now) (event_result tested.old.device (event_said event.now)) }
    ensures answer { result
        ≡ event_answer (event_said event.now) (event_result tested.old.device (event_said event.now)) }
    ensures device { tested.new.device ≡ (event_result tested.old.device (event_said event.now)).leaves }
{
    let mut reply = [0; REPLY_ROOM];
    let outcome = call(tested, event, &mut reply);
    outcome.put_line(number, &reply, out);
    outcome.answer()
}
