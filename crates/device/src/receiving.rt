// Receiving, on settings, the projector's own part and one connection.
ghost use Rattle.std.specs.Prelude.{◌≡◌, []};
ghost use Rattle.device.specs.Ready.{IsReady};
ghost use Rattle.device.specs.Receiving.{is_match, line_ended, phase_start, keeping_line, taken_in};
ghost use Rattle.record.specs.Limits.{phase_failed};
ghost use Rattle.record.specs.Updates.{with_line};
ghost use Rattle.record.specs.Views.{with_phase};
ghost use Rattle.stream.specs.Collecting.{empty_line};

use crate::answering;
use pjlink::greeting::Greeting;
use record::types::{CollectedLine, Connection, Own, Settings};
use record::views::Phase;
use text::{flag, rooms};
use words::codec;

const DIGEST_LONG: usize = 32;

// The connection in another phase, with nothing collected.
#[tactic(auto, using(stream::proofs::LinesSpelt::empty_spelt))]
pub(crate) fn turn(connection: &mut Connection, phase: Phase)
    ensures { connection.new ≡ with_line (with_phase connection.old phase) empty_line }
{
    connection.set_phase(phase);
    connection.line = Connection::CLOSED.line;
}

// The first line has not the matching digest.
fn fail(c: &mut Connection)
    ensures { c.new ≡ phase_start c.old phase_failed }
{
    let random = c.random;
    turn(c, Phase::Failed { age: 0, random });
}

// Whether the line starts with the digest of the random number and the password.
#[tactic(auto, unfolding(crate::specs::Receiving::is_match))]
fn is_match(s: &Settings, c: &Connection, l: &CollectedLine) -> bool
    ensures { result ≡ is_match s.now c.now l.now }
{
    !flag::is_raised(l.overlong)
        && DIGEST_LONG <= l.held
        && text::is_same(
            &l.bytes[..DIGEST_LONG],
            &digest::leading_digest(c.random, rooms::first(&s.password.bytes, s.password.len)),
        )
}

// What CR does; the reply is put, or nothing where there is none.
#[tactic(auto, unfolding(crate::specs::Receiving::line_ended))]
fn end_line(
    s: &Settings,
    o: &mut Own,
    c: &mut Connection,
    l: &CollectedLine,
    reply: &mut codec::LineBytes,
)
    requires ready { IsReady s.now o.old }
    requires empty { reply.old.items ≡ [] }
    ensures reply { reply.new.items ≡ (line_ended s.now o.old c.old l.now).reply }
    ensures own { o.new ≡ (line_ended s.now o.old c.old l.now).own }
    ensures connection { c.new ≡ (line_ended s.now o.old c.old l.now).connection }
{
    match c.phase() {
        Phase::Open { random } => {
            turn(c, Phase::Open { random });
            if !flag::is_raised(l.overlong) {
                answering::answer_line(s, o, rooms::first(&l.bytes, l.held), reply);
            }
        }
        Phase::Awaiting { random, .. } => {
            if is_match(s, c, l) {
                turn(c, Phase::Open { random });
                let (_, line) = rooms::first(&l.bytes, l.held).split_at(DIGEST_LONG);
                answering::answer_line(s, o, line, reply);
            } else {
                fail(c);
                Greeting::Refused.put(reply);
            }
        }
        Phase::Closed | Phase::Failed { .. } => (),
    }
}

// A failed connection keeps no byte.
#[tactic(auto, unfolding(crate::specs::Receiving::keeping_line))]
fn keep(c: &mut Connection, l: &CollectedLine)
    ensures { c.new ≡ keeping_line c.old l.now }
{
    if !matches!(c.phase(), Phase::Failed { .. }) {
        c.line = *l;
    }
}

/// Takes the bytes up to and including the first CR, or all: how many, and puts the reply to the line that they end,
/// with its CR, or nothing where none is due.
#[tactic(auto, using(record::proofs::PhaseSeen::phase_tests), unfolding(crate::specs::Receiving::taken_in))]
pub fn take_in(
    settings: &Settings,
    own: &mut Own,
    connection: &mut Connection,
    bytes: &[u8],
    reply: &mut codec::LineBytes,
) -> usize
    requires ready { IsReady settings.now own.old }
    requires empty { reply.old.items ≡ [] }
    ensures taken { result ≡ (taken_in settings.now own.old connection.old bytes.now).taken }
    ensures reply { reply.new.items ≡ (taken_in settings.now own.old connection.old bytes.now).ended.reply }
    ensures own { own.new ≡ (taken_in settings.now own.old connection.old bytes.now).ended.own }
    ensures connection { connection.new ≡ (taken_in settings.now own.old connection.old bytes.now).ended.connection }
{
    let mut line = connection.line;
    let passed = stream::gather(connection.phase(), &mut line, bytes);
    if !passed.ended {
        keep(connection, &line);
        return passed.before;
    }
    end_line(settings, own, connection, &line, reply);
    passed.before + 1
}
