// A log replayed: what its lines are answered, and at the end the line of power and lamps.
ghost use Rattle.std.specs.Prelude.{◌≡◌, ◌+◌, ◌^◌, ◌≤◌, ◌++◌, map, length};
ghost use Rattle.textio.specs.Lines.{texts_of};
ghost use Rattle.textio.specs.Fronts.{WritesText};
ghost use Rattle.floorlog.specs.KeptText.{kept_text};
ghost use Rattle.floorlog.specs.LastLine.{last_device_line};
ghost use Rattle.floorlog.specs.Events.{event};
ghost use Rattle.floorlog.specs.Doing.{event_result, printed_line};
ghost use Rattle.floorlog.specs.Playing.{state_after, lines_printed};
ghost use Rattle.floorlog.specs.Unplayed.{answer, left_by_event, why_misread, line_noted, said_line, none_unplayed};
ghost use Rattle.floorlog.specs.Unplayed.{unplayed_by};

use crate::kept::KeptLine;
use crate::observer::Observer;
use crate::outcome::Printed;
use crate::unplayed::Unplayed;
use crate::{event, last};
use record::legality::Tested;
use record::types::Device;
use std::io;
use textio::lines::Failure;
use textio::writer;
use textio::writer::ByteSink;

/// A log as it is replayed: its record, tested where the log began; how many lines were read; and which of them were
/// not played.
#[derive(Drop)]
pub struct Player {
    /// The record after the lines played so far.
    pub tested: Tested,
    played: u64,
    unplayed: Unplayed,
    ghost counted: { unplayed.misread + unplayed.refused ≤ played },
}

impl Player {
    /// Returns a player before a log that begins with a device, which need not be legal.
    pub fn new(device: Device) -> Player
        ensures device { result.tested.device ≡ device }
        ensures played { result.played ≡ 0 }
        ensures unplayed { result.unplayed ≡ none_unplayed }
    {
        Player {
            tested: Tested::of(device),
            played: 0,
            unplayed: Unplayed::new(),
        }
    }

    // Plays the next line, which has that number.
    fn advance<W: ByteSink>(&mut self, number: u64, line: &KeptLine, to: &mut W) -> io::Result<()>
        requires { number ≡ self.old.played + 1 }
        ensures played { self.new.played ≡ number }
        ensures device { self.new.tested.device ≡ left_by_event self.old.tested.device (event (kept_text line.now)) }
        ensures unplayed { self.new.unplayed ≡ line_noted self.old.unplayed number (why_misread (kept_text line.now))
            (answer self.old.tested.device (event (kept_text line.now))) }
        ensures text { WritesText W.fails_with (W.contents to.old) (W.contents to.new) result
            (printed_line number (event (kept_text line.now))
            (event_result self.old.tested.device (event (kept_text line.now)))) }
    {
        let (answer, told) = play(&mut self.tested, number, line, to);
        self.unplayed.note(number, line.text(), answer);
        self.played = number;
        told
    }

    /// Returns what was not played.
    pub fn unplayed(&self) -> Unplayed
        ensures { result ≡ self.now.unplayed }
    {
        self.unplayed
    }
}

// Plays and prints the line with that number. Returns the call's number, and how the writing ended.
fn play<W: ByteSink>(
    t: &mut Tested,
    number: u64,
    line: &KeptLine,
    to: &mut W,
) -> (Option<u32>, io::Result<()>)
    ensures answer { result.0 ≡ answer t.old.device (event (kept_text line.now)) }
    ensures device { t.new.device ≡ left_by_event t.old.device (event (kept_text line.now)) }
    ensures text { WritesText W.fails_with (W.contents to.old) (W.contents to.new) result.1
        (printed_line number (event (kept_text line.now)) (event_result t.old.device (event (kept_text line.now)))) }
{
    let mut out = Printed::new();
    let answer = event::print(t, number, &line.event(), &mut out);
    (answer, writer::put(to, &out))
}

impl Observer for Player {
    ghost output = { λ p ls. lines_printed p.played p.tested.device (map event (texts_of ls))
        ++ last_device_line (state_after p.tested.device (map event (texts_of ls))) };

    ghost leaves = { λ p ls last.
        (last.tested.device ≡ state_after p.tested.device (map event (texts_of ls)))
        × (last.unplayed ≡ unplayed_by answer left_by_event p.unplayed p.played p.tested.device
        (map (said_line event) (texts_of ls))) };

    ghost overflows = { λ p ls. 2 ^ 64 ≤ p.played + length ls };

    fn line<W: ByteSink>(&mut self, line: &KeptLine, to: &mut W) -> Result<(), Failure> {
        let Some(number) = self.played.checked_add(1) else {
            return Err(Failure::TooLong);
        };
        match self.advance(number, line, to) {
            Ok(()) => Ok(()),
            Err(error) => Err(Failure::Write(error)),
        }
    }

    fn end<W: ByteSink>(&mut self, to: &mut W) -> io::Result<()> {
        let mut out = Printed::new();
        last::put_last(&self.tested.device, &mut out);
        writer::put(to, &out)
    }
}
