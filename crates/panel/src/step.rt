// What a line does to the entry of the projector that sent it (RULES, Panel).
ghost use Rattle.std.specs.Prelude.{◌≡◌, ◌+◌, ◌≤◌, min, length};
ghost use Rattle.pjlink.specs.Said.{parameter_most};
ghost use Rattle.pjlink.specs.Greetings.{read_greeting};
ghost use Rattle.controller.specs.Reading.{read_as};
ghost use Rattle.codes.specs.Commands.{coded_command};
ghost use Rattle.panel.specs.Entries.{talk_of, rested_on};
ghost use Rattle.panel.specs.Stepping.{strays_most, with_stray, with_talk, erra_entry, lost_entry, greeted_as};
ghost use Rattle.panel.specs.Stepping.{heard_as};
ghost use Rattle.panel.specs.Stepping.{replied_to, heard_line};
ghost use Rattle.panel.specs.Hearing.{greeting_heard, reply_heard, line_heard, heard_by_code, heard_bytes};

use crate::heard::Heard;
use crate::talk::{Awaits, Greeted};
use crate::types::{NO_COMMAND, PanelEntry, STRAYS_MOST};
use codes::command::Coded;
use controller::reading;
use controller::reading::{Misread, Reading};
use pjlink::greeting::Greeting;

// Returns one more, at most 65,535.
fn one_more(strays: u32) -> u32
    ensures { result ≡ min strays_most (strays + 1) }
{
    if STRAYS_MOST <= strays {
        return STRAYS_MOST;
    }
    strays + 1
}

impl PanelEntry {
    // Counts a late, foreign or malformed line. Nothing else changes.
    fn stray(&mut self)
        ensures { self.new ≡ with_stray self.old }
    {
        self.strays = one_more(self.strays);
    }

    /// Records that the connection is gone: a new greeting is awaited, and the readings stay.
    pub(crate) fn lose(&mut self)
        ensures { self.new ≡ lost_entry self.old }
    {
        self.begin(Greeted::NotYet);
    }

    // Records ERRA: a new greeting is awaited, and all readings are unknown.
    fn erra(&mut self)
        ensures { self.new ≡ erra_entry self.old }
    {
        self.lose();
        self.show_nothing();
    }

    // Ends the command under way.
    fn rest(&mut self)
        ensures { self.new ≡ with_talk self.old (rested_on (talk_of self.old)) }
    {
        self.under_way = 0;
        self.command = NO_COMMAND;
    }

    // Reads a line while the greeting is awaited. Any line but a greeting is malformed.
    fn greet<'a>(&mut self, line: &'a [u8]) -> Heard<'a>
        ensures entry { self.new ≡ greeted_as self.old (read_greeting line.now) }
        ensures heard { heard_by_code result ≡ greeting_heard (read_greeting line.now) }
        ensures short { length (heard_bytes (heard_by_code result)) ≤ parameter_most }
    {
        let greeted = match Greeting::read(line) {
            Some(Greeting::Open) => Greeted::Open,
            Some(Greeting::Secured(random)) => Greeted::Secured { random },
            Some(Greeting::Refused) | None => {
                self.stray();
                return Heard::NoGreeting;
            }
        };
        self.begin(greeted);
        Heard::Greeting
    }

    // Records the reading of a reply. ERRA and an accepted reply end the command under way; any other line is malformed
    // or foreign.
    fn take(&mut self, reading: &Result<Reading<'_>, Misread>)
        ensures { self.new ≡ heard_as self.old (read_as reading.now).outcome (read_as reading.now).said }
    {
        match reading {
            Ok(Reading::Means(reply)) => {
                self.rest();
                self.show(reply);
            }
            Ok(Reading::Erra) => self.erra(),
            Err(_) => self.stray(),
        }
    }

    // Reads a line while a command is under way. In a legal entry the code is that of a command.
    #[tactic(auto, using(controller::proofs::ReadShort::reading_short))]
    fn reply<'a>(&mut self, coded: Coded, line: &'a [u8]) -> Heard<'a>
        ensures entry { self.new ≡ replied_to self.old (coded_command coded) line.now }
        ensures heard { heard_by_code result ≡ reply_heard (coded_command coded) line.now }
        ensures short { length (heard_bytes (heard_by_code result)) ≤ parameter_most }
    {
        let Some(command) = coded.command() else {
            self.stray();
            return Heard::Late;
        };
        let reading = reading::read_reply(command, line);
        self.take(&reading);
        Heard::Reply(reading)
    }

    /// Updates the entry by a line from the projector, with its CR. Returns what the line was. If no command is under
    /// way, it is late.
    #[tactic(auto, unfolding(crate::specs::Stepping::heard_line, crate::specs::Hearing::line_heard))]
    pub(crate) fn hear<'a>(&mut self, line: &'a [u8]) -> Heard<'a>
        ensures entry { self.new ≡ heard_line self.old line.now }
        ensures heard { heard_by_code result ≡ line_heard self.old line.now }
        ensures short { length (heard_bytes (heard_by_code result)) ≤ parameter_most }
    {
        match self.awaits() {
            Awaits::Greeting => self.greet(line),
            Awaits::Nothing => {
                self.stray();
                Heard::Late
            }
            Awaits::Reply(coded) => self.reply(coded, line),
        }
    }
}
