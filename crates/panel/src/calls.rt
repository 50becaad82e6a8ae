// The panel's calls, in place (RULES, Panel). Each tests the panel, finds the projector, and changes that projector's
// entry alone. A refused call leaves the panel and the buffer as they were.
ghost use Rattle.std.specs.Prelude.{◌≡◌, ◌≤◌, length, IfOk};
ghost use Rattle.pjlink.specs.Said.{parameter_most};
ghost use Rattle.text.specs.Words.{over};
ghost use Rattle.panel.specs.Entries.{entry_of, no_talk, nothing_shown};
ghost use Rattle.text.specs.Outcomes.{with_length};
ghost use Rattle.panel.specs.PanelCalls.{no_panel, added_to, command_at, stepped_at, lost_at};
ghost use Rattle.panel.specs.Hearing.{hearing_said, heard_by_code, heard_bytes};

use crate::heard::Heard;
use crate::refusal::PanelRefusal;
use crate::talk::Awaits;
use crate::types::{NO_COMMAND, PANEL_MOST, Panel, PanelEntry, Password};
use codes::command::Coded;
use controller::writing::COMMAND_ROOM;
use words::lamp::LAMPS_MOST;
use words::texts;

impl PanelEntry {
    /// Returns the entry of a projector with this password: its greeting is awaited, nothing is known, and there are no
    /// strays.
    pub fn new(password: Password) -> PanelEntry
        ensures { result ≡ entry_of password no_talk nothing_shown 0 }
    {
        PanelEntry {
            password,
            greeting: 0,
            random: 0,
            led: 0,
            under_way: 0,
            command: NO_COMMAND,
            power_known: 0,
            input_known: 0,
            lamps_known: 0,
            power: 0,
            input_type: 0,
            input_number: 0,
            lamp_count: 0,
            hours: [0; LAMPS_MOST],
            lit: [0; LAMPS_MOST],
            strays: 0,
        }
    }
}

impl Panel {
    /// Returns the panel without a projector.
    pub fn new() -> Panel
        ensures { result ≡ no_panel }
    {
        Panel {
            count: 0,
            entries: [PanelEntry::new(Password::NONE); PANEL_MOST],
        }
    }

    /// Adds a projector. Its number is how many there were. Errors, in this order: `NotLegal`; `OutOfRange` for a
    /// password that is not 0 to 32 letters and digits, and for a ninth projector.
    #[tactic(auto, unfolding(crate::specs::PanelCalls::added_to), using(words::proofs::TextsTold::password_long))]
    pub fn add(&mut self, password: &[u8]) -> Result<(), PanelRefusal>
        ensures says { result ≡ (added_to self.old password.now).says }
        ensures panel { self.new ≡ (added_to self.old password.now).leaves }
    {
        if !self.is_legal() {
            return Err(PanelRefusal::NotLegal);
        }
        if !texts::is_password(password) || PANEL_MOST <= self.count {
            return Err(PanelRefusal::OutOfRange);
        }
        self.entries[self.count] = PanelEntry::new(Password::of(password));
        self.count = self.count + 1;
        Ok(())
    }

    /// Writes the line of a command to a projector to the start of `out`. Returns its length in bytes. Errors, in this
    /// order: `NotLegal`; `NoRoom` for less than 168 bytes; `OutOfRange` for no such projector and for no command;
    /// `NotReady` before the greeting or while another command is under way.
    #[tactic(auto, using(crate::proofs::LinesSent::entry_sends), unfolding(crate::specs::PanelCalls::command_at))]
    pub fn send(
        &mut self,
        projector: usize,
        coded: Coded,
        out: &mut [u8],
    ) -> Result<usize, PanelRefusal>
        ensures says { result ≡ with_length (command_at self.old projector coded (length out.old)) }
        ensures panel { self.new ≡ (command_at self.old projector coded (length out.old)).leaves }
        ensures line { out.new ≡ over (command_at self.old projector coded (length out.old)).bytes out.old }
    {
        if !self.is_legal() {
            return Err(PanelRefusal::NotLegal);
        }
        if out.len() < COMMAND_ROOM {
            return Err(PanelRefusal::NoRoom);
        }
        if self.count <= projector {
            return Err(PanelRefusal::OutOfRange);
        }
        let Some(command) = coded.command() else {
            return Err(PanelRefusal::OutOfRange);
        };
        let Awaits::Nothing = self.entries[projector].awaits() else {
            return Err(PanelRefusal::NotReady);
        };
        Ok(self.entries[projector].send(coded, command, out))
    }

    /// Updates the entry of a projector by its line, with its CR. Returns what the line was. Errors, in this order:
    /// `NotLegal`; `OutOfRange` for no such projector.
    #[tactic(auto, using(crate::proofs::PanelsTold::few_projectors), unfolding(crate::specs::PanelCalls::stepped_at))]
    pub fn hear<'a>(&mut self, projector: usize, line: &'a [u8]) -> Result<Heard<'a>, PanelRefusal>
        ensures says { hearing_said result ≡ (stepped_at self.old projector line.now).says }
        ensures panel { self.new ≡ (stepped_at self.old projector line.now).leaves }
        ensures short { IfOk result (λ h. length (heard_bytes (heard_by_code h)) ≤ parameter_most) }
    {
        if !self.is_legal() {
            return Err(PanelRefusal::NotLegal);
        }
        if self.count <= projector {
            return Err(PanelRefusal::OutOfRange);
        }
        Ok(self.entries[projector].hear(line))
    }

    /// Records that the connection to a projector is gone. Errors, in this order: `NotLegal`; `OutOfRange` for no such
    /// projector.
    #[tactic(auto, using(crate::proofs::PanelsTold::few_projectors), unfolding(crate::specs::PanelCalls::lost_at))]
    pub fn lose(&mut self, projector: usize) -> Result<(), PanelRefusal>
        ensures says { result ≡ (lost_at self.old projector).says }
        ensures panel { self.new ≡ (lost_at self.old projector).leaves }
    {
        if !self.is_legal() {
            return Err(PanelRefusal::NotLegal);
        }
        if self.count <= projector {
            return Err(PanelRefusal::OutOfRange);
        }
        self.entries[projector].lose();
        Ok(())
    }
}
