// A command to a projector, on its entry (RULES, Panel).
ghost use Rattle.std.specs.Prelude.{◌≡◌, ◌≤◌, length, true};
ghost use Rattle.text.specs.Words.{over};
ghost use Rattle.pjlink.specs.Commands.{is_command};
ghost use Rattle.controller.specs.Writing.{command_room};
ghost use Rattle.panel.specs.LegalPanels.{is_entry};
ghost use Rattle.panel.specs.Passwords.{password_room};
ghost use Rattle.panel.specs.Stepping.{sent_entry, command_sent};

use crate::types::PanelEntry;
use codes::command::Coded;
use controller::writing;
use pjlink::command::Command;
use text::flag;

impl PanelEntry {
    /// Writes the line of the command, which has this code, to the start of `out`, led by the digest if it is the first
    /// after a secured greeting. The command is then under way. Returns the length of the line in bytes.
    #[tactic(auto, using(crate::proofs::LinesSent::sent_whole, crate::proofs::LinesSent::password_writable))]
    pub(crate) fn send(&mut self, coded: Coded, command: Command, out: &mut [u8]) -> usize
        requires fits { self.old.password.len ≤ password_room }
        requires legal { is_entry self.old ≡ true }
        requires writable { is_command command ≡ true }
        requires room { command_room ≤ length out.old }
        ensures length { result ≡ length (command_sent self.old command (length out.old)) }
        ensures line { out.new ≡ over (command_sent self.old command (length out.old)) out.old }
        ensures entry { self.new ≡ sent_entry self.old coded }
    {
        let secured = self.is_secured();
        let password = &self.password.bytes[0..self.password.len];
        let leads = secured && !flag::is_raised(self.led);
        let length = writing::put_command(command, leads, self.random, password, out);
        self.led = flag::of(secured);
        self.under_way = 1;
        self.command = coded;
        length
    }
}
