// The state of the connection to a projector: what its numbers mean, what is awaited, and how a connection begins.
ghost use Rattle.std.specs.Prelude.{◌≡◌};
ghost use Rattle.panel.specs.Entries.{talk_of, is_secured_talk};
ghost use Rattle.panel.specs.Stepping.{with_talk};
ghost use Rattle.panel.specs.Awaited.{awaits_of, talk_begun};

use crate::types::{NO_COMMAND, PanelEntry};
use codes::command::Coded;
use text::flag;

/// `PanelEntry::greeting`: none yet.
pub const UNGREETED: u8 = 0;

// `PanelEntry::greeting`: it was `PJLINK 0`.
const GREETED_OPEN: u8 = 1;

/// `PanelEntry::greeting`: it was `PJLINK 1`.
pub const GREETED_SECURED: u8 = 2;

/// How a projector greeted.
#[derive(Clone, Copy)]
pub enum Greeted {
    /// Its greeting is awaited.
    NotYet,
    /// `PJLINK 0`.
    Open,
    /// `PJLINK 1`, with its random number.
    Secured { random: u32 },
}

/// What is awaited from a projector.
#[derive(Clone, Copy)]
pub enum Awaits {
    /// Its greeting.
    Greeting,
    /// Nothing: no command is under way.
    Nothing,
    /// The reply to the command under way.
    Reply(Coded),
}

impl PanelEntry {
    /// Returns whether the projector asks for a digest.
    pub fn is_secured(&self) -> bool
        ensures { result ≡ is_secured_talk (talk_of self.now) }
    {
        self.greeting == GREETED_SECURED
    }

    /// Begins a connection: no digest was sent, and no command is under way.
    pub fn begin(&mut self, greeted: Greeted)
        ensures { self.new ≡ with_talk self.old (talk_begun greeted) }
    {
        let (greeting, random) = match greeted {
            Greeted::NotYet => (UNGREETED, 0),
            Greeted::Open => (GREETED_OPEN, 0),
            Greeted::Secured { random } => (GREETED_SECURED, random),
        };
        self.greeting = greeting;
        self.random = random;
        self.led = 0;
        self.under_way = 0;
        self.command = NO_COMMAND;
    }

    /// Returns what is awaited from the projector.
    pub fn awaits(&self) -> Awaits
        ensures { result ≡ awaits_of self.now }
    {
        if self.greeting == UNGREETED {
            return Awaits::Greeting;
        }
        if flag::is_raised(self.under_way) {
            return Awaits::Reply(self.command);
        }
        Awaits::Nothing
    }
}
