// What a line from a projector was (RULES, Panel).
ghost use Rattle.std.specs.Prelude.{◌≡◌, Some};
ghost use Rattle.panel.specs.Hearing.{heard_by_code, heard_kind};

use controller::reading::{Misread, Reading};

/// What a line from a projector was.
#[derive(Drop)]
pub enum Heard<'a> {
    /// Its greeting, which is accepted.
    Greeting,
    /// No greeting, though one is awaited: malformed.
    NoGreeting,
    /// Late: no command is under way.
    Late,
    /// The reading of it as a reply to the command under way: an accepted reply, ERRA, or why it is foreign
    /// (`OtherCommand`) or malformed.
    Reply(Result<Reading<'a>, Misread>),
}

impl Heard<'_> {
    /// Returns its kind by `enum pj_heard_kind`: 1 the greeting, 2 an accepted reply, 3 ERRA, 4 late, 5 foreign, 6
    /// malformed.
    pub fn kind(&self) -> u8
        ensures { result ≡ heard_kind (Some (heard_by_code self.now)) }
    {
        match self {
            Heard::Greeting => 1,
            Heard::Reply(Ok(Reading::Means(_))) => 2,
            Heard::Reply(Ok(Reading::Erra)) => 3,
            Heard::Late => 4,
            Heard::Reply(Err(Misread::OtherCommand)) => 5,
            Heard::Reply(Err(Misread::NotALine | Misread::NotAllowed)) | Heard::NoGreeting => 6,
        }
    }
}
