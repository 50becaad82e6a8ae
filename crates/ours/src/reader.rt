// `ours`'s readers.
ghost use Rattle.std.specs.Prelude.{◌≡◌};
ghost use Rattle.controller.specs.Reading.{read_as};
ghost use Rattle.ours.specs.Board.{ours};

use controller::reading;
use controller::reading::{Misread, Reading};
use pjlink::command::Command;
use pjlink::greeting::Greeting;

/// `reading::read_reply` gives what `ours.read_reply` says.
pub fn read_reply(command: Command, line: &[u8]) -> Result<Reading<'_>, Misread>
    ensures { read_as result ≡ ours.read_reply command line.now }
{
    reading::read_reply(command, line)
}

/// `Greeting::read` gives what `ours.read_greeting` says.
pub fn read_greeting(line: &[u8]) -> Option<Greeting>
    ensures { result ≡ ours.read_greeting line.now }
{
    Greeting::read(line)
}
