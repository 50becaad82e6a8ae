// `ours`'s writing of a command.
ghost use Rattle.std.specs.Prelude.{◌≡◌};
ghost use Rattle.controller.specs.Writing.{unwritten_number};
ghost use Rattle.ours.specs.Board.{ours, wrote_as};

use controller::writing;
use controller::writing::Unwritten;
use pjlink::command::Command;

/// `writing::write_command` gives and writes what `ours.write` says.
pub fn write(
    command: Command,
    secured: bool,
    random: u32,
    password: &[u8],
    out: &mut [u8],
) -> Result<usize, Unwritten>
    ensures { wrote_as unwritten_number result out.new
        ≡ ours.write command secured random password.now out.old }
{
    writing::write_command(command, secured, random, password, out)
}
