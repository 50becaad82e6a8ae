//! The controller's readers.
ghost use Rattle.std.specs.Prelude.{◌≡◌, Some};
ghost use Rattle.pjlink.specs.declared.command.Command.{Command};
ghost use Rattle.ours.specs.Board.{ours};
ghost use Rattle.codes.specs.Commands.{coded_command};
ghost use Rattle.codes.specs.Readings.{flat_greeting, flat_reading};
ghost use Rattle.codes.specs.ByCode.{read_by};

use codes::command::Coded;
use codes::readings::{FlatGreeting, FlatReading};
use controller::reading;
use pjlink::greeting::Greeting;

/// Reads a greeting, with its CR. Error: 10.
#[unsafe(no_mangle)]
pub extern "C" fn pj_read_greeting(line: &[u8]) -> FlatGreeting
    ensures { result ≡ flat_greeting (ours.read_greeting line.now) }
{
    FlatGreeting::from(Greeting::read(line))
}

/// Reads the reply to a command, with its CR. Errors, in this order: 3 for what is no command, 10, 11, 12.
#[tactic(auto, using(controller::proofs::ReadShort::reading_short))]
#[unsafe(no_mangle)]
pub extern "C" fn pj_read_reply(coded: Coded, line: &[u8]) -> FlatReading
    ensures reading { result ≡ read_by (coded_command coded) line.now }
    ensures of_a_command { (c : Command) → coded_command coded ≡ Some c
        → result ≡ flat_reading (ours.read_reply c line.now) }
{
    match coded.command() {
        Some(command) => FlatReading::of(&reading::read_reply(command, line)),
        None => FlatReading::meaningless(3),
    }
}
