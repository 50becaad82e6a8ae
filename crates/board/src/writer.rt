// The controller's writer.
ghost use Rattle.std.specs.Prelude.{◌≡◌, length, Some};
ghost use Rattle.pjlink.specs.declared.command.Command.{Command};
ghost use Rattle.ours.specs.Board.{ours};
ghost use Rattle.text.specs.Words.{over};
ghost use Rattle.text.specs.Outcomes.{with_length};
ghost use Rattle.controller.specs.Writing.{unwritten_number};
ghost use Rattle.codes.specs.Commands.{coded_command};
ghost use Rattle.codes.specs.ByCode.{none_written, written_by};
ghost use Rattle.board.specs.Results.{writing_of, wrote_of};

use codes::command::Coded;
use controller::writing;
use controller::writing::{COMMAND_ROOM, Unwritten};
use text::numbered::Numbered;

/// What writing a command, a form or a line of a log returns: its number, and the length of what is written
/// (`pj_written`).
#[repr(C)]
#[derive(Clone, Copy)]
pub struct Written {
    /// 0, or the number of the refusal (RULES, The numbers a call gives).
    pub number: u32,
    /// Bytes written, a line's CR or LF included; 0 with a refusal.
    pub length: usize,
}

/// The result in numbers of a call that writes so many bytes, or refuses.
impl<E: Numbered> From<Result<usize, E>> for Written {
    ghost from_gives = { λ outcome told. told ≡ writing_of E.number outcome };

    fn from(outcome: Result<usize, E>) -> Written {
        match outcome {
            Ok(length) => Written { number: 0, length },
            Err(refusal) => Written {
                number: refusal.number(),
                length: 0,
            },
        }
    }
}

// What is no command: no room for one comes first.
fn none_written(room: usize) -> Written
    ensures { result ≡ writing_of unwritten_number (with_length (none_written room)) }
{
    if room < COMMAND_ROOM {
        return Written::from(Err(Unwritten::NoRoom));
    }
    Written::from(Err(Unwritten::OutOfRange))
}

/// Writes the line of a command to the start of `out`, led by the digest of `random` and `password` if `secured`.
/// Errors, in this order: 2; 3 for what is no command, and if `secured` for what is no password.
#[unsafe(no_mangle)]
pub extern "C" fn pj_write(
    coded: Coded,
    secured: bool,
    random: u32,
    password: &[u8],
    out: &mut [u8],
) -> Written
    ensures says { result ≡ writing_of unwritten_number (with_length (written_by (coded_command coded) secured random
        password.now (length out.old))) }
    ensures written { out.new ≡ over (written_by (coded_command coded) secured random password.now
        (length out.old)).bytes out.old }
    ensures of_a_command { (c : Command) → coded_command coded ≡ Some c
        → (result ≡ wrote_of (ours.write c secured random password.now out.old))
        × (out.new ≡ (ours.write c secured random password.now out.old).memory) }
{
    match coded.command() {
        Some(command) => Written::from(writing::write_command(
            command, secured, random, password, out,
        )),
        None => none_written(out.len()),
    }
}
