//! Writing a command, led on request by the digest that opens a secured connection.
ghost use Rattle.std.proofs.Common.{arith};
ghost use Rattle.std.specs.Prelude.{◌≡◌, ◌≤◌, ◌++◌, length, true};
ghost use Rattle.text.specs.Words.{over};
ghost use Rattle.text.specs.Outcomes.{with_length};
ghost use Rattle.pjlink.specs.Commands.{command_line};
ghost use Rattle.controller.specs.Writing.{command_room, is_writable, led_by, written_command, unwritten_number};

use pjlink::command::Command;
use reasons::numbers;
use std::error::Error;
use std::fmt;
use text::numbered::Numbered;
use words::codec::LineBytes;
use words::{codec, texts};

/// Room for the longest line of a command, led by a digest, in bytes.
pub const COMMAND_ROOM: usize = 168;

/// Why a command is not written. The buffer is then as it was.
#[derive(Clone, Copy, Debug, PartialEq, Eq)]
pub enum Unwritten {
    /// 2: the buffer is too short for a command's line.
    NoRoom,
    /// 3: it is no command, or a digest is asked for with no password.
    OutOfRange,
}

impl Numbered for Unwritten {
    ghost number = { unwritten_number };

    ghost refuses = { λ why. Prim.grind arith };

    fn number(self) -> u32 {
        match self {
            Unwritten::NoRoom => 2,
            Unwritten::OutOfRange => 3,
        }
    }
}

/// What its number says.
impl fmt::Display for Unwritten {
    fn fmt<W: fmt::Write>(&self, f: &mut fmt::Formatter<W>) -> fmt::Result {
        f.write_str(numbers::number_text(self.number()))
    }
}

impl Error for Unwritten {}

// The command's line can be written, and a digest is asked for of a legal password.
fn is_writable(c: Command, secured: bool, password: &[u8]) -> bool
    ensures { result ≡ is_writable c secured password.now }
{
    c.is_legal() && (!secured || texts::is_password(password))
}

// What leads the line: where it is asked for, the digest.
fn led_by(secured: bool, random: u32, password: &[u8]) -> LineBytes
    ensures { result.items ≡ led_by secured random password.now }
{
    let mut line = LineBytes::new();
    if secured {
        codec::put_all(&digest::leading_digest(random, password), &mut line);
    }
    line
}

/// Writes the line of a command that can be written to the start of `out`, which has room for any, led by the digest of
/// `random` and `password` if `secured`. Returns its length in bytes.
pub fn put_command(
    command: Command,
    secured: bool,
    random: u32,
    password: &[u8],
    out: &mut [u8],
) -> usize
    requires writable { is_writable command secured password.now ≡ true }
    requires room { command_room ≤ length out.old }
    ensures length { result ≡ length (led_by secured random password.now ++ command_line command) }
    ensures written { out.new ≡ over (led_by secured random password.now ++ command_line command) out.old }
{
    let mut line = led_by(secured, random, password);
    command.put(&mut line);
    text::put(out, 0, line.as_slice());
    line.len()
}

/// Writes the command's line to the start of `out`, led by the digest of `random` and `password` if `secured`. Returns
/// its length in bytes. Errors, in this order: `NoRoom`, `OutOfRange`.
#[tactic(auto, using(crate::proofs::Cases::written_line), unfolding(crate::specs::Writing::written_command))]
pub fn write_command(
    command: Command,
    secured: bool,
    random: u32,
    password: &[u8],
    out: &mut [u8],
) -> Result<usize, Unwritten>
    ensures says { result ≡ with_length (written_command command secured random password.now (length out.old)) }
    ensures written { out.new ≡ over (written_command command secured random password.now
        (length out.old)).bytes out.old }
{
    if out.len() < COMMAND_ROOM {
        return Err(Unwritten::NoRoom);
    }
    if !is_writable(command, secured, password) {
        return Err(Unwritten::OutOfRange);
    }
    Ok(put_command(command, secured, random, password, out))
}
