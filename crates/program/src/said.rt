// The words on standard error. Where a write fails, a front of them is there.
ghost use Rattle.std.specs.Prelude.{◌≡◌, ◌++◌};
ghost use Rattle.textio.specs.Fronts.{WritesText};
ghost use Rattle.program.specs.Said.{unread_text, unwritten_text, refused_text, endless_text, changed_text, stop_text};
ghost use Rattle.program.specs.Said.{cause_of, shown_name, stray_warning};
ghost use Rattle.floorlog.specs.Unplayed.{unplayed_text};
ghost use Rattle.recorded.specs.Following.{stray_seen};

use command::asked::Stop;
use floorlog::unplayed::{Unplayed, UnplayedText};
use reasons::numbers::number_text;
use recorded::stray::{StrayLine, StrayText};
use std::io;
use std::io::{Error, ErrorKind};
use textio::forms::fill;
use textio::writer::{ByteSink, put};

/// Returns why a read or a write failed: a colon, a space and words, or nothing if the system gives no reason.
pub fn cause(error: &Error) -> &'static str
    ensures { result.now ≡ cause_of error.now }
{
    match error.kind() {
        ErrorKind::NotFound => ": no such file",
        ErrorKind::PermissionDenied => ": no permission",
        ErrorKind::IsADirectory => ": it is a folder",
        ErrorKind::NotADirectory => ": its path goes through a file",
        ErrorKind::StorageFull => ": no space is left",
        ErrorKind::QuotaExceeded => ": no more space is granted",
        ErrorKind::FileTooLarge => ": the file is too large",
        ErrorKind::ReadOnlyFilesystem => ": the file system takes no writes",
        ErrorKind::BrokenPipe => ": nobody reads it any more",
        ErrorKind::WouldBlock => ": no bytes are there yet",
        ErrorKind::InvalidFilename => ": no name of a file",
        ErrorKind::FilesystemLoop => ": its links go in a circle",
        ErrorKind::OutOfMemory => ": out of memory",
        _ => "",
    }
}

/// Returns the name of a file in words: "standard input" for `-`, any other as it is.
pub fn shown(name: &str) -> &str
    ensures { result.now ≡ shown_name name.now }
{
    if name == "-" {
        return "standard input";
    }
    name
}

// Four texts, one after the other.
fn put_four<E: ByteSink>(
    to: &mut E,
    first: &str,
    second: &str,
    third: &str,
    last: &str,
) -> io::Result<()>
    ensures { WritesText E.fails_with (E.contents to.old) (E.contents to.new) result
        (first.now ++ (second.now ++ (third.now ++ last.now))) }
{
    put(to, first.as_bytes())?;
    put(to, second.as_bytes())?;
    put(to, third.as_bytes())?;
    put(to, last.as_bytes())
}

/// Writes that a file cannot be read.
pub fn say_unread<E: ByteSink>(to: &mut E, name: &str, cause: &str) -> io::Result<()>
    ensures { WritesText E.fails_with (E.contents to.old) (E.contents to.new) result
        (unread_text name.now cause.now) }
{
    put_four(to, name, ": cannot be read", cause, "\n")
}

/// Writes that a file, or standard output, cannot be written.
pub fn say_unwritten<E: ByteSink>(to: &mut E, name: &str, cause: &str) -> io::Result<()>
    ensures { WritesText E.fails_with (E.contents to.old) (E.contents to.new) result
        (unwritten_text name.now cause.now) }
{
    put_four(to, name, ": cannot be written", cause, "\n")
}

/// Writes that a log is longer than can be counted.
pub fn say_endless<E: ByteSink>(to: &mut E, name: &str) -> io::Result<()>
    ensures { WritesText E.fails_with (E.contents to.old) (E.contents to.new) result (endless_text name.now) }
{
    put_four(
        to,
        name,
        ": more lines, bytes or seconds",
        " than can be counted",
        "\n",
    )
}

/// Writes that a log was not the same each time that it was read.
pub fn say_changed<E: ByteSink>(to: &mut E) -> io::Result<()>
    ensures { WritesText E.fails_with (E.contents to.old) (E.contents to.new) result changed_text }
{
    put(to, b"the log changed while it was read\n")
}

/// Writes that the form in a file does not load, with the number that says why.
pub fn say_refused<E: ByteSink>(to: &mut E, name: &str, number: u32) -> io::Result<()>
    ensures { WritesText E.fails_with (E.contents to.old) (E.contents to.new) result
        (refused_text name.now number) }
{
    put_four(to, name, ": ", number_text(number), " (")?;
    fill(to, "#)\n", &[number as u64])
}

/// Writes which line of a log does not belong to it, and why.
pub fn say_stray<E: ByteSink>(to: &mut E, line: &StrayLine) -> io::Result<()>
    ensures { WritesText E.fails_with (E.contents to.old) (E.contents to.new) result
        (stray_warning (stray_seen line.now)) }
{
    let mut text = StrayText::new();
    line.put(&mut text);
    put(to, &text)?;
    put(to, b"; what is written is of the lines before it\n")
}

/// Writes what of a log of the first kind was not played: lines that are not understood, calls that are refused.
pub fn say_unplayed<E: ByteSink>(to: &mut E, unplayed: &Unplayed) -> io::Result<()>
    ensures { WritesText E.fails_with (E.contents to.old) (E.contents to.new) result (unplayed_text unplayed.now) }
{
    let mut text = UnplayedText::new();
    unplayed.put(&mut text);
    put(to, &text)
}

/// Writes why a command line is not served, and in a second line the usage; nothing for the help, for the version and
/// if there is no memory.
pub fn say_stop<E: ByteSink>(to: &mut E, stop: &Stop<'_>, usage: &str) -> io::Result<()>
    ensures { WritesText E.fails_with (E.contents to.old) (E.contents to.new) result (stop_text stop.now usage.now) }
{
    match stop {
        Stop::Help | Stop::Version | Stop::NoMemory => put(to, b""),
        Stop::Unknown(word) => put_four(to, word, ": no such option", "\n", usage),
        Stop::Alone(word) => put_four(to, word, ": a file's name is missing after it", "\n", usage),
        Stop::Twice(word) => put_four(to, word, ": given twice", "\n", usage),
        Stop::NoForm(word) => put_four(to, word, ": a form is a file", "\n", usage),
        Stop::NoMoment(word) => put_four(
            to,
            word,
            ": no day and time, as 2026-11-23T06:00",
            "\n",
            usage,
        ),
        Stop::NoHours(word) => put_four(
            to,
            word,
            ": no number of hours, of one to five digits",
            "\n",
            usage,
        ),
        Stop::Apart(word) => put_four(
            to,
            word,
            ": --page and --csv do not go together",
            "\n",
            usage,
        ),
    }
}
