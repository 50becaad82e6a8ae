// The lines of a log, one at a time, in the caller's buffer.
ghost use Rattle.std.specs.Prelude.{[], ◌≡◌, ◌≤◌, ◌<◌, length, OnErr, OnOk, IfOk, IfErr, IfSome};
ghost use Rattle.std.specs.Io.KnownBytes.{Keeps};
ghost use Rattle.textio.specs.Lines.{HasEndlessLine};
ghost use Rattle.textio.specs.Ahead.{ahead_of, left_in};
ghost use Rattle.textio.specs.NextLine.{ShowsPart, ReadsPart, IsNextLine, FailureComesOf, OnFailedRead};

use crate::memory;
use crate::reader::{BufferedReader, ByteSource};
use crate::writer::ByteSink;
use std::io::Error;
use std::{error, fmt, io};

/// A line that was read.
#[derive(Clone, Copy)]
pub struct LineRead {
    /// How many of its bytes, without its LF, are at the start of the buffer.
    pub held: usize,
    /// Whether an LF ended it. The last line of a log may have none.
    pub ended: bool,
}

/// Why a log is not read to its end.
#[derive(Debug, Drop)]
pub enum Failure {
    /// The source gave an error. A line that had begun is not read.
    Read(Error),
    /// The sink of the output gave an error.
    Write(Error),
    /// The log has more lines than a 64-bit number counts, or a line has more bytes.
    TooLong,
}

impl fmt::Display for Failure {
    fn fmt<W: fmt::Write>(&self, f: &mut fmt::Formatter<W>) -> fmt::Result {
        match self {
            Failure::Read(error) => write!(f, "a read failed: {error}"),
            Failure::Write(error) => write!(f, "a write failed: {error}"),
            Failure::TooLong => f.write_str("more lines or bytes than can be counted"),
        }
    }
}

impl error::Error for Failure {}

// How far a line was read, and how many of its bytes are in the buffer.
#[derive(Clone, Copy)]
enum LineSeen {
    Part(usize),
    Whole(usize),
    End,
}

// Consumes what is read ahead of a line, with its LF, and puts what fits of it into the buffer.
fn take_shown<R: ByteSource>(
    from: &mut BufferedReader<R>,
    line: &mut [u8],
    at: usize,
) -> io::Result<LineSeen>
    requires { at ≤ length line.old }
    ensures ok { IfOk result
        (ShowsPart (left_in R.remaining from.old) (left_in R.remaining from.new) line.old at line.new) }
    ensures err { IfErr result R.fails_with }
    ensures read { OnErr result (length (ahead_of from.old) ≡ 0) }
    ensures kept { OnErr result (Keeps (left_in R.remaining from.old) (left_in R.remaining from.new)) }
{
    from.fill()?;
    let shown = from.ahead();
    let count = shown.len();
    if count == 0 {
        return Ok(LineSeen::End);
    }
    let end = text::find(shown, b'\n');
    let place = memory::append(line, at, &shown[..end]);
    if end < count {
        from.consume(end + 1);
        return Ok(LineSeen::Whole(place));
    }
    from.consume(count);
    Ok(LineSeen::Part(place))
}

/// Flushes the sink if no byte is read ahead: the next read may wait.
pub fn flush_before_read<R: ByteSource, W: ByteSink>(
    from: &BufferedReader<R>,
    to: &mut W,
) -> io::Result<()>
    ensures keeps { Keeps (W.contents to.old) (W.contents to.new) }
    ensures err { IfErr result W.fails_with }
    ensures none_waits { OnOk result (length (ahead_of from.now) ≡ 0 → W.waiting to.new ≡ []) }
{
    if from.is_empty() {
        return to.flush();
    }
    Ok(())
}

/// Reads the next line, without its LF, into the start of `line`. Returns how many bytes were stored and whether an LF
/// ended the line; `None` at the end of the source. Of a line that is longer than the buffer only the part that fits is
/// stored. Flushes `to` before each read, which may wait. Errors: `Failure`.
pub fn next_line<R: ByteSource, W: ByteSink>(
    from: &mut BufferedReader<R>,
    to: &mut W,
    line: &mut [u8],
) -> Result<Option<LineRead>, Failure>
    requires { 0 < length line.old }
    ensures next { IfOk result (λ next. IfSome (left_in R.remaining from.old) (λ log.
        IsNextLine log (left_in R.remaining from.new) line.new next)) }
    ensures bound { IfOk result (λ next. IfSome next (λ l. l.held ≤ length line.new)) }
    ensures keeps { Keeps (W.contents to.old) (W.contents to.new) }
    ensures err { IfErr result
        (FailureComesOf R.fails_with W.fails_with HasEndlessLine (left_in R.remaining from.old)) }
    ensures none_waits { IfErr result (OnFailedRead (W.waiting to.new ≡ [])) }
    ensures part { IfErr result
        (OnFailedRead (ReadsPart (left_in R.remaining from.old) (left_in R.remaining from.new))) }
{
    let mut held = 0;
    for _ in 0..u64::MAX {
        flush_before_read(from, to).map_err(Failure::Write)?;
        match take_shown(from, line, held) {
            Ok(LineSeen::Part(place)) => held = place,
            Ok(LineSeen::Whole(place)) => {
                return Ok(Some(LineRead {
                    held: place,
                    ended: true,
                }));
            }
            Ok(LineSeen::End) if held == 0 => return Ok(None),
            Ok(LineSeen::End) => return Ok(Some(LineRead { held, ended: false })),
            Err(e) => return Err(Failure::Read(e)),
        }
    }
    Err(Failure::TooLong)
}
