// What is kept of a line of a log, in fixed memory.
ghost use Rattle.std.specs.Prelude.{[], ◌≡◌, ◌+◌, ◌≤◌, ◌++◌, take, codes, true, false, None, IfOk, IfErr, IfSome};
ghost use Rattle.std.specs.Io.KnownBytes.{Keeps};
ghost use Rattle.textio.specs.Lines.{HasEndlessLine};
ghost use Rattle.textio.specs.Ahead.{left_in};
ghost use Rattle.textio.specs.NextLine.{ReadsPart, line_in, IsLine, FailureComesOf, OnFailedRead};
ghost use Rattle.floorlog.specs.Kept.{kept_most};

use crate::event::Event;
use crate::line;
use crate::line::LOG_LINE_MOST;
use textio::lines;
use textio::lines::{Failure, LineRead};
use textio::reader::{BufferedReader, ByteSource};
use textio::writer::ByteSink;

// one byte more of a longer line, by which it is known to be longer
const KEPT_MOST: usize = LOG_LINE_MOST + 1;

// that, and the CR with which an `R` line's text is received
const KEPT_ROOM: usize = 4098;

// Reads the next line of a log into the memory, from its start. Returns what is kept of it, if there is one.
fn read_line<R: ByteSource, W: ByteSink>(
    from: &mut BufferedReader<R>,
    to: &mut W,
    line: &mut [u8; KEPT_ROOM],
) -> Result<Option<LineRead>, Failure>
    ensures next { IfOk result (λ next. IfSome next (λ l. IfSome (left_in R.remaining from.old) (λ log.
        IsLine log (left_in R.remaining from.new) kept_most (line_in line.new l)))) }
    ensures end { IfOk result (λ next. next ≡ None → IfSome (left_in R.remaining from.old) (λ log. log ≡ [])) }
    ensures bound { IfOk result (λ next. IfSome next (λ l. l.held ≤ kept_most)) }
    ensures keeps { Keeps (W.contents to.old) (W.contents to.new) }
    ensures err { IfErr result
        (FailureComesOf R.fails_with W.fails_with HasEndlessLine (left_in R.remaining from.old)) }
    ensures none_waits { IfErr result (OnFailedRead (W.waiting to.new ≡ [])) }
    ensures part { IfErr result
        (OnFailedRead (ReadsPart (left_in R.remaining from.old) (left_in R.remaining from.new))) }
{
    lines::next_line(from, to, &mut line[..KEPT_MOST])
}

// Puts a CR after the line that the memory holds.
fn put_cr(line: &mut [u8; KEPT_ROOM], held: usize)
    requires { held ≤ kept_most }
    ensures line { take held line.new ≡ take held line.old }
    ensures with_cr { take (held + 1) line.new ≡ take held line.old ++ codes "\r" }
{
    line[held] = b'\r';
}

/// A line of a log, without its LF: all of it, or as much as shows that it has no form; and whether an LF ended it. A
/// CR follows it, with which a text is received.
#[derive(Drop)]
pub struct KeptLine {
    bytes: [u8; KEPT_ROOM],
    held: usize,
    ended: bool,
    ghost inside: { held ≤ 4097 },
    ghost with_cr: { take (held + 1) bytes ≡ take held bytes ++ codes "\r" },
}

impl KeptLine {
    ghost use Rattle.floorlog.specs.KeptText.{kept_text, kept_line};
    ghost use Rattle.floorlog.specs.Events.{event_said, event};

    /// Returns the line before any is read: it has no byte.
    pub fn new() -> KeptLine
        ensures { kept_text result ≡ [] }
    {
        KeptLine {
            bytes: [b'\r'; KEPT_ROOM],
            held: 0,
            ended: false,
        }
    }

    /// Returns what is kept of the line.
    pub fn text(&self) -> &[u8]
        ensures { result.now ≡ kept_text self.now }
    {
        &self.bytes[..self.held]
    }

    /// Returns whether an LF ended the line. Only the last line of a log may have none; it may then have been cut.
    pub fn is_ended(&self) -> bool
        ensures { result ≡ (kept_line self.now).ended }
    {
        self.ended
    }

    /// Returns the event of the line.
    pub fn event(&self) -> Event<'_>
        ensures { event_said result ≡ event (kept_text self.now) }
    {
        line::read(&self.bytes[..self.held + 1])
    }

    /// Reads the next line of a log in place of this one. Returns whether there is one.
    pub fn read<R: ByteSource, W: ByteSink>(
        &mut self,
        from: &mut BufferedReader<R>,
        to: &mut W,
    ) -> Result<bool, Failure>
        ensures next { IfOk result (λ more. more ≡ true → IfSome (left_in R.remaining from.old) (λ log.
            IsLine log (left_in R.remaining from.new) kept_most (kept_line self.new))) }
        ensures end { IfOk result (λ more. more ≡ false → IfSome (left_in R.remaining from.old) (λ log. log ≡ [])) }
        ensures keeps { Keeps (W.contents to.old) (W.contents to.new) }
        ensures err { IfErr result
            (FailureComesOf R.fails_with W.fails_with HasEndlessLine (left_in R.remaining from.old)) }
        ensures none_waits { IfErr result (OnFailedRead (W.waiting to.new ≡ [])) }
        ensures part { IfErr result
            (OnFailedRead (ReadsPart (left_in R.remaining from.old) (left_in R.remaining from.new))) }
    {
        let next = read_line(from, to, &mut self.bytes);
        (self.held, self.ended) = match next {
            Ok(Some(line)) => (line.held, line.ended),
            _ => (0, false),
        };
        put_cr(&mut self.bytes, self.held);
        Ok(next?.is_some())
    }
}
