// A log observed: an observer is given its lines one after the other, from any source of bytes, and writes to any sink.
ghost use Rattle.std.specs.Prelude.{[], ◌∷◌, ◌≡◌, ℕ, List, OnOk, OnErr, IfErr, IfSome};
ghost use Rattle.std.specs.Io.KnownBytes.{Appends};
ghost use Rattle.textio.specs.Fronts.{WritesFront, WritesText};
ghost use Rattle.textio.specs.Lines.{LogLine};
ghost use Rattle.textio.specs.Ahead.{left_in};
ghost use Rattle.textio.specs.NextLine.{FailureComesOf, OnFailedRead};
ghost use Rattle.floorlog.specs.Kept.{kept_lines};
ghost use Rattle.floorlog.specs.KeptText.{kept_line};
ghost use Rattle.floorlog.specs.Observing.{Observes, BreaksOff, FailsOn, CannotFollow};

use crate::kept::KeptLine;
use std::io;
use textio::lines::Failure;
use textio::reader::{BufferedReader, ByteSource};
use textio::writer::ByteSink;

/// Receives the lines of a log, and writes what comes of them.
pub trait Observer {
    /// What is written for the lines that are left, and at their end. A line is what is kept of it, and whether an LF
    /// ended it.
    ghost output: { Self → List LogLine → List ℕ };

    /// These lines leave the observer so.
    ghost leaves: { Self → List LogLine → Self → Type 0 };

    /// These lines have more in them than the observer can count.
    ghost overflows: { Self → List LogLine → Type 0 };

    /// Receives the next line.
    fn line<W: ByteSink>(&mut self, line: &KeptLine, to: &mut W) -> Result<(), Failure>
        ensures ok { OnOk result (Observes output leaves overflows self.old self.new (kept_line line.now)
            (W.contents to.old) (W.contents to.new)) }
        ensures front { OnErr result ((ls : List LogLine) → WritesFront (W.contents to.old) (W.contents to.new)
            (output self.old (kept_line line.now ∷ ls))) }
        ensures err { IfErr result
            (FailsOn W.fails_with ((ls : List LogLine) → overflows self.old (kept_line line.now ∷ ls))) };

    /// Receives the end of the log.
    fn end<W: ByteSink>(&mut self, to: &mut W) -> io::Result<()>
        ensures text { WritesText W.fails_with (W.contents to.old) (W.contents to.new) result (output self.old []) }
        ensures left { OnOk result (leaves self.old [] self.new) };
}

// Gives an observer the end of the log, and flushes the sink.
fn end<W: ByteSink, O: Observer>(observer: &mut O, to: &mut W) -> io::Result<()>
    ensures text { WritesText W.fails_with (W.contents to.old) (W.contents to.new) result (O.output observer.old []) }
    ensures left { OnOk result (O.leaves observer.old [] observer.new) }
    ensures none_waits { OnOk result (W.waiting to.new ≡ []) }
{
    observer.end(to)?;
    to.flush()
}

/// Gives an observer the lines that are left in a reader, and the end of the log. Flushes the sink before each read,
/// which may wait.
pub fn follow<R: ByteSource, W: ByteSink, O: Observer>(
    observer: &mut O,
    from: &mut BufferedReader<R>,
    to: &mut W,
) -> Result<(), Failure>
    ensures whole { OnOk result (IfSome (left_in R.remaining from.old) (λ log. Appends (W.contents to.old)
        (W.contents to.new) (O.output observer.old (kept_lines log)))) }
    ensures left { OnOk result (IfSome (left_in R.remaining from.old) (λ log.
        O.leaves observer.old (kept_lines log) observer.new)) }
    ensures front { IfSome (left_in R.remaining from.old) (λ log. WritesFront (W.contents to.old)
        (W.contents to.new) (O.output observer.old (kept_lines log))) }
    ensures none_waits { OnOk result (W.waiting to.new ≡ []) }
    ensures read { IfErr result (OnFailedRead (W.waiting to.new ≡ [])) }
    ensures broken { IfErr result (OnFailedRead (IfSome (left_in R.remaining from.old) (λ log.
        IfSome (left_in R.remaining from.new) (λ left. BreaksOff O.output O.leaves observer.old observer.new log left
        (W.contents to.old) (W.contents to.new))))) }
    ensures err { IfErr result (FailureComesOf R.fails_with W.fails_with
        (λ log. CannotFollow O.overflows observer.old log) (left_in R.remaining from.old)) }
{
    let mut line = KeptLine::new();
    for _ in 0..u64::MAX {
        if !line.read(from, to)? {
            return end(observer, to).map_err(Failure::Write);
        }
        observer.line(&line, to)?;
    }
    Err(Failure::TooLong)
}
