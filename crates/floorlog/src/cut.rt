// The last line of a log that cannot be replayed to its end (RULES, Floor log).
ghost use Rattle.std.specs.Prelude.{[], List, ℕ, ◌≡◌, ◌≢◌, ◌++◌, OnOk, Err};
ghost use Rattle.std.specs.declared.io.Error.{Error};
ghost use Rattle.textio.specs.Fronts.{WritesText};
ghost use Rattle.record.specs.declared.types.Device.{Device};
ghost use Rattle.floorlog.specs.Playing.{replay_text};
ghost use Rattle.floorlog.specs.Cuts.{failure_line, cut_text, end_text, EndFails, number_line};

use std::io;
use textio::forms::fill;
use textio::lines::Failure;
use textio::writer::{ByteSink, put};

/// Returns the line that is written last for a failure. The output of a log that is replayed to its end never ends with
/// it.
pub fn last_line(failure: &Failure) -> &'static [u8]
    ensures line { result.now ≡ failure_line failure.now }
    ensures no_log { (d : Device) (log before : List ℕ) → replay_text d log ≢ before ++ result.now }
{
    match failure {
        Failure::Read(_) => b"! read failed\n",
        Failure::Write(_) => b"! write failed\n",
        Failure::TooLong => b"! broken off\n",
    }
}

/// How the end of an output says that it is cut short.
#[derive(Clone, Copy)]
pub enum CutForm {
    /// By a line.
    Line,
    /// By a row of comma-separated values, of seven fields.
    Row,
}

impl CutForm {
    // What says so for a failure.
    fn last(self, failure: &Failure) -> &'static [u8]
        ensures { result.now ≡ cut_text self failure.now }
    {
        match self {
            CutForm::Line => last_line(failure),
            CutForm::Row => match failure {
                Failure::Read(_) => b",,,,,,! read failed\r\n",
                Failure::Write(_) => b",,,,,,! write failed\r\n",
                Failure::TooLong => b",,,,,,! broken off\r\n",
            },
        }
    }
}

/// Ends an output: if the log was not reported to its end, writes that in this form; then flushes the sink. After a
/// failed write it writes nothing, since more output would hide what is missing, and returns the error of that write.
pub fn end_output<W: ByteSink>(
    told: Result<(), Failure>,
    form: CutForm,
    to: &mut W,
) -> io::Result<()>
    ensures text { WritesText (EndFails W.fails_with told) (W.contents to.old) (W.contents to.new) result
        (end_text form told) }
    ensures none_waits { OnOk result (W.waiting to.new ≡ []) }
    ensures failed { (e : Error) → told ≡ Err (Failure.Write e) → result ≡ Err e }
{
    match told {
        Ok(()) => to.flush(),
        Err(Failure::Write(error)) => Err(error),
        Err(failure) => {
            put(to, form.last(&failure))?;
            to.flush()
        }
    }
}

/// Writes the one line for a stored form that does not load: `! ` and its number. Flushes the sink.
pub fn tell_number<W: ByteSink>(to: &mut W, number: u32) -> io::Result<()>
    ensures text { WritesText W.fails_with (W.contents to.old) (W.contents to.new) result (number_line number) }
    ensures none_waits { OnOk result (W.waiting to.new ≡ []) }
{
    fill(to, "! #\n", &[number as u64])?;
    to.flush()
}
