// A command line answered.
ghost use Rattle.std.specs.Prelude.{◌≡◌, ◌++◌, true, ℕ, List, map, codes, IsErr, IfOk, IfErr};
ghost use Rattle.program.specs.Said.{UnbegunSaid, unread_text, unwritten_text, cause_of, failed_text, shown_name};
ghost use Rattle.program.specs.Said.{IsSaid, ending_status, ending_text};
ghost use Rattle.program.specs.Joined.{joined_bytes, files_asked};
ghost use Rattle.program.specs.Running.{TellsOut, TellsSaved, BeginsBy, is_lines, is_lined, LeavesLine, AboutEnds};
ghost use Rattle.program.specs.Running.{cut_form, IsLast, LastSaid, is_page, IsUnkeptSaid, LeavesFailure};
ghost use Rattle.program.specs.Running.{StopsSo, Does, Runs, SaysAlone};
ghost use Rattle.program.specs.About.{help_text, version_text};
ghost use Rattle.textio.specs.Fronts.{WritesText};
ghost use Rattle.command.specs.Asked.{asked_seen, text_seen};
ghost use Rattle.program.specs.declared.status.Status.TheVariants as Status;

use crate::about::About;
use crate::joined::Opens;
use crate::outside::{NotKept, Outside, System};
use crate::said::shown;
use crate::status::Status;
use crate::telling::{CutCause, CutOff, Ending, Telling};
use crate::{joined, said};
use command::asked;
use command::asked::{Arguments, Shape, Stop};
use floorlog::cut;
use floorlog::cut::CutForm;
use formfile::{Begun, NotBegun};
use reasons::about::version_line;
use std::alloc::Global;
use std::convert::AsStr;
use std::io::{Error, ErrorKind};
use std::{env, io};
use text::numbered::Numbered;
use textio::lines::Failure;
use textio::streams::Stream;
use textio::writer::{BufferedWriter, ByteSink, put};

const STANDARD_OUTPUT: &str = "standard output";

fn put_two<W: ByteSink>(to: &mut W, first: &str, last: &str) -> io::Result<()>
    ensures { WritesText W.fails_with (W.contents to.old) (W.contents to.new) result (first.now ++ last.now) }
{
    put(to, first.as_bytes())?;
    put(to, last.as_bytes())
}

fn put_version<W: ByteSink>(about: &About, to: &mut W) -> io::Result<()>
    ensures { WritesText W.fails_with (W.contents to.old) (W.contents to.new) result (version_text about.now) }
{
    put(to, about.name.as_bytes())?;
    put_two(to, " ", version_line())
}

// What is written in the place of an output: help.
fn tell_help<W: ByteSink>(about: &About, to: &mut W) -> io::Result<()>
    ensures { WritesText W.fails_with (W.contents to.old) (W.contents to.new) result (help_text about.now) }
{
    put_two(to, about.usage, about.help)?;
    to.flush()
}

// Or the version.
fn tell_version<W: ByteSink>(about: &About, to: &mut W) -> io::Result<()>
    ensures { WritesText W.fails_with (W.contents to.old) (W.contents to.new) result (version_text about.now) }
{
    put_version(about, to)?;
    to.flush()
}

// How that ends.
#[tactic(auto, using(crate::proofs::SaidSo::said_so))]
fn told_about<E: ByteSink>(told: io::Result<()>, errors: &mut E) -> Status
    ensures { AboutEnds E.fails_with told (E.contents errors.old) (E.contents errors.new) result }
{
    match told {
        Ok(()) => Status::Done,
        Err(error) => unwritten(STANDARD_OUTPUT, &error, errors),
    }
}

// A command line that asks for no log.
#[tactic(auto, using(crate::proofs::SaidSo::said_so))]
fn stopped<W: ByteSink, E: ByteSink>(
    about: &About,
    stop: Stop<'_>,
    to: &mut W,
    errors: &mut E,
) -> Status
    ensures { StopsSo W.fails_with E.fails_with stop.entry about.now
        (record {
          out = W.contents to.old;
          out_then = W.contents to.new;
          errors = E.contents errors.old;
          errors_then = E.contents errors.new;
        }) result }
{
    match stop {
        Stop::Help => told_about(tell_help(about, to), errors),
        Stop::Version => told_about(tell_version(about, to), errors),
        Stop::NoMemory => {
            let _said = said::say_unread(errors, "the command line", ": out of memory").is_ok();
            Status::Failed
        }
        _ => {
            let _said = said::say_stop(errors, &stop, about.usage).is_ok();
            Status::Usage
        }
    }
}

#[tactic(auto, using(crate::proofs::SaidSo::said_so))]
fn unread<E: ByteSink>(name: &str, error: &Error, errors: &mut E) -> Status
    ensures status { result ≡ Status.Failed }
    ensures said { IsSaid E.fails_with (E.contents errors.old) (E.contents errors.new)
        (unread_text name.now (cause_of error.now)) }
{
    let _said = said::say_unread(errors, name, said::cause(error)).is_ok();
    Status::Failed
}

#[tactic(auto, using(crate::proofs::SaidSo::said_so))]
fn unwritten<E: ByteSink>(name: &str, error: &Error, errors: &mut E) -> Status
    ensures status { result ≡ Status.Failed }
    ensures said { IsSaid E.fails_with (E.contents errors.old) (E.contents errors.new)
        (unwritten_text name.now (cause_of error.now)) }
{
    let _said = said::say_unwritten(errors, name, said::cause(error)).is_ok();
    Status::Failed
}

// Why a log was not reported to its end.
#[tactic(auto, using(crate::proofs::SaidSo::said_so))]
fn failed<E: ByteSink>(cause: &CutCause, source: &str, sink: &str, errors: &mut E) -> Status
    ensures status { result ≡ Status.Failed }
    ensures said { IsSaid E.fails_with (E.contents errors.old) (E.contents errors.new)
        (failed_text cause.now source.now sink.now) }
{
    match cause {
        CutCause::Log(Failure::Read(error)) => unread(source, error, errors),
        CutCause::Log(Failure::Write(error)) => unwritten(sink, error, errors),
        CutCause::Log(Failure::TooLong) => {
            let _said = said::say_endless(errors, source).is_ok();
            Status::Failed
        }
        CutCause::Changed => {
            let _said = said::say_changed(errors).is_ok();
            Status::Failed
        }
    }
}

// How a log ended that was read to its end and reported.
#[tactic(auto, using(crate::proofs::SaidSo::said_so))]
fn ended<E: ByteSink>(ending: &Ending, errors: &mut E) -> Status
    ensures status { result ≡ ending_status ending.now }
    ensures said { IsSaid E.fails_with (E.contents errors.old) (E.contents errors.new) (ending_text ending.now) }
{
    if let Some(line) = &ending.stray {
        let _said = said::say_stray(errors, line).is_ok();
        return Status::Strayed;
    }
    if ending.unplayed.is_none() {
        return Status::Done;
    }
    let _said = said::say_unplayed(errors, &ending.unplayed).is_ok();
    Status::Strayed
}

// Whether a failure has its last line as a row of comma-separated values.
fn cut_form(shape: Shape) -> CutForm
    ensures { result ≡ cut_form shape }
{
    match shape {
        Shape::Csv => CutForm::Row,
        Shape::Lines | Shape::Page => CutForm::Line,
    }
}

// The failure that an output which is cut off ends with: a log that changed is one that cannot be read.
fn last_failure(cause: CutCause) -> Failure
    ensures { IsLast cause result }
{
    match cause {
        CutCause::Log(failure) => failure,
        CutCause::Changed => Failure::Read(Error::from(ErrorKind::Other)),
    }
}

// A log that was cut off on standard output: its last line there, and words on standard error.
fn cut_off<W: ByteSink, E: ByteSink>(
    cut: CutOff<'_>,
    shape: Shape,
    to: &mut W,
    errors: &mut E,
) -> Status
    ensures status { result ≡ Status.Failed }
    ensures said { IsSaid E.fails_with (E.contents errors.old) (E.contents errors.new)
        (failed_text cut.entry.cause (shown_name cut.entry.file.now) (codes "standard output")) }
    ensures last { LastSaid W.fails_with (cut_form shape) (W.contents to.old) (W.contents to.new) cut.entry.cause }
{
    let status = failed(&cut.cause, shown(cut.file), STANDARD_OUTPUT, errors);
    let _ended = cut::end_output(Err(last_failure(cut.cause)), cut_form(shape), to).is_ok();
    status
}

// The log on standard output. A failure has its line there too, and words on standard error.
fn tell_out<P: Telling, O: Opens, W: ByteSink, E: ByteSink>(
    program: &P,
    begun: &Begun,
    command: &Arguments<'_>,
    opens: &O,
    to: &mut W,
    errors: &mut E,
) -> Status
    ensures { TellsOut W.fails_with E.fails_with
        (joined_bytes (O.log_bytes opens.now) (files_asked (asked_seen command.now)))
        (P.told program.now (asked_seen command.now) begun.now) (P.ends program.now begun.now)
        (cut_form (asked_seen command.now).shape)
        (record {
          out = W.contents to.old;
          out_then = W.contents to.new;
          errors = E.contents errors.old;
          errors_then = E.contents errors.new;
        }) result }
{
    match program.tell(begun, command, opens, to) {
        Ok(ending) => match cut::end_output(Ok(()), cut_form(command.shape), to) {
            Ok(()) => ended(&ending, errors),
            Err(error) => unwritten(STANDARD_OUTPUT, &error, errors),
        },
        Err(cut) => cut_off(cut, command.shape, to, errors),
    }
}

// The log in a file, which is left as it was where that fails.
fn tell_saved<P: Telling, O: Outside, E: ByteSink>(
    program: &P,
    begun: &Begun,
    command: &Arguments<'_>,
    outside: &O,
    name: &str,
    errors: &mut E,
) -> Status
    ensures { TellsSaved E.fails_with
        (joined_bytes (O.log_bytes outside.now) (files_asked (asked_seen command.now))) (O.fresh outside.now)
        (P.told program.now (asked_seen command.now) begun.now) (P.ends program.now begun.now)
        (O.stands outside.now) name.now (E.contents errors.old) (E.contents errors.new) result }
{
    let mut to = match outside.create(name) {
        Ok(sink) => sink,
        Err(error) => return unwritten(name, &error, errors),
    };
    match program.tell(begun, command, outside, &mut to) {
        Ok(ending) => match outside.keep(name, to) {
            Ok(()) => ended(&ending, errors),
            Err(error) => unwritten(name, &error, errors),
        },
        Err(cut) => {
            outside.discard(to);
            failed(&cut.cause, shown(cut.file), name, errors)
        }
    }
}

// A log that could not be kept for its later readings: words on standard error.
#[tactic(auto, using(crate::proofs::SaidSo::said_so))]
fn unkept<E: ByteSink>(why: &NotKept<'_>, errors: &mut E) -> Status
    ensures status { result ≡ Status.Failed }
    ensures said { IsUnkeptSaid E.fails_with (E.contents errors.old) (E.contents errors.new) }
{
    match why {
        NotKept::Unread(name, error) => unread(shown(name), error, errors),
        NotKept::Unwritten(name, error) => unwritten(name.as_str(), error, errors),
    }
}

// And the line of a failed read where the log was to go to standard output.
fn leave_unkept<W: ByteSink>(command: &Arguments<'_>, to: &mut W)
    ensures { LeavesFailure W.fails_with (asked_seen command.now).output (W.contents to.old) (W.contents to.new) }
{
    if command.output.is_none() {
        let failure = Failure::Read(Error::from(ErrorKind::Other));
        let _ended = cut::end_output(Err(failure), CutForm::Line, to).is_ok();
    }
}

// The report of a form that does not load: its words on standard error, and how that went; and, if it is asked for,
// its line in the place of an output.
#[tactic(auto, using(crate::proofs::SaidSo::said_so))]
fn unbegun<W: ByteSink, E: ByteSink>(
    why: NotBegun,
    name: &str,
    lined: bool,
    to: &mut W,
    errors: &mut E,
) -> (Status, io::Result<()>)
    ensures status { result.0 ≡ Status.Failed }
    ensures said { UnbegunSaid E.fails_with (E.contents errors.old) (E.contents errors.new) result.1 name.now why }
    ensures line { LeavesLine W.fails_with lined (W.contents to.old) (W.contents to.new) why }
{
    match why {
        NotBegun::Unread(error) => {
            let said = said::say_unread(errors, name, said::cause(&error));
            if lined {
                let _told = cut::end_output(Err(Failure::Read(error)), CutForm::Line, to).is_ok();
            }
            (Status::Failed, said)
        }
        NotBegun::Refused(error) => {
            let number = error.number();
            let said = said::say_refused(errors, name, number);
            if lined {
                let _told = cut::tell_number(to, number).is_ok();
            }
            (Status::Failed, said)
        }
    }
}

fn begin_by<O: Outside>(outside: &O, alloc: Global, form: Option<&str>) -> Result<Begun, NotBegun>
    ensures { BeginsBy (O.form_bytes outside.now) (text_seen form.entry) result }
{
    match form {
        None => Ok(formfile::sample()),
        Some(name) => formfile::read_from(outside.open_form(name)?, alloc),
    }
}

fn is_lines(shape: Shape) -> bool
    ensures { result ≡ is_lines shape }
{
    match shape {
        Shape::Lines => true,
        Shape::Page | Shape::Csv => false,
    }
}

// Whether a form that does not load leaves its line: no page is written for it, no table and no file.
fn is_lined(command: &Arguments<'_>) -> bool
    ensures { result ≡ is_lined (asked_seen command.now) }
{
    is_lines(command.shape) && command.output.is_none()
}

// Whether the log is read more than once.
fn is_page(shape: Shape) -> bool
    ensures { result ≡ is_page shape }
{
    match shape {
        Shape::Page => true,
        Shape::Lines | Shape::Csv => false,
    }
}

// What can be read only once is kept, where a page is asked for.
fn keep_for_page<'w, O: Outside>(
    command: &Arguments<'w>,
    outside: &mut O,
) -> Result<(), NotKept<'w>>
    ensures page { IsErr result → is_page (asked_seen command.now).shape ≡ true }
    ensures logs { O.log_bytes outside.new ≡ O.log_bytes outside.old }
    ensures fresh { O.fresh outside.new ≡ O.fresh outside.old }
    ensures stands { (name text : List ℕ) → O.stands outside.new name text → O.stands outside.old name text }
{
    if !is_page(command.shape) {
        return Ok(());
    }
    outside.keep_input(joined::files_of(command))
}

fn tell<P: Telling, O: Outside, W: ByteSink, E: ByteSink>(
    program: &P,
    alloc: Global,
    command: &Arguments<'_>,
    outside: &mut O,
    to: &mut W,
    errors: &mut E,
) -> Status
    ensures { Does W.fails_with E.fails_with (O.log_bytes outside.old) (O.form_bytes outside.old) (O.fresh outside.old)
        (O.stands outside.old) (P.told program.now) (P.ends program.now) (asked_seen command.now)
        (record {
          out = W.contents to.old;
          out_then = W.contents to.new;
          errors = E.contents errors.old;
          errors_then = E.contents errors.new;
        }) result }
{
    let begun = match begin_by(outside, alloc, command.form) {
        Ok(begun) => begun,
        Err(why) => {
            let lined = is_lined(command);
            let name = command.form.unwrap_or("-");
            let (status, said) = unbegun(why, name, lined, to, errors);
            let _said = said.is_ok();
            return status;
        }
    };
    if let Err(why) = keep_for_page(command, outside) {
        leave_unkept(command, to);
        return unkept(&why, errors);
    }
    match command.output {
        None => tell_out(program, &begun, command, outside, to, errors),
        Some(name) => tell_saved(program, &begun, command, outside, name, errors),
    }
}

// Answers the words of a command line.
fn answer<P: Telling, S: AsStr, O: Outside, W: ByteSink, E: ByteSink>(
    program: &P,
    about: &About,
    alloc: Global,
    words: &[S],
    outside: &mut O,
    to: &mut W,
    errors: &mut E,
) -> Status
    ensures { Runs W.fails_with E.fails_with (O.log_bytes outside.old) (O.form_bytes outside.old) (O.fresh outside.old)
        (O.stands outside.old) (P.told program.now) (P.ends program.now) (map S.text words.now) about.now
        (record {
          out = W.contents to.old;
          out_then = W.contents to.new;
          errors = E.contents errors.old;
          errors_then = E.contents errors.new;
        }) result }
{
    match asked::command_of(alloc, words, about.has_page) {
        Ok(command) => tell(program, alloc, &command, outside, to, errors),
        Err(stop) => stopped(about, stop, to, errors),
    }
}

/// Answers a command line with these words, without the program's name, or with the error in their place. The report
/// goes to `to` or into a file, messages to `errors`. Returns the status.
pub fn run<P: Telling, S: AsStr, O: Outside, W: ByteSink, E: ByteSink>(
    program: &P,
    about: &About,
    alloc: Global,
    words: Result<&[S], &Error>,
    outside: &mut O,
    to: &mut W,
    errors: &mut E,
) -> Status
    ensures answers { IfOk words.entry (λ words. Runs W.fails_with E.fails_with (O.log_bytes outside.old)
        (O.form_bytes outside.old) (O.fresh outside.old) (O.stands outside.old) (P.told program.now)
        (P.ends program.now) (map S.text words.now) about.now
        (record {
          out = W.contents to.old;
          out_then = W.contents to.new;
          errors = E.contents errors.old;
          errors_then = E.contents errors.new;
        }) result) }
    ensures unread { IfErr words.entry (λ error. SaysAlone E.fails_with
        (unread_text (codes "the command line") (cause_of error.now)) Status.Failed
        (record {
          out = W.contents to.old;
          out_then = W.contents to.new;
          errors = E.contents errors.old;
          errors_then = E.contents errors.new;
        }) result) }
{
    match words {
        Ok(words) => answer(program, about, alloc, words, outside, to, errors),
        Err(error) => unread("the command line", error, errors),
    }
}

/// Answers the process's own command line, with its files and streams. Returns the status.
pub fn on_system<P: Telling>(rt: &HostRuntime, program: &P, about: &About) -> Status {
    let words: io::Result<Vec<String>> = env::args(rt).and_then(|all| Ok(
        all.skip(1).collect(rt.alloc())?,
    ));
    run(
        program,
        about,
        rt.alloc(),
        words.as_ref().map(|words| words.as_slice()),
        &mut System::of(rt),
        &mut BufferedWriter::new(Stream(rt.stdout())),
        &mut Stream(rt.stderr()),
    )
}
